//! Histories that only proofs read: they take no memory, and their functions do nothing in the program.
//!
//! A clause over a history alone says nothing, since any history meets it. It says something beside an
//! `invariant` that ties the history to what the struct computed, as that of the hashes of a [`crate::Stack`].

ghost use Rattle.std.specs.Prelude.{◌≡◌, List, [], ◌++◌};
ghost use Rattle.std.specs.Borrow.{ftrue};

use std::marker::{Model, PhantomData};

/// What came so far, first to last. A clause reads it as `items`.
#[derive(Drop)]
pub struct History<T> {
    of: PhantomData<T>,
    pub ghost items: { List T },
}

impl<T> Model for History<T> {
    ghost also_owns = { λ _. ftrue };
}

// It owns nothing.
unsafe impl<T: Send> Send for History<T> {}

// Items that lie in a slice, as one value.
#[derive(Clone, Copy)]
struct Run<'a, T> {
    items: &'a [T],
}

impl<T> History<T> {
    /// Before anything came.
    pub fn new() -> History<T>
        ensures { result.items ≡ [] }
    {
        History { of: PhantomData }
    }

    /// After these items more.
    pub fn with(&self, items: &[T]) -> History<T>
        ensures { result.items ≡ self.now.items ++ items.now }
    {
        self.after(&Run { items })
    }

    fn after(&self, _run: &Run<'_, T>) -> History<T>
        ensures { result.items ≡ self.now.items ++ _run.now.items.now }
    {
        History { of: PhantomData }
    }
}
