//! The letters of a file that a torrent is made with (BEP 47, "attr").
ghost use Rattle.std.specs.Prelude.{◌≡◌, IfOk, map};
ghost use Rattle.std.specs.Option.{option_copied};
ghost use Rattle.tor_tree.specs.Letters.{letters, no_letters};

use std::alloc::{AllocError, Global};

/// Which letters a file is given (BEP 47, "attr").
#[derive(Clone, Copy, Debug, PartialEq, Eq, PartialOrd, Ord)]
pub struct Attr {
    /// `x`: an executable file.
    pub exec: bool,
    /// `h`: a hidden file.
    pub hidden: bool,
}

impl Attr {
    /// No letter.
    pub const NONE: Attr = Attr {
        exec: false,
        hidden: false,
    };

    /// No letter for each of some items.
    pub fn none_each<T>(alloc: Global, items: &[T]) -> Result<Vec<Attr>, AllocError>
        ensures { IfOk result (λ attrs. attrs.items ≡ map (λ item. no_letters) items.now) }
    {
        let mut attrs = Vec::with_capacity(alloc, items.len())?;
        for _item in items {
            attrs.push(Attr::NONE)?;
        }
        Ok(attrs)
    }

    /// The letters, `h` before `x`; None if there is none.
    pub fn letters(self) -> Option<&'static [u8]>
        ensures { option_copied result ≡ letters self }
    {
        match (self.hidden, self.exec) {
            (false, false) => None,
            (false, true) => Some(b"x"),
            (true, false) => Some(b"h"),
            (true, true) => Some(b"hx"),
        }
    }
}
