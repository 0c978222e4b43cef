//! Why reading stops, inside the reader: a fault is given with the bytes from it on.

ghost use Rattle.std.specs.Prelude.{◌≡◌};

use crate::fault::Fault;
use std::alloc::{AllocError, AllocFailed};

/// Why reading stopped: for want of memory, or at a fault, with the bytes from it on.
#[derive(Clone, Copy)]
pub(crate) enum Stop<'a> {
    Memory,
    At(Fault, &'a [u8]),
}

impl<'a> From<AllocError> for Stop<'a> {
    ghost use Rattle.tor_bencode.specs.declared.stop.Stop.TheVariants.{Memory};

    ghost from_gives = { λ _ stop. stop ≡ Memory };

    fn from(_refusal: AllocError) -> Stop<'a> {
        Stop::Memory
    }
}

impl<'a, T: Drop> From<AllocFailed<T>> for Stop<'a> {
    ghost use Rattle.tor_bencode.specs.declared.stop.Stop.TheVariants.{Memory};

    ghost from_gives = { λ _ stop. stop ≡ Memory };

    fn from(_refusal: AllocFailed<T>) -> Stop<'a> {
        Stop::Memory
    }
}
