//! What reading and writing refuse.

ghost use Rattle.std.specs.Prelude.{◌≡◌};
ghost use Rattle.tor_bencode.specs.declared.error.BenError.TheVariants.{Memory};

use crate::fault::Fault;
use std::alloc::{AllocError, AllocFailed};
use thiserror::Error;

/// What reading and writing refuse, each with its code.
#[derive(Debug, Drop, Error)]
pub enum BenError {
    /// The first fault in reading order, and its offset in bytes.
    #[error("{fault} at {offset}")]
    Refused { fault: Fault, offset: usize },
    #[error("B10 Memory")]
    Memory,
}

impl From<AllocError> for BenError {
    ghost from_gives = { λ _ e. e ≡ Memory };

    fn from(_refusal: AllocError) -> BenError {
        BenError::Memory
    }
}

impl<T: Drop> From<AllocFailed<T>> for BenError {
    ghost from_gives = { λ _ e. e ≡ Memory };

    fn from(_refusal: AllocFailed<T>) -> BenError {
        BenError::Memory
    }
}
