//! Why there are no sums.
ghost use Rattle.std.specs.Prelude.{◌≡◌};
ghost use Rattle.tor_sums.specs.declared.errors.EngineError.TheVariants.{Resources};

use std::alloc::{AllocError, AllocFailed};
use thiserror::Error;

/// Why files have no sums. A file is named by its index in the plan; of readers, or in a torrent that is made, by that
/// of its reader or path.
#[derive(Debug, Drop, Error)]
pub enum EngineError<F> {
    /// The source had a fault: for the length of the file, or at its byte `start`.
    #[error("E1 Read")]
    Read {
        file: u64,
        start: Option<u64>,
        fault: F,
    },
    /// The file is not, or did not stay, as long as the plan says, or as was told.
    #[error("E2 Changed")]
    Changed {
        file: u64,
    },
    #[error("E3 Missing")]
    Missing {
        file: u64,
    },
    /// Memory was refused.
    #[error("E4 Resources")]
    Resources,
    /// A stream had more than 2^50 bytes.
    #[error("E5 StreamTooLong")]
    StreamTooLong {
        file: u64,
    },
}

impl<F> From<AllocError> for EngineError<F> {
    ghost from_gives = { λ _ e. e ≡ Resources };

    fn from(_error: AllocError) -> EngineError<F> {
        EngineError::Resources
    }
}

impl<F, T: Drop> From<AllocFailed<T>> for EngineError<F> {
    ghost from_gives = { λ _ e. e ≡ Resources };

    fn from(_failed: AllocFailed<T>) -> EngineError<F> {
        EngineError::Resources
    }
}
