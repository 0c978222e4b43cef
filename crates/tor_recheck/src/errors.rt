//! Why it is not answered which pieces are there and right.
ghost use Rattle.std.specs.Prelude.{◌≡◌};
ghost use Rattle.tor_recheck.specs.Recheck.{of_engine_error};
ghost use Rattle.tor_recheck.specs.declared.errors.RecheckError.TheVariants.{Resources};

use std::alloc::{AllocError, AllocFailed};
use thiserror::Error;
use tor_engine::EngineError;

/// Why it is not answered which pieces are there and right. A file is named by its index among the torrent's files,
/// padding not counted.
#[derive(Debug, Drop, Error)]
pub enum RecheckError<F> {
    /// The source had a fault: for the length of the file, or at its byte `start`.
    #[error("C1 Read")]
    Read {
        file: u64,
        start: Option<u64>,
        fault: F,
    },
    /// The file did not stay as long as was told, or came, or went.
    #[error("C2 Changed")]
    Changed {
        file: u64,
    },
    /// Memory was refused.
    #[error("C3 Resources")]
    Resources,
    /// No worker, or more than 64.
    #[error("C4 Workers")]
    Workers,
}

impl<F> From<EngineError<F>> for RecheckError<F> {
    ghost from_gives = { λ error e. e ≡ of_engine_error error };

    fn from(error: EngineError<F>) -> RecheckError<F> {
        match error {
            EngineError::Read { file, start, fault } => RecheckError::Read { file, start, fault },
            EngineError::Changed { file }
            | EngineError::Missing { file }
            | EngineError::StreamTooLong { file } => RecheckError::Changed { file },
            EngineError::Resources => RecheckError::Resources,
        }
    }
}

impl<F> From<AllocError> for RecheckError<F> {
    ghost from_gives = { λ _ e. e ≡ Resources };

    fn from(_error: AllocError) -> RecheckError<F> {
        RecheckError::Resources
    }
}

impl<F, T: Drop> From<AllocFailed<T>> for RecheckError<F> {
    ghost from_gives = { λ _ e. e ≡ Resources };

    fn from(_failed: AllocFailed<T>) -> RecheckError<F> {
        RecheckError::Resources
    }
}
