//! Why no torrent is made.
ghost use Rattle.std.specs.Prelude.{◌≡◌};
ghost use Rattle.tor_meta.specs.ListRefusal.{of_list_error};
ghost use Rattle.tor_meta.specs.declared.refusals.ContentsError.TheVariants.{Memory};

use std::alloc::{AllocError, AllocFailed};
use thiserror::Error;
use tor_tree::ListError;

/// Why no torrent is made of files with their contents; the first of these that holds, but that the faults of paths
/// come before `ReservedPad`, and that of lengths after it.
#[derive(Debug, Drop, Error)]
pub enum ContentsError {
    /// No power of two from 2^14 to 2^30.
    #[error("M1 PieceLength")]
    PieceLength,
    /// A path of more than 64 names.
    #[error("M4 Path")]
    Path,
    /// A single file is asked for, and there is not exactly one path that is the torrent's name.
    #[error("M5 SingleShape")]
    SingleShape,
    #[error(transparent)]
    List(ListError),
    /// In a hybrid of a folder some path begins with `.pad`.
    #[error("Y1 ReservedPad")]
    ReservedPad,
    /// Memory was refused.
    #[error("out of memory")]
    Memory,
}

impl From<ListError> for ContentsError {
    ghost from_gives = { λ fault e. e ≡ of_list_error fault };

    fn from(fault: ListError) -> ContentsError {
        match fault {
            ListError::Memory => ContentsError::Memory,
            fault => ContentsError::List(fault),
        }
    }
}

impl From<AllocError> for ContentsError {
    ghost from_gives = { λ _ e. e ≡ Memory };

    fn from(_error: AllocError) -> ContentsError {
        ContentsError::Memory
    }
}

impl<T: Drop> From<AllocFailed<T>> for ContentsError {
    ghost from_gives = { λ _ e. e ≡ Memory };

    fn from(_failed: AllocFailed<T>) -> ContentsError {
        ContentsError::Memory
    }
}
