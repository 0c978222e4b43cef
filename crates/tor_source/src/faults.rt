//! Why the files below a folder are no list, and which faults of the system say that nothing is there.
ghost use Rattle.std.specs.Prelude.{◌≡◌, false};
ghost use Rattle.std.specs.IoError.{error_kind};
ghost use Rattle.tor_source.specs.Faults.{fault_of_kind, fault_of_name, is_absence, is_absence_at};
ghost use Rattle.tor_source.specs.declared.faults.ScanFault.TheVariants.{Memory};

use std::alloc::{AllocError, AllocFailed};
use std::io;
use thiserror::Error;
use tor_tree::NameError;

/// Why the files below a folder are no list: the first fault that was met.
#[derive(Debug, Drop, Error)]
pub enum ScanFault {
    #[error("F1 NotUtf8")]
    NotUtf8,
    /// Neither a file nor a folder; a symbolic link is not followed.
    #[error("F2 NotRegular")]
    NotRegular,
    /// A file's path has more than 64 names.
    #[error("F3 TooDeep")]
    TooDeep,
    /// The system refused to tell; or what was to be scanned is no folder.
    #[error("F4 System")]
    System,
    /// Memory was refused.
    #[error("out of memory")]
    Memory,
}

/// Whether a fault of this kind says that nothing is at a place: there is nothing, or the place leads through a file.
pub fn is_absence(kind: io::ErrorKind) -> bool
    ensures { result ≡ is_absence kind }
{
    matches!(kind, io::ErrorKind::NotFound | io::ErrorKind::NotADirectory)
}

/// The most bytes of a place that the system takes (Linux, PATH_MAX less the zero byte).
pub(crate) const MAX_PLACE: usize = 4095;

/// Whether a fault of this kind says that nothing is at this place. A name that is too long for the file system is one
/// that nothing has.
pub(crate) fn is_absence_at(place: &str, kind: io::ErrorKind) -> bool
    ensures value { result ≡ is_absence_at place.now kind }
    ensures more { result ≡ false → is_absence kind ≡ false }
{
    match kind {
        io::ErrorKind::InvalidFilename => place.len() <= MAX_PLACE,
        kind => is_absence(kind),
    }
}

impl From<AllocError> for ScanFault {
    ghost from_gives = { λ _ e. e ≡ Memory };

    fn from(_error: AllocError) -> ScanFault {
        ScanFault::Memory
    }
}

impl<T: Drop> From<AllocFailed<T>> for ScanFault {
    ghost from_gives = { λ _ e. e ≡ Memory };

    fn from(_failed: AllocFailed<T>) -> ScanFault {
        ScanFault::Memory
    }
}

impl From<io::Error> for ScanFault {
    ghost from_gives = { λ error fault. fault ≡ fault_of_kind (error_kind error) };

    fn from(error: io::Error) -> ScanFault {
        match error.kind() {
            io::ErrorKind::OutOfMemory => ScanFault::Memory,
            _ => ScanFault::System,
        }
    }
}

// A name that the system lists is not empty, and has no `/` and no zero byte.
impl From<NameError> for ScanFault {
    ghost from_gives = { λ error fault. fault ≡ fault_of_name error };

    fn from(error: NameError) -> ScanFault {
        match error {
            NameError::NotUtf8 => ScanFault::NotUtf8,
            NameError::Memory => ScanFault::Memory,
            _ => ScanFault::System,
        }
    }
}
