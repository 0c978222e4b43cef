//! A file of a file tree, and why an item is no file tree (BEP 52, "file tree").
ghost use Rattle.std.specs.Prelude.{◌≡◌};
ghost use Rattle.tor_tree.specs.KeyFault.{fault_of_key};
ghost use Rattle.tor_tree.specs.declared.tree_file.TreeFault.TheVariants.{Memory};

use crate::names::NameError;
use crate::paths::FilePath;
use std::alloc::{AllocError, AllocFailed};
use thiserror::Error;
use tor_merkle::Hash;

/// A file of a file tree (BEP 52, "file tree").
#[derive(Debug, Drop)]
pub struct TreeFile {
    pub path: FilePath,
    /// In bytes.
    pub length: u64,
    /// The root of the file's blocks (BEP 52, "pieces root"); an empty file has none.
    pub root: Option<Hash>,
    /// Whether `attr` is there, with letters or none (BEP 47).
    pub has_attr: bool,
    /// Whether it has an `x`: an executable file.
    pub exec: bool,
    /// Whether it has an `h`: a hidden file.
    pub hidden: bool,
}

/// Why an item is no file tree. The least number is answered, each looked for in the whole tree before the next.
#[derive(Debug, Drop, Error)]
pub enum TreeFault {
    /// A folder is no dictionary, a key is no name, or a file's properties are not of their shape.
    #[error("K1 Shape")]
    Shape,
    /// A length is negative.
    #[error("K2 Length")]
    Length,
    /// There is no file.
    #[error("K3 Empty")]
    Empty,
    /// As `ListError::TooLarge`.
    #[error("K4 TooLarge")]
    TooLarge,
    /// `attr` has an `l`.
    #[error("K5 Symlink")]
    Symlink,
    /// A folder is a file too.
    #[error("K6 Mixed")]
    Mixed,
    /// A file that is not empty has no `pieces root` of 32 bytes.
    #[error("K7 Root")]
    Root,
    #[error("out of memory")]
    Memory,
}

/// A key that is no name is a fault of the tree's shape.
impl From<NameError> for TreeFault {
    ghost from_gives = { fault_of_key };

    fn from(fault: NameError) -> TreeFault {
        match fault {
            NameError::Memory => TreeFault::Memory,
            _ => TreeFault::Shape,
        }
    }
}

impl From<AllocError> for TreeFault {
    ghost from_gives = { λ _ e. e ≡ Memory };

    fn from(_error: AllocError) -> TreeFault {
        TreeFault::Memory
    }
}

impl<T: Drop> From<AllocFailed<T>> for TreeFault {
    ghost from_gives = { λ _ e. e ≡ Memory };

    fn from(_failed: AllocFailed<T>) -> TreeFault {
        TreeFault::Memory
    }
}
