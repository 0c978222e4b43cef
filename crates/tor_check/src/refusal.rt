//! Why bytes are no torrent.
ghost use Rattle.std.specs.Prelude.{◌≡◌};
ghost use Rattle.tor_check.specs.Refusals.{of_list_error, of_tree_fault};
ghost use Rattle.tor_check.specs.steps.Sides.{number_of};
ghost use Rattle.tor_check.specs.Valid.{of_bencode};
ghost use Rattle.tor_check.specs.declared.refusal.Refusal.TheVariants.{Memory};

use std::alloc::{AllocError, AllocFailed};
use std::error::Error;
use std::fmt;
use tor_bencode::{BenError, Fault};
use tor_tree::{ListError, TreeFault};

/// Why bytes are no torrent. The least number is answered, each looked for in the whole torrent before the next.
#[derive(Debug, Drop)]
pub enum Refusal {
    /// The bytes spell no tree: the first fault in reading order, and its offset in bytes.
    Bencode { fault: Fault, offset: usize },
    /// The root is no dictionary.
    RootShape,
    /// `info` is absent or no dictionary.
    InfoShape,
    /// `meta version` is there and is not the integer 2.
    MetaVersion,
    /// `piece length` is absent or no integer, or no length of pieces.
    PieceLength,
    /// `name` is absent or no byte string, or no name.
    Name,
    /// Both or neither of `length` and `files` are there.
    LengthAndFiles,
    /// What describes a file has not its shape.
    FileShape,
    /// A length is negative.
    FileLength,
    /// Two files have one path.
    Duplicate,
    /// The path of a file is the beginning of another's.
    FileAndFolder,
    /// There is no file.
    NoFiles,
    /// A length is too large, or all of them together are.
    TooLarge,
    /// An `attr` has an `l`.
    Symlink,
    /// `pieces` is not 20 bytes for each piece.
    PiecesLength,
    /// A folder of the file tree is a file too.
    MixedNode,
    /// A file that is not empty has no `pieces root` of 32 bytes.
    RootHash,
    /// `piece layers` is needed and absent, or is no dictionary.
    LayersAbsent,
    /// A file longer than a piece has no layer.
    LayerAbsent,
    /// A layer is not 32 bytes for each piece of its file.
    LayerLength,
    /// A layer has not the root of its file.
    LayerRoot,
    /// The two sides of a hybrid describe other files.
    FilesDiffer,
    /// A file of a hybrid does not begin at a piece of its own, or padding follows the last that is of another length.
    Alignment,
    Memory,
    /// The two sides of a hybrid both have an `attr` of a file, and an `x` or an `h` on one of them alone.
    AttrDiffer,
}

impl fmt::Display for Refusal {
    fn fmt<W: fmt::Write>(&self, f: &mut fmt::Formatter<W>) -> fmt::Result {
        f.write_str(text_of(self))?;
        match self {
            Refusal::Bencode { fault, offset } => write!(f, " {fault} at {offset}"),
            _ => Ok(()),
        }
    }
}

impl Error for Refusal {}

// The code and the name.
fn text_of(refusal: &Refusal) -> &'static str {
    match refusal {
        Refusal::Bencode { .. } => "V1 Bencode",
        Refusal::RootShape => "V2 RootShape",
        Refusal::InfoShape => "V3 InfoShape",
        Refusal::MetaVersion => "V4 MetaVersion",
        Refusal::PieceLength => "V5 PieceLength",
        Refusal::Name => "V6 Name",
        Refusal::LengthAndFiles => "V7 LengthAndFiles",
        Refusal::FileShape => "V8 FileShape",
        Refusal::FileLength => "V9 FileLength",
        Refusal::Duplicate => "V10 Duplicate",
        Refusal::FileAndFolder => "V11 FileAndFolder",
        Refusal::NoFiles => "V12 NoFiles",
        Refusal::TooLarge => "V13 TooLarge",
        Refusal::Symlink => "V14 Symlink",
        Refusal::PiecesLength => "V15 PiecesLength",
        Refusal::MixedNode => "V16 MixedNode",
        Refusal::RootHash => "V17 RootHash",
        Refusal::LayersAbsent => "V18 LayersAbsent",
        Refusal::LayerAbsent => "V19 LayerAbsent",
        Refusal::LayerLength => "V20 LayerLength",
        Refusal::LayerRoot => "V21 LayerRoot",
        Refusal::FilesDiffer => "V22 FilesDiffer",
        Refusal::Alignment => "V23 Alignment",
        Refusal::Memory => "V24 Memory",
        Refusal::AttrDiffer => "V25 AttrDiffer",
    }
}

impl From<AllocError> for Refusal {
    ghost from_gives = { λ _ e. e ≡ Memory };

    fn from(_error: AllocError) -> Refusal {
        Refusal::Memory
    }
}

impl<T: Drop> From<AllocFailed<T>> for Refusal {
    ghost from_gives = { λ _ e. e ≡ Memory };

    fn from(_failed: AllocFailed<T>) -> Refusal {
        Refusal::Memory
    }
}

/// What a fault of a list is for a torrent.
impl From<ListError> for Refusal {
    ghost from_gives = { λ fault refusal. refusal ≡ of_list_error fault };

    fn from(fault: ListError) -> Refusal {
        match fault {
            ListError::NoFiles => Refusal::NoFiles,
            ListError::Duplicate => Refusal::Duplicate,
            ListError::FileAndFolder => Refusal::FileAndFolder,
            ListError::TooLarge => Refusal::TooLarge,
            ListError::Memory => Refusal::Memory,
        }
    }
}

/// What a fault of a file tree is for a torrent.
impl From<TreeFault> for Refusal {
    ghost from_gives = { λ fault refusal. refusal ≡ of_tree_fault fault };

    fn from(fault: TreeFault) -> Refusal {
        match fault {
            TreeFault::Shape => Refusal::FileShape,
            TreeFault::Length => Refusal::FileLength,
            TreeFault::Empty => Refusal::NoFiles,
            TreeFault::TooLarge => Refusal::TooLarge,
            TreeFault::Symlink => Refusal::Symlink,
            TreeFault::Mixed => Refusal::MixedNode,
            TreeFault::Root => Refusal::RootHash,
            TreeFault::Memory => Refusal::Memory,
        }
    }
}

/// The number of a refusal: 1 of `V1`, and so on.
pub(crate) fn number_of(refusal: &Refusal) -> u32
    ensures { result ≡ number_of refusal.now }
{
    match refusal {
        Refusal::Bencode { .. } => 1,
        Refusal::RootShape => 2,
        Refusal::InfoShape => 3,
        Refusal::MetaVersion => 4,
        Refusal::PieceLength => 5,
        Refusal::Name => 6,
        Refusal::LengthAndFiles => 7,
        Refusal::FileShape => 8,
        Refusal::FileLength => 9,
        Refusal::Duplicate => 10,
        Refusal::FileAndFolder => 11,
        Refusal::NoFiles => 12,
        Refusal::TooLarge => 13,
        Refusal::Symlink => 14,
        Refusal::PiecesLength => 15,
        Refusal::MixedNode => 16,
        Refusal::RootHash => 17,
        Refusal::LayersAbsent => 18,
        Refusal::LayerAbsent => 19,
        Refusal::LayerLength => 20,
        Refusal::LayerRoot => 21,
        Refusal::FilesDiffer => 22,
        Refusal::Alignment => 23,
        Refusal::Memory => 24,
        Refusal::AttrDiffer => 25,
    }
}

/// What a fault of the bytes is for a torrent.
impl From<BenError> for Refusal {
    ghost from_gives = { of_bencode };

    fn from(error: BenError) -> Refusal {
        match error {
            BenError::Refused { fault, offset } => Refusal::Bencode { fault, offset },
            BenError::Memory => Refusal::Memory,
        }
    }
}
