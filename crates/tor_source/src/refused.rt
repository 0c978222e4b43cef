//! What is not taken of a folder, and why.
ghost use Rattle.std.specs.Prelude.{◌≡◌, ◌++◌, IfOk};
ghost use Rattle.std.specs.Fs.{IsDir, IsSymlink, file_type};
ghost use Rattle.tor_source.specs.declared.refused.OtherKind.TheVariants.{Folder, Link};
ghost use Rattle.tor_source.specs.Faults.{fault_of_refusal};
ghost use Rattle.tor_source.specs.Places.{names_bytes, path_bytes};

use crate::faults::ScanFault;
use std::alloc::{AllocError, Global};
use std::fs::Metadata;
use std::io;
use std::os::unix::fs::FileTypeExt;
use tor_tree::Name;

/// What stands where a regular file or a folder could be taken, or a regular file alone.
#[derive(Clone, Copy, Debug)]
pub enum OtherKind {
    /// A symbolic link, which is not followed.
    Link,
    Fifo,
    Socket,
    BlockDevice,
    CharacterDevice,
    /// A folder, where a file was named.
    Folder,
    /// The system tells of none of these.
    Unknown,
}

/// Why something in a folder is not taken.
#[derive(Debug, Drop)]
pub enum Refusal {
    /// Its name is no text: F1.
    NotUtf8,
    /// It is no regular file: F2.
    NotRegular(OtherKind),
    /// Its path has more than 64 names: F3.
    TooDeep,
    /// A file that was named is not there, or its path leads through a regular file.
    Missing,
    /// The system refused to tell: F4.
    System(io::Error),
}

impl Refusal {
    /// The fault of a scan that meets it.
    pub fn fault(&self) -> ScanFault
        ensures { result ≡ fault_of_refusal self.now }
    {
        match self {
            Refusal::NotUtf8 => ScanFault::NotUtf8,
            Refusal::NotRegular(_) => ScanFault::NotRegular,
            Refusal::TooDeep => ScanFault::TooDeep,
            Refusal::Missing | Refusal::System(_) => ScanFault::System,
        }
    }
}

/// Something in a folder that is not taken.
#[derive(Debug, Drop)]
pub struct Refused {
    /// The names that lead to it below the folder, as the system has them, with a slash between two.
    pub path: Vec<u8>,
    pub refusal: Refusal,
}

/// What the system tells of something that is no regular file.
pub(crate) fn kind_of(metadata: &Metadata) -> OtherKind
    ensures link { IsSymlink (file_type metadata.now) → result ≡ Link }
    ensures folder { IsDir (file_type metadata.now) → result ≡ Folder }
{
    let kind = metadata.file_type();
    if kind.is_symlink() {
        return OtherKind::Link;
    }
    if kind.is_dir() {
        return OtherKind::Folder;
    }
    match (kind.is_fifo(), kind.is_socket(), kind.is_block_device()) {
        (true, _, _) => OtherKind::Fifo,
        (_, true, _) => OtherKind::Socket,
        (_, _, true) => OtherKind::BlockDevice,
        _ if kind.is_char_device() => OtherKind::CharacterDevice,
        _ => OtherKind::Unknown,
    }
}

/// The bytes of a path: the names above, each with a slash behind it, and a name.
pub(crate) fn path_bytes(alloc: Global, above: &[Name], name: &[u8]) -> Result<Vec<u8>, AllocError>
    ensures { IfOk result (λ path. path.items ≡ path_bytes above.now name.now) }
{
    let mut path = Vec::new(alloc);
    for folder in above {
        path.extend_from_slice(folder.as_bytes())?;
        path.push(b'/')?;
    }
    path.extend_from_slice(name)?;
    Ok(path)
}

/// The bytes of a path with these names, with a slash between two.
pub(crate) fn names_bytes(alloc: Global, names: &[Name]) -> Result<Vec<u8>, AllocError>
    ensures { IfOk result (λ path. path.items ≡ names_bytes names.now) }
{
    let (above, last) = names.split_at(names.len().saturating_sub(1));
    let name: &[u8] = match last.first() {
        Some(name) => name.as_bytes(),
        None => b"",
    };
    path_bytes(alloc, above, name)
}
