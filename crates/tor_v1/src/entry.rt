//! An entry of the `files` list of a version 1 torrent.
ghost use Rattle.std.specs.Prelude.{◌≡◌, IfOk};
ghost use Rattle.tor_v1.specs.Entries.{file_entry};
ghost use Rattle.tor_v1.specs.Reserved.{is_reserved};

use std::alloc::{AllocError, Global};
use tor_tree::FilePath;

/// An entry of the `files` list (BEP 3, "info dictionary"): a file, or padding (BEP 47, "padding files").
#[derive(Debug, Drop)]
pub struct Entry {
    /// Of a file its own, of padding `.pad` and the length in base ten.
    pub path: FilePath,
    /// In bytes.
    pub length: u64,
    /// Whether it stands for zero bytes that are in no file.
    pub pad: bool,
    /// Whether `attr` has an `x`: an executable file (BEP 47, "attr"). Never of padding.
    pub exec: bool,
    /// Whether it has an `h`: a hidden file. Never of padding.
    pub hidden: bool,
}

/// Whether only padding may have this path: its first name is `.pad`.
pub fn is_reserved(path: &FilePath) -> bool
    ensures { result ≡ is_reserved path.now }
{
    match path.names() {
        [first, ..] => first.as_bytes() == b".pad".as_slice(),
        [] => false,
    }
}

/// The entry of a file without letters.
pub(crate) fn file_entry(alloc: Global, path: &FilePath, length: u64) -> Result<Entry, AllocError>
    ensures { IfOk result (λ entry. entry ≡ file_entry (path.now, length)) }
{
    Ok(Entry {
        path: path.copy(alloc)?,
        length,
        pad: false,
        exec: false,
        hidden: false,
    })
}
