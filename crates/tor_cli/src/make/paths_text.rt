//! The text of a list of files, read: paths, each ended by a zero byte, as `find -printf '%P\0'` writes them.
ghost use Rattle.std.specs.Prelude.{◌≡◌, List, ℕ, IfErr, IfOk, MatchResult};
ghost use Rattle.std.specs.List.{All};
ghost use Rattle.tor_tree.specs.Path.{IsFilePath};
ghost use Rattle.tor_cli.specs.make.PathsText.{IsNoList, of_name_error, paths_text};
ghost use Rattle.tor_cli.specs.declared.make.paths_text.PathsFault.TheVariants.{Memory};

use crate::make::path_text::{cut_at, path_in};
use std::alloc::{AllocError, AllocFailed, Global};
use tor_tree::{FilePath, NameError};

/// Why bytes are no list of files.
#[derive(Drop)]
pub enum PathsFault {
    /// A part of a path is no name.
    Name(NameError),
    /// The last path is not ended by a zero byte, so that it may have been cut.
    Unended,
    Memory,
}

impl From<NameError> for PathsFault {
    ghost from_gives = { λ fault e. e ≡ of_name_error fault };

    fn from(fault: NameError) -> PathsFault {
        match fault {
            NameError::Memory => PathsFault::Memory,
            fault => PathsFault::Name(fault),
        }
    }
}

impl From<AllocError> for PathsFault {
    ghost from_gives = { λ _ e. e ≡ Memory };

    fn from(_error: AllocError) -> PathsFault {
        PathsFault::Memory
    }
}

impl<T: Drop> From<AllocFailed<T>> for PathsFault {
    ghost from_gives = { λ _ e. e ≡ Memory };

    fn from(_failed: AllocFailed<T>) -> PathsFault {
        PathsFault::Memory
    }
}

/// The paths of which this is the text, in its order, or why the first that is none is none.
pub fn read_paths(alloc: Global, text: &[u8]) -> Result<Vec<FilePath>, PathsFault>
    ensures written { IfOk result (λ paths. All IsFilePath paths.items × (paths_text paths.items ≡ text.now)) }
    ensures read { (paths : List (List (List ℕ))) → All IsFilePath paths → paths_text paths ≡ text.now
        → MatchResult result (λ read. read.items ≡ paths) (λ fault. fault ≡ Memory) }
    ensures refused { IfErr result (IsNoList text.now) }
{
    let mut paths = Vec::new(alloc);
    let mut rest = text;
    'paths: while let Some((path, more)) = cut_at(0, rest) {
        paths.push(path_in(alloc, path)?)?;
        rest = more;
    }
    if !rest.is_empty() {
        return Err(PathsFault::Unended);
    }
    Ok(paths)
}
