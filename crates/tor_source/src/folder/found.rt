//! The files that were found below a folder, and what was refused there.
ghost use Rattle.std.specs.Prelude.{◌≡◌, ◌≢◌, [], OnOk, vec_len};
ghost use Rattle.tor_source.specs.Places.{names_bytes, path_bytes};
ghost use Rattle.tor_source.specs.steps.Order.{HasRefused, HasTaken};

use crate::folder::listed_file::{ListedFile, ListedFiles};
use crate::refused::{Refusal, Refused, names_bytes, path_bytes};
use std::alloc::{AllocError, Global};
use tor_tree::{FilePath, Name, copy_names};

/// Files that were found: for each its path below the folder, and what was told of it. And what was refused, in the
/// order in which it was met.
#[derive(Drop)]
pub(crate) struct FoundFiles {
    pub(crate) paths: Vec<FilePath>,
    pub(crate) listed: ListedFiles,
    pub(crate) refused: Vec<Refused>,
}

/// Nothing was found yet.
pub(crate) fn none_found(alloc: Global) -> FoundFiles
    ensures paths { result.paths.items ≡ [] }
    ensures listed { vec_len result.listed.lengths ≡ 0 }
    ensures refused { result.refused.items ≡ [] }
{
    FoundFiles {
        paths: Vec::new(alloc),
        listed: ListedFiles::none(alloc),
        refused: Vec::new(alloc),
    }
}

/// Adds the file which these names lead to.
pub(crate) fn add_file(
    alloc: Global,
    listed: ListedFile,
    names: &[Name],
    found: &mut FoundFiles,
) -> Result<(), AllocError>
    requires { names.now ≢ [] }
    ensures { OnOk result (HasTaken found.old names.now found.new) }
{
    let Some(path) = FilePath::new(copy_names(alloc, names)?) else {
        unreachable!();
    };
    found.paths.push(path)?;
    found.listed.push(listed)?;
    Ok(())
}

/// Adds what is refused: the names above lead to its folder, and this is its own.
pub(crate) fn refuse(
    alloc: Global,
    above: &[Name],
    name: &[u8],
    refusal: Refusal,
    found: &mut FoundFiles,
) -> Result<(), AllocError>
    ensures { OnOk result (HasRefused found.old (path_bytes above.now name.now) refusal found.new) }
{
    let path = path_bytes(alloc, above, name)?;
    found.refused.push(Refused { path, refusal })?;
    Ok(())
}

/// Adds what is refused, to which these names lead.
pub(crate) fn refuse_last(
    alloc: Global,
    names: &[Name],
    refusal: Refusal,
    found: &mut FoundFiles,
) -> Result<(), AllocError>
    ensures { OnOk result (HasRefused found.old (names_bytes names.now) refusal found.new) }
{
    let path = names_bytes(alloc, names)?;
    found.refused.push(Refused { path, refusal })?;
    Ok(())
}
