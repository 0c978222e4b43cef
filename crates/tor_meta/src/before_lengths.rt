//! Judging what is known before any length is asked: the head, and the paths.
ghost use Rattle.std.specs.Prelude.{◌≡◌, ◌⊎◌, ◌&&◌, not, Some, None, Err, IfOk, IfErr, OnOk, IsOk, MatchOption};
ghost use Rattle.std.specs.List.{list_any};
ghost use Rattle.tor_meta.specs.declared.refusals.ContentsError.{ContentsError};
ghost use Rattle.tor_meta.specs.Head.{settings_of};
ghost use Rattle.tor_meta.specs.Refusal.{is_long, is_name, is_only, ordered_refusal, paths_refusal, shape_refusal};
ghost use Rattle.tor_spec.specs.Settings.{is_aligned};
ghost use Rattle.tor_tree.specs.PathList.{AreIndexedPaths, IsPathList};
ghost use Rattle.tor_v1.specs.Reserved.{is_reserved};

use crate::head::Head;
use crate::refusals::ContentsError;
use std::alloc::Global;
use tor_merkle::is_piece_length;
use tor_tree::{FilePath, MAX_NAMES, PathList};
use tor_v1::is_reserved;

/// The paths in order, each with its index, if no torrent is refused for them or for the head.
pub(crate) fn judge_paths(
    alloc: Global,
    head: &Head,
    paths: Vec<FilePath>,
) -> Result<PathList, ContentsError>
    ensures indexed { IfOk result (AreIndexedPaths paths.items) }
    ensures lawful { IfOk result IsPathList }
    ensures accepted { OnOk result (paths_refusal (settings_of head.now) paths.items ≡ None) }
    // What needs no order of the paths is answered without any memory.
    ensures shape { (refusal : ContentsError) → shape_refusal (settings_of head.now) paths.items ≡ Some refusal →
        result ≡ Err refusal }
    ensures refused { IfErr result (λ refusal.
        (paths_refusal (settings_of head.now) paths.items ≡ Some refusal) ⊎ (refusal ≡ ContentsError.Memory)) }
{
    if let Some(refusal) = refusal_of_shape(head, &paths) {
        return Err(refusal);
    }
    sorted_paths(alloc, head, paths)
}

/// The paths in order, each with its index, or the first refusal for what needs their order; all else was judged
/// before.
pub(crate) fn sorted_paths(
    alloc: Global,
    head: &Head,
    paths: Vec<FilePath>,
) -> Result<PathList, ContentsError>
    ensures indexed { IfOk result (AreIndexedPaths paths.items) }
    ensures lawful { IfOk result IsPathList }
    ensures accepted { OnOk result (ordered_refusal (settings_of head.now) paths.items ≡ None) }
    ensures refused { IfErr result (λ refusal.
        (ordered_refusal (settings_of head.now) paths.items ≡ Some refusal) ⊎ (refusal ≡ ContentsError.Memory)) }
{
    let reserved = head.is_aligned() && any_reserved(&paths);
    let list = PathList::build(alloc, paths)?;
    if reserved {
        return Err(ContentsError::ReservedPad);
    }
    Ok(list)
}

/// The first refusal for what needs no order of the paths.
pub(crate) fn refusal_of_shape(head: &Head, paths: &[FilePath]) -> Option<ContentsError>
    ensures { result ≡ shape_refusal (settings_of head.now) paths.now }
{
    if !is_piece_length(head.piece_length) {
        return Some(ContentsError::PieceLength);
    }
    if any_long(paths) {
        return Some(ContentsError::Path);
    }
    if head.single && !is_only(head, paths) {
        return Some(ContentsError::SingleShape);
    }
    None
}

fn any_long(paths: &[FilePath]) -> bool
    ensures { result ≡ list_any is_long paths.now }
{
    paths.iter().any(|path| path.names().len() > MAX_NAMES)
}

fn any_reserved(paths: &[FilePath]) -> bool
    ensures { result ≡ list_any is_reserved paths.now }
{
    paths.iter().any(|path| is_reserved(path))
}

/// Whether there is one path, which is the torrent's name.
fn is_only(head: &Head, paths: &[FilePath]) -> bool
    ensures { result ≡ is_only head.now.name paths.now }
{
    match paths {
        [path] => is_name(path, head),
        _ => false,
    }
}

pub(crate) fn is_name(path: &FilePath, head: &Head) -> bool
    ensures { result ≡ is_name path.now head.now.name }
{
    match path.names() {
        [name] => *name == head.name,
        _ => false,
    }
}
