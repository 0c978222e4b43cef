//! Why sorted paths are no list: one is there twice, or is a folder that another is inside.
ghost use Rattle.std.specs.Prelude.{◌≡◌, ◌<◌, IfNone, IsTrue, length, not};
ghost use Rattle.std.specs.List.Sorted.{IsSortedByKey};
ghost use Rattle.tor_tree.specs.FileList.{IsInPathOrder, paths_fault, paths_nest, paths_of, paths_repeat};
ghost use Rattle.tor_tree.specs.Path.{path_cmp};

use crate::lists::ListError;
use crate::paths::FilePath;

/// The first cause for which the paths of sorted entries are no list.
pub(crate) fn paths_fault<T>(entries: &[(FilePath, T)]) -> Option<ListError>
    requires some { 0 < length entries.now }
    requires sorted { IsSortedByKey (λ entry. entry.0) path_cmp entries.now }
    ensures value { result ≡ paths_fault (paths_of entries.now) }
    ensures rising { IfNone result (IsInPathOrder entries.now) }
{
    if !rises(entries) {
        return Some(ListError::Duplicate);
    }
    if nests(entries) {
        return Some(ListError::FileAndFolder);
    }
    None
}

/// Whether each path of sorted entries is below the next, so that none is there twice.
fn rises<T>(entries: &[(FilePath, T)]) -> bool
    requires { IsSortedByKey (λ entry. entry.0) path_cmp entries.now }
    ensures value { result ≡ not (paths_repeat (paths_of entries.now)) }
    ensures rising { IsTrue result → IsInPathOrder entries.now }
{
    entries.is_sorted_by(|entry, next| entry.0 < next.0)
}

/// Whether one of the paths, which strictly rise, is the beginning of another. The path after it is then such a one.
fn nests<T>(entries: &[(FilePath, T)]) -> bool
    requires { IsInPathOrder entries.now }
    ensures { result ≡ paths_nest (paths_of entries.now) }
{
    !entries.is_sorted_by(|entry, next| !next.0.names().starts_with(entry.0.names()))
}
