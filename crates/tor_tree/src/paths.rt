//! Paths: the names from the top folder down to a file.
ghost use Rattle.std.specs.Prelude.{◌≡◌, ◌∷◌, Some, [], All, IfOk, MatchOption};
ghost use Rattle.std.proofs.Common.{refl};
ghost use Rattle.std.specs.Cmp.{partial_equiv_from_equiv, po};
ghost use Rattle.std.specs.Cmp.Lexicographic.{lists_equiv, lists_total, lists_ties, nat_list_eq_equiv};
ghost use Rattle.std.specs.Cmp.Lexicographic.{nat_list_cmp_total, texts_ties};
ghost use Rattle.tor_tree.specs.FileList.{paths_of};
ghost use Rattle.tor_tree.specs.Path.{IsFilePath, name_cmp, path_cmp, path_eq};

use crate::names::{Name, copy_names, each_is_name};
use std::alloc::{AllocError, Global};
use std::cmp::Ordering;
use std::marker::Model;

/// How many names a path has at the most if a torrent is made: a limit of this profile. A `FilePath` may have more.
pub const MAX_NAMES: usize = 64;

/// The names from the top folder down to a file, at least one. Contracts see the list of the names' bytes.
///
/// Paths are ordered name by name, names by their bytes, a beginning first; so `a/c` comes before `a-b`.
#[derive(Debug, Drop)]
pub struct FilePath {
    names: Vec<Name>,
}

impl Model for FilePath {
    ghost use Rattle.std.specs.Prelude.{ℕ, List};

    ghost Value = { List (List ℕ) };

    ghost use Rattle.tor_tree.specs.Path.{IsFilePath};

    ghost view = { λ path. path.names.items };

    ghost invariant = { λ path. IsFilePath path.names.items };
}

impl FilePath {
    /// The path of these names; none if there is no name.
    pub fn new(names: Vec<Name>) -> Option<FilePath>
        ensures { MatchOption result (names.items ≡ []) (λ path. (path ≡ names.items) × IsFilePath path) }
    {
        if names.is_empty() {
            return None;
        }
        each_is_name(&names);
        Some(FilePath { names })
    }

    /// The path of one name.
    pub fn of_name(alloc: Global, name: &Name) -> Result<FilePath, AllocError>
        ensures { IfOk result (λ path. path ≡ name.now ∷ []) }
    {
        let names = vec![in alloc; name.copy(alloc)?]?;
        each_is_name(&names);
        Ok(FilePath { names })
    }

    /// A copy of the path.
    pub fn copy(&self, alloc: Global) -> Result<FilePath, AllocError>
        ensures { IfOk result (λ path. path ≡ self.now) }
    {
        let names = copy_names(alloc, self.names.as_slice())?;
        Ok(FilePath { names })
    }

    /// At least one name, the top folder first.
    pub fn names(&self) -> &[Name]
        ensures value { result.now ≡ self.now }
        ensures lawful { IsFilePath self.now }
    {
        self.names.as_slice()
    }
}

/// The paths of files again.
pub fn copy_paths<T>(alloc: Global, files: &[(FilePath, T)]) -> Result<Vec<FilePath>, AllocError>
    ensures { IfOk result (λ copies. copies.items ≡ paths_of files.now) }
{
    let mut copies = Vec::with_capacity(alloc, files.len())?;
    for (path, _) in files {
        copies.push(path.copy(alloc)?)?;
    }
    Ok(copies)
}

/// Each path has names, all without fault. Of a slice contracts see lists of names alone: this says again what the type
/// keeps.
pub(crate) fn each_is_path<T>(entries: &[(FilePath, T)])
    ensures { All (λ entry. IsFilePath entry.0) entries.now }
{
    for (path, _) in entries {
        path.names();
    }
}

impl PartialEq for FilePath {
    ghost eq = { path_eq };

    ghost laws = { partial_equiv_from_equiv (lists_equiv nat_list_eq_equiv) };

    fn eq(&self, other: &FilePath) -> bool {
        self.names.as_slice() == other.names.as_slice()
    }
}

impl Eq for FilePath {
    ghost laws = { lists_equiv nat_list_eq_equiv };
}

impl Ord for FilePath {
    ghost cmp = { path_cmp };

    ghost total = { lists_total nat_list_cmp_total };

    ghost matches_partial_cmp = { λ x y. refl };

    ghost matches_eq = { lists_ties name_cmp texts_ties };

    fn cmp(&self, other: &FilePath) -> Ordering {
        self.names.as_slice().cmp(other.names.as_slice())
    }
}

impl PartialOrd for FilePath {
    ghost partial_cmp = { λ x y. Some (path_cmp x y) };

    ghost laws = { po (lists_total nat_list_cmp_total) (lists_ties name_cmp texts_ties) };

    fn partial_cmp(&self, other: &FilePath) -> Option<Ordering> {
        Some(self.cmp(other))
    }
}
