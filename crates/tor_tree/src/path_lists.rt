//! Lists of paths whose files' lengths are still to be asked.
ghost use Rattle.std.specs.Prelude.{◌≡◌, ◌<◌, All, IfOk, length, map, slice_index};
ghost use Rattle.std.specs.List.Sorted.{IsPermutation, IsSortedByKey};
ghost use Rattle.tor_tree.specs.Path.{path_cmp};
ghost use Rattle.tor_tree.specs.PathList.{with_indices};

use crate::lists::{FileList, ListError};
use crate::path_faults::paths_fault;
use crate::paths::{FilePath, each_is_path};
use std::alloc::{AllocError, Global};
use std::marker::Model;

/// Paths in order, each with its index among those that were handed in, from 0 on. Contracts see the list of the pairs
/// of path and index.
#[derive(Debug, Drop)]
pub struct PathList {
    entries: Vec<(FilePath, usize)>,
}

impl Model for PathList {
    ghost use Rattle.std.specs.Prelude.{ℕ, List};

    ghost Value = { List (List (List ℕ) × ℕ) };

    ghost use Rattle.tor_tree.specs.PathList.{IsPathList};

    ghost view = { λ list. list.entries.items };

    ghost invariant = { λ list. IsPathList list.entries.items };
}

impl PathList {
    ghost use Rattle.std.specs.Prelude.{◌≡◌, ◌⊎◌, Some, None, Err, [], IfOk, IfErr, OnOk, length, map, slice_index};
    ghost use Rattle.tor_tree.specs.FileList.{lengths_fault, paths_fault, without_letters};
    ghost use Rattle.tor_tree.specs.PathList.{AreIndexedPaths, IsPathList, indices_of};
    ghost use Rattle.tor_tree.specs.declared.lists.ListError.TheVariants.{Memory, NoFiles};

    /// These paths in order, each with its index. They are judged as those of a `FileList`.
    pub fn build(alloc: Global, paths: Vec<FilePath>) -> Result<PathList, ListError>
        ensures indexed { IfOk result (AreIndexedPaths paths.items) }
        ensures lawful { IfOk result IsPathList }
        ensures accepted { OnOk result (paths_fault paths.items ≡ None) }
        ensures refused { IfErr result (λ fault. (paths_fault paths.items ≡ Some fault) ⊎ (fault ≡ Memory)) }
        ensures no_files { (paths.items ≡ []) → result ≡ Err NoFiles }
    {
        if paths.is_empty() {
            return Err(ListError::NoFiles);
        }
        let entries = in_order(alloc, paths)?;
        if let Some(fault) = paths_fault(&entries) {
            return Err(fault);
        }
        each_is_path(&entries);
        Ok(PathList { entries })
    }

    /// At least one pair of a path and its index, the paths strictly rising.
    pub fn entries(&self) -> &[(FilePath, usize)]
        ensures value { result.now ≡ self.now }
        ensures lawful { IsPathList self.now }
    {
        self.entries.as_slice()
    }

    /// The list of the files of these paths, without letters, and the index of each. `lengths` has a length for each
    /// index.
    pub fn with_lengths(
        self,
        alloc: Global,
        lengths: &[u64],
    ) -> Result<(FileList, Vec<usize>), ListError>
        requires one_each { length lengths.now ≡ length self }
        ensures files { IfOk result (λ both.
            both.0 ≡ without_letters (map (λ entry. (entry.0, slice_index lengths.now entry.1)) self)) }
        ensures indices { IfOk result (λ both. both.1.items ≡ indices_of self) }
        ensures accepted { OnOk result (lengths_fault lengths.now ≡ None) }
        ensures refused { IfErr result (λ fault. (lengths_fault lengths.now ≡ Some fault) ⊎ (fault ≡ Memory)) }
    {
        let (files, indices) = split(alloc, self.entries, lengths)?;
        Ok((FileList::without_letters(alloc, files)?, indices))
    }
}

/// Each path with its index, sorted.
fn in_order(alloc: Global, paths: Vec<FilePath>) -> Result<Vec<(FilePath, usize)>, AllocError>
    ensures same { IfOk result (λ entries. IsPermutation (with_indices paths.items) entries.items) }
    ensures sorted { IfOk result (λ entries. IsSortedByKey (λ entry. entry.0) path_cmp entries.items) }
{
    let mut entries = with_indices(alloc, paths)?;
    entries.as_mut_slice().sort(alloc)?;
    Ok(entries)
}

/// Each path with its index.
fn with_indices(alloc: Global, paths: Vec<FilePath>) -> Result<Vec<(FilePath, usize)>, AllocError>
    ensures { IfOk result (λ entries. entries.items ≡ with_indices paths.items) }
{
    let indexed = paths.into_iter().enumerate();
    indexed.map(|(index, path)| (path, index)).collect(alloc)
}

/// The paths with the lengths at their indices, and those indices.
fn split(
    alloc: Global,
    entries: Vec<(FilePath, usize)>,
    lengths: &[u64],
) -> Result<(Vec<(FilePath, u64)>, Vec<usize>), AllocError>
    requires { All (λ entry. entry.1 < length lengths.now) entries.items }
    ensures files { IfOk result
        (λ both. both.0.items ≡ map (λ entry. (entry.0, slice_index lengths.now entry.1)) entries.items) }
    ensures indices { IfOk result (λ both. both.1.items ≡ map (λ entry. entry.1) entries.items) }
{
    let mut files = Vec::with_capacity(alloc, entries.len())?;
    let mut indices = Vec::with_capacity(alloc, entries.len())?;
    for (path, index) in entries {
        files.push((path, lengths[index]))?;
        indices.push(index)?;
    }
    Ok((files, indices))
}
