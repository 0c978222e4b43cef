//! Lists of files that are handed in with their letters.
ghost use Rattle.std.specs.Prelude.{◌≡◌, IfOk, map};

use crate::attr::Attr;
use crate::lists::{FileList, ListError};
use crate::path_faults::paths_fault;
use crate::paths::FilePath;
use std::alloc::{AllocError, Global};

impl FileList {
    ghost use Rattle.std.specs.Prelude.{◌≡◌, ◌⊎◌, Some, None, Err, [], IfOk, IfErr, OnOk, map};
    ghost use Rattle.std.specs.List.Sorted.{IsPermutation};
    ghost use Rattle.tor_tree.specs.FileList.{IsInPathOrder, files_with_attrs, list_fault};
    ghost use Rattle.tor_tree.specs.declared.lists.ListError.TheVariants.{Memory, NoFiles};

    /// These files in the order of their paths, each with its letters. They are judged as by `build`.
    pub fn build_with(
        alloc: Global,
        files: Vec<(FilePath, u64, Attr)>,
    ) -> Result<FileList, ListError>
        ensures same_files { IfOk result
            (λ list. IsPermutation (map (λ file. ((file.0, file.1), file.2)) files.items) (files_with_attrs list)) }
        ensures in_order { IfOk result (λ list. IsInPathOrder list.files) }
        ensures accepted { OnOk result (list_fault (map (λ file. (file.0, file.1)) files.items) ≡ None) }
        ensures refused { IfErr result (λ fault.
            (list_fault (map (λ file. (file.0, file.1)) files.items) ≡ Some fault) ⊎ (fault ≡ Memory)) }
        ensures no_files { (files.items ≡ []) → result ≡ Err NoFiles }
    {
        if files.is_empty() {
            return Err(ListError::NoFiles);
        }
        let mut entries = by_path(alloc, files)?;
        entries.as_mut_slice().sort(alloc)?;
        if let Some(fault) = paths_fault(&entries) {
            return Err(fault);
        }
        let (files, attrs) = apart(alloc, entries)?;
        FileList::of_sorted(files, attrs)
    }
}

/// Each file as a pair of its path and what goes with it.
fn by_path(
    alloc: Global,
    files: Vec<(FilePath, u64, Attr)>,
) -> Result<Vec<(FilePath, (u64, Attr))>, AllocError>
    ensures { IfOk result (λ entries. entries.items ≡ map (λ file. (file.0, (file.1, file.2))) files.items) }
{
    let mut entries = Vec::with_capacity(alloc, files.len())?;
    for (path, length, attr) in files {
        entries.push((path, (length, attr)))?;
    }
    Ok(entries)
}

/// The files, and the letters of each.
fn apart(
    alloc: Global,
    entries: Vec<(FilePath, (u64, Attr))>,
) -> Result<(Vec<(FilePath, u64)>, Vec<Attr>), AllocError>
    ensures files { IfOk result (λ both. both.0.items ≡ map (λ entry. (entry.0, entry.1.0)) entries.items) }
    ensures attrs { IfOk result (λ both. both.1.items ≡ map (λ entry. entry.1.1) entries.items) }
{
    let mut files = Vec::with_capacity(alloc, entries.len())?;
    let mut attrs = Vec::with_capacity(alloc, entries.len())?;
    for (path, (length, attr)) in entries {
        files.push((path, length))?;
        attrs.push(attr)?;
    }
    Ok((files, attrs))
}
