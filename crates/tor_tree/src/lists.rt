//! Lists of files: each path once, in order, with the file's length and letters.
ghost use Rattle.std.specs.Prelude.{◌≡◌, ◌⊎◌, IfOk, MatchOption, ◌<◌, ◌≤◌, ◌+◌, map};
ghost use Rattle.std.specs.Int.{next_multiple_of};
ghost use Rattle.tor_tree.specs.FileList.{lengths_of, lengths_too_large};
ghost use Rattle.tor_tree.specs.Letters.{no_letters};
ghost use Rattle.tor_tree.specs.declared.lists.ListError.TheVariants.{Memory};
ghost use Rattle.tor_merkle.specs.declared.TheConstants.{MAX_LENGTH};
ghost use Rattle.tor_tree.specs.declared.lists.TheConstants.{MAX_TOTAL, ROUNDING};

use crate::attr::Attr;
use crate::path_faults::paths_fault;
use crate::paths::{FilePath, each_is_path};
use std::alloc::{AllocError, AllocFailed, Global};
use std::marker::Model;
use thiserror::Error;
use tor_merkle::MAX_LENGTH;

/// The most bytes that all files may have, each rounded up to a multiple of `ROUNDING`.
pub const MAX_TOTAL: u64 = 1 << 62;

/// The largest piece length, to which the lengths of a list are rounded up before they are added.
pub const ROUNDING: u64 = 1 << 30;

/// Why files are no list for a torrent, in the order in which the causes are looked at.
#[derive(Debug, Drop, Error)]
pub enum ListError {
    #[error("L4 NoFiles")]
    NoFiles,
    #[error("L1 Duplicate")]
    Duplicate,
    /// One path is the beginning of another.
    #[error("L2 FileAndFolder")]
    FileAndFolder,
    /// A length is over `MAX_LENGTH`, or the rounded sum over `MAX_TOTAL`.
    #[error("L3 TooLarge")]
    TooLarge,
    /// Memory for the sort was refused.
    #[error("out of memory")]
    Memory,
}

impl From<AllocError> for ListError {
    ghost from_gives = { λ _ e. e ≡ Memory };

    fn from(_error: AllocError) -> ListError {
        ListError::Memory
    }
}

impl<T: Drop> From<AllocFailed<T>> for ListError {
    ghost from_gives = { λ _ e. e ≡ Memory };

    fn from(_failed: AllocFailed<T>) -> ListError {
        ListError::Memory
    }
}

/// Files in the order of their paths, each with its letters. Contracts see the list of the pairs of path and length,
/// and that of the letters.
#[derive(Debug, Drop)]
pub struct FileList {
    files: Vec<(FilePath, u64)>,
    attrs: Vec<Attr>,
}

impl Model for FileList {
    ghost use Rattle.tor_tree.specs.FileList.{IsLetteredList, LetteredFiles};

    ghost Value = { LetteredFiles };

    ghost view = { λ list. record { files = list.files.items; attrs = list.attrs.items } };

    ghost invariant = { λ list. IsLetteredList (record { files = list.files.items; attrs = list.attrs.items }) };
}

impl FileList {
    ghost use Rattle.std.specs.Prelude.{◌≡◌, ◌⊎◌, ◌<◌, Some, None, Err, [], IfOk, IfErr, OnOk, length, map};
    ghost use Rattle.std.specs.Prelude.{slice_index_or};
    ghost use Rattle.std.specs.List.Sorted.{IsPermutation};
    ghost use Rattle.tor_tree.specs.FileList.{list_fault, lengths_fault, lengths_of, paths_fault, paths_of, IsFileList};
    ghost use Rattle.tor_tree.specs.FileList.{IsInPathOrder, without_letters};
    ghost use Rattle.tor_tree.specs.Letters.{no_letters};
    ghost use Rattle.tor_tree.specs.declared.lists.ListError.TheVariants.{Memory, NoFiles};

    /// These files in the order of their paths, without letters.
    pub fn build(alloc: Global, mut files: Vec<(FilePath, u64)>) -> Result<FileList, ListError>
        ensures same_files { IfOk result (λ list. IsPermutation files.items list.files) }
        ensures no_letters { IfOk result (λ list. list.attrs ≡ map (λ file. no_letters) list.files) }
        ensures in_order { IfOk result (λ list. IsInPathOrder list.files) }
        ensures accepted { OnOk result (list_fault files.items ≡ None) }
        ensures refused { IfErr result (λ fault. (list_fault files.items ≡ Some fault) ⊎ (fault ≡ Memory)) }
        ensures no_files { (files.items ≡ []) → result ≡ Err NoFiles }
    {
        if files.is_empty() {
            return Err(ListError::NoFiles);
        }
        files.as_mut_slice().sort(alloc)?;
        if let Some(fault) = paths_fault(&files) {
            return Err(fault);
        }
        FileList::without_letters(alloc, files)
    }

    /// The list of files whose paths are in order and have no fault, without letters.
    pub(crate) fn without_letters(
        alloc: Global,
        files: Vec<(FilePath, u64)>,
    ) -> Result<FileList, ListError>
        requires in_order { IsInPathOrder files.items }
        requires judged { paths_fault (paths_of files.items) ≡ None }
        ensures same { IfOk result (λ list. list ≡ without_letters files.items) }
        ensures accepted { OnOk result (lengths_fault (lengths_of files.items) ≡ None) }
        ensures refused { IfErr result (λ fault.
            (lengths_fault (lengths_of files.items) ≡ Some fault) ⊎ (fault ≡ Memory)) }
    {
        let attrs = Attr::none_each(alloc, &files)?;
        FileList::of_sorted(files, attrs)
    }

    /// The list of files whose paths are in order and have no fault, with these letters.
    pub(crate) fn of_sorted(
        files: Vec<(FilePath, u64)>,
        attrs: Vec<Attr>,
    ) -> Result<FileList, ListError>
        requires in_order { IsInPathOrder files.items }
        requires judged { paths_fault (paths_of files.items) ≡ None }
        requires one_each { length attrs.items ≡ length files.items }
        ensures same { IfOk result (λ list. list ≡ record { files = files.items; attrs = attrs.items }) }
        ensures accepted { OnOk result (lengths_fault (lengths_of files.items) ≡ None) }
        ensures refused { IfErr result (λ fault. lengths_fault (lengths_of files.items) ≡ Some fault) }
    {
        if is_too_large(&files) {
            return Err(ListError::TooLarge);
        }
        each_is_path(&files);
        Ok(FileList { files, attrs })
    }

    /// The files of this list, with these letters.
    pub fn with_attrs(self, attrs: Vec<Attr>) -> FileList
        requires one_each { length attrs.items ≡ length self.files }
        ensures { result ≡ record { files = self.files; attrs = attrs.items } }
    {
        FileList {
            files: self.files,
            attrs,
        }
    }

    /// At least one pair of a path and a length, the paths strictly rising.
    pub fn files(&self) -> &[(FilePath, u64)]
        ensures value { result.now ≡ self.now.files }
        ensures lawful { IsFileList self.now.files }
    {
        self.files.as_slice()
    }

    /// The letters of each file.
    pub fn attrs(&self) -> &[Attr]
        ensures value { result.now ≡ self.now.attrs }
        ensures one_each { length self.now.attrs ≡ length self.now.files }
    {
        self.attrs.as_slice()
    }

    /// The letters of a file.
    pub fn attr(&self, i: usize) -> Attr
        requires { i < length self.now.files }
        ensures { result ≡ slice_index_or self.now.attrs i no_letters }
    {
        self.attrs[i]
    }
}

/// Whether a file is too long, or all of them together are.
fn is_too_large(files: &[(FilePath, u64)]) -> bool
    ensures { result ≡ lengths_too_large (lengths_of files.now) }
{
    let mut total = 0;
    for (_, length) in files {
        match with_length(total, *length) {
            Some(sum) => total = sum,
            None => return true,
        }
    }
    false
}

/// The total with one more length, rounded up; None if that length or the new total is too large.
pub fn with_length(total: u64, length: u64) -> Option<u64>
    requires { total ≤ MAX_TOTAL }
    ensures { MatchOption result
        ((MAX_LENGTH < length) ⊎ (MAX_TOTAL < total + next_multiple_of length ROUNDING))
        (λ sum. (sum ≡ total + next_multiple_of length ROUNDING) × (length ≤ MAX_LENGTH) × (sum ≤ MAX_TOTAL)) }
{
    if length > MAX_LENGTH {
        return None;
    }
    let sum = total + length.next_multiple_of(ROUNDING);
    (sum <= MAX_TOTAL).then_some(sum)
}
