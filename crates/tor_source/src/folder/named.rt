//! Files that are named one by one, looked for below a folder.
ghost use Rattle.std.specs.Prelude.{◌≡◌, ◌≢◌, ◌≤◌, ◌++◌, ◌∷◌, ℕ, List, [], IfOk, OnOk, length, take};
ghost use Rattle.tor_source.specs.steps.Named.{HasLookedFor, IsSought};

use crate::faults::{ScanFault, is_absence};
use crate::folder::found::{FoundFiles, add_file, none_found, refuse_last};
use crate::folder::listed_file::ListedFile;
use crate::folder::open_folders::OpenFolders;
use crate::refused::{Refusal, kind_of};
use std::alloc::{AllocError, Global};
use std::io::{self, ErrorKind};
use std::os::fd::AsRawFd;
use std::rt::Files;
use tor_tree::{FilePath, MAX_NAMES, Name};

/// The most bytes of a name that Linux's own file systems have.
const MAX_NAME: usize = 255;

/// The folders that lead to the file that was looked for last, as far as they are known to be folders.
#[derive(Drop)]
pub(crate) struct LeadingFolders<R: Files> {
    names: Vec<Name>,
    open: OpenFolders<R>,
}

impl<R: Files> LeadingFolders<R>
where
    R::File: AsRawFd,
{
    /// At the top folder, before any file is looked for.
    pub(crate) fn at_top(
        rt: &R,
        alloc: Global,
        root: &str,
    ) -> Result<LeadingFolders<R>, ScanFault> {
        Ok(LeadingFolders {
            names: Vec::new(alloc),
            open: OpenFolders::at_top(rt, alloc, root)?,
        })
    }
}

/// What a path leads to, if a file is looked for.
#[derive(Drop)]
pub(crate) enum Sought {
    File(ListedFile),
    NotTaken(Refusal),
}

/// What is found of these files below a folder, which has to be at its place still when all were looked for. A folder
/// that leads to the file before, too, is not asked for again.
pub(crate) fn find<R: Files>(
    rt: &R,
    alloc: Global,
    root: &str,
    files: &[FilePath],
) -> Result<FoundFiles, ScanFault>
where
    R::File: AsRawFd,
    ensures { IfOk result (HasLookedFor files.now) }
{
    let mut leading = LeadingFolders::at_top(rt, alloc, root)?;
    find_from_top(rt, alloc, &mut leading, files)
}

// What is found of these files, looked for from the top folder on, which has to be at its place still when all were
// looked for.
fn find_from_top<R: Files>(
    rt: &R,
    alloc: Global,
    leading: &mut LeadingFolders<R>,
    files: &[FilePath],
) -> Result<FoundFiles, ScanFault>
where
    R::File: AsRawFd,
    ensures { IfOk result (HasLookedFor files.now) }
{
    let mut found = none_found(alloc);
    'files: for file in files {
        let sought = look_for(rt, alloc, leading, file.names())?;
        settle(alloc, sought, file, &mut found)?;
    }
    leading.open.judge_top(rt)?;
    Ok(found)
}

// Adds a file more, or what is refused, by what its path leads to.
fn settle(
    alloc: Global,
    sought: Sought,
    file: &FilePath,
    found: &mut FoundFiles,
) -> Result<(), AllocError>
    requires { IsSought (length file.now) sought }
    ensures { (files : List (List (List ℕ))) → HasLookedFor files found.old →
        OnOk result (HasLookedFor (files ++ file.now ∷ []) found.new) }
{
    match sought {
        Sought::File(listed) => add_file(alloc, listed, file.names(), found),
        Sought::NotTaken(refusal) => refuse_last(alloc, file.names(), refusal, found),
    }
}

/// What these names lead to. A fault of the system refuses it, but for want of memory.
pub(crate) fn look_for<R: Files>(
    rt: &R,
    alloc: Global,
    leading: &mut LeadingFolders<R>,
    names: &[Name],
) -> Result<Sought, ScanFault>
where
    R::File: AsRawFd,
    ensures { IfOk result (IsSought (length names.now)) }
{
    match sought_at(rt, alloc, leading, names) {
        Ok(sought) => Ok(sought),
        Err(fault) if matches!(fault.kind(), ErrorKind::OutOfMemory) => Err(ScanFault::Memory),
        Err(fault) if says_missing(names, fault.kind()) => Ok(Sought::NotTaken(Refusal::Missing)),
        Err(fault) => Ok(Sought::NotTaken(Refusal::System(fault))),
    }
}

// Whether a fault of this kind says that these names lead to nothing. A longer name than `MAX_NAME` that the
// system refuses is one that nothing has; but what stands at a place that is too long for it is not told.
fn says_missing(names: &[Name], kind: ErrorKind) -> bool {
    match kind {
        ErrorKind::InvalidFilename => names.iter().any(|name| name.as_str().len() > MAX_NAME),
        kind => is_absence(kind),
    }
}

fn sought_at<R: Files>(
    rt: &R,
    alloc: Global,
    leading: &mut LeadingFolders<R>,
    names: &[Name],
) -> io::Result<Sought>
where
    R::File: AsRawFd,
    ensures { IfOk result (IsSought (length names.now)) }
{
    if names.len() > MAX_NAMES {
        return Ok(Sought::NotTaken(Refusal::TooDeep));
    }
    let (folders, _) = names.split_at(names.len().saturating_sub(1));
    let known = common(&leading.names, folders);
    leading.names.truncate(known);
    leading.open.leave(rt, alloc, known);
    if let Some(refusal) = go_on(rt, alloc, leading, folders)? {
        return Ok(Sought::NotTaken(refusal));
    }
    let metadata = leading.open.metadata_of(rt, names)?;
    if !metadata.is_file() {
        return Ok(Sought::NotTaken(Refusal::NotRegular(kind_of(&metadata))));
    }
    Ok(Sought::File(ListedFile::of(&metadata)))
}

// How many names both begin with.
fn common(one: &[Name], other: &[Name]) -> usize
    ensures within { result ≤ length one.now }
    ensures same { take result one.now ≡ take result other.now }
{
    let most = one.len().min(other.len());
    for index in 0..most {
        if one[index] != other[index] {
            return index;
        }
    }
    most
}

// Goes into the folders that are not known yet; or why one of them is not gone into.
fn go_on<R: Files>(
    rt: &R,
    alloc: Global,
    leading: &mut LeadingFolders<R>,
    folders: &[Name],
) -> io::Result<Option<Refusal>>
where
    R::File: AsRawFd,
{
    for depth in leading.names.len()..folders.len() {
        let (above, _) = folders.split_at(depth + 1);
        let metadata = leading.open.metadata_of(rt, above)?;
        if metadata.is_file() {
            return Ok(Some(Refusal::Missing));
        }
        if !metadata.is_dir() {
            return Ok(Some(Refusal::NotRegular(kind_of(&metadata))));
        }
        leading.open.go_into(rt, alloc, above, &metadata)?;
        leading.names.push(folders[depth].copy(alloc)?)?;
    }
    Ok(None)
}
