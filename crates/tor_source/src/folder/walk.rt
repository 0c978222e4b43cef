//! The files below a folder, in the order of their paths, and what is refused there.
ghost use Rattle.std.specs.Prelude.{◌≡◌, ◌<◌, ◌∷◌, ◌++◌, ◌≢◌, ℕ};
ghost use Rattle.std.specs.Prelude.{List, [], IfOk, OnOk, length, map, vec_items};
ghost use Rattle.std.specs.List.Sorted.{IsStrictlySortedBy};
ghost use Rattle.tor_source.specs.steps.Order.{HasAdded, HasFound, IsAhead, IsEntered, IsStanding};
ghost use Rattle.tor_source.specs.Faults.{fault_of_name, fault_of_refusal};
ghost use Rattle.tor_tree.specs.declared.names.NameError.TheVariants.{Memory};
ghost use Rattle.tor_tree.specs.Path.{name_cmp};

use crate::faults::ScanFault;
use crate::folder::folder_names::rising_names;
use crate::folder::found::{FoundFiles, add_file, none_found, refuse, refuse_last};
use crate::folder::listed_file::ListedFile;
use crate::folder::open_folders::OpenFolders;
use crate::refused::{Refusal, kind_of};
use std::alloc::{AllocError, Global};
use std::io::{self, ErrorKind};
use std::os::fd::AsRawFd;
use std::rt::Files;
use tor_tree::{MAX_NAMES, Name, NameError};

/// A file or a folder that is still to be entered: how many names lead to it, and its own. The names are the first of
/// the path that was entered last.
#[derive(Drop)]
pub(crate) struct WaitingName {
    depth: usize,
    name: Vec<u8>,
}

/// What a path leads to.
#[derive(Drop)]
pub(crate) enum Standing {
    /// A folder with these names, which rise.
    Folder(Vec<Vec<u8>>),
    File(ListedFile),
    NotTaken(Refusal),
}

/// All files below a folder. A folder is listed whole, and its names are entered in the order of their bytes, each
/// folder where it is met. What is refused is passed over, or ends the walk if that is wanted.
pub(crate) fn walk<R: Files>(
    rt: &R,
    alloc: Global,
    root: &str,
    ends: bool,
) -> Result<FoundFiles, ScanFault>
where
    R::File: AsRawFd,
    ensures { IfOk result HasFound }
{
    let mut open = OpenFolders::at_top(rt, alloc, root)?;
    walk_from_top(rt, alloc, &mut open, ends)
}

/// All files below the top folder, which has to be at its place still when all is listed.
fn walk_from_top<R: Files>(
    rt: &R,
    alloc: Global,
    open: &mut OpenFolders<R>,
    ends: bool,
) -> Result<FoundFiles, ScanFault>
where
    R::File: AsRawFd,
    ensures { IfOk result HasFound }
{
    let names = rising_names(alloc, open.top_names(rt, alloc)?)?;
    let found = walk_on(rt, alloc, open, names, ends)?;
    if !ends || found.refused.is_empty() {
        open.judge_top(rt)?;
    }
    Ok(found)
}

/// All files in the top folder, which has these names, and below it.
fn walk_on<R: Files>(
    rt: &R,
    alloc: Global,
    open: &mut OpenFolders<R>,
    names: Vec<Vec<u8>>,
    ends: bool,
) -> Result<FoundFiles, ScanFault>
where
    R::File: AsRawFd,
    requires { IsStrictlySortedBy (λ name next. name_cmp name.items next.items) names.items }
    ensures { IfOk result HasFound }
{
    let mut found = none_found(alloc);
    let mut waiting = names_at_top(alloc, names)?;
    let mut last = Vec::new(alloc);
    for _ in 0..u64::MAX {
        let Some(entry) = waiting.pop() else {
            return Ok(found);
        };
        open.leave(rt, alloc, entry.depth);
        enter(rt, alloc, entry, open, &mut last, &mut waiting, &mut found)?;
        if ends && !found.refused.is_empty() {
            return Ok(found);
        }
    }
    Err(ScanFault::System)
}

/// The names in the folder itself, which wait.
fn names_at_top(alloc: Global, names: Vec<Vec<u8>>) -> Result<Vec<WaitingName>, AllocError>
    requires { IsStrictlySortedBy (λ name next. name_cmp name.items next.items) names.items }
    ensures { IfOk result (λ waiting. IsAhead [] [] waiting.items) }
{
    let mut waiting = Vec::new(alloc);
    add_names(alloc, names, &[], &mut waiting)?;
    Ok(waiting)
}

/// Adds a file to those that were found, or the names in a folder to those that wait, or what is neither to what is
/// refused. `last`, the path that was entered before, becomes its path, or that of its folder if its name is none.
fn enter<R: Files>(
    rt: &R,
    alloc: Global,
    entry: WaitingName,
    open: &mut OpenFolders<R>,
    last: &mut Vec<Name>,
    waiting: &mut Vec<WaitingName>,
    found: &mut FoundFiles,
) -> Result<(), ScanFault>
where
    R::File: AsRawFd,
    requires found { HasFound found.old }
    requires ahead { IsAhead found.old.paths.items last.old.items (waiting.old.items ++ entry ∷ []) }
    ensures found { OnOk result (HasFound found.new) }
    ensures ahead { OnOk result (IsAhead found.new.paths.items last.new.items waiting.new.items) }
{
    last.truncate(entry.depth);
    match Name::new(alloc, &entry.name) {
        Ok(name) => last.push(name)?,
        Err(NameError::Memory) => return Err(ScanFault::Memory),
        Err(fault) => return Ok(refuse(alloc, last, &entry.name, refusal_of_name(fault), found)?),
    }
    let standing = ask(rt, alloc, open, last)?;
    settle(alloc, standing, last, waiting, found)?;
    Ok(())
}

/// Adds a file, the names in a folder, or what is refused, by what these names lead to.
fn settle(
    alloc: Global,
    standing: Standing,
    names: &[Name],
    waiting: &mut Vec<WaitingName>,
    found: &mut FoundFiles,
) -> Result<(), AllocError>
    requires some { names.now ≢ [] }
    requires standing { IsStanding (length names.now) standing }
    requires found { HasFound found.old }
    requires entered { IsEntered found.old.paths.items names.now waiting.old.items }
    ensures found { OnOk result (HasFound found.new) }
    ensures ahead { OnOk result (IsAhead found.new.paths.items names.now waiting.new.items) }
{
    match standing {
        Standing::Folder(inside) => add_names(alloc, inside, names, waiting),
        Standing::File(listed) => add_file(alloc, listed, names, found),
        Standing::NotTaken(refusal) => refuse_last(alloc, names, refusal, found),
    }
}

/// Why these bytes are no name of a file. A name that the system lists is not empty, and has no `/` and no zero byte.
fn refusal_of_name(fault: NameError) -> Refusal
    ensures { fault ≢ Memory → fault_of_refusal result ≡ fault_of_name fault }
{
    match fault {
        NameError::NotUtf8 => Refusal::NotUtf8,
        _ => Refusal::System(io::Error::from(ErrorKind::InvalidFilename)),
    }
}

/// What the names lead to. A fault of the system refuses it, but for want of memory.
fn ask<R: Files>(
    rt: &R,
    alloc: Global,
    open: &mut OpenFolders<R>,
    names: &[Name],
) -> Result<Standing, ScanFault>
where
    R::File: AsRawFd,
    ensures { IfOk result (IsStanding (length names.now)) }
{
    match standing_of(rt, alloc, open, names) {
        Ok(standing) => Ok(standing),
        Err(fault) if matches!(fault.kind(), ErrorKind::OutOfMemory) => Err(ScanFault::Memory),
        Err(fault) => Ok(Standing::NotTaken(Refusal::System(fault))),
    }
}

fn standing_of<R: Files>(
    rt: &R,
    alloc: Global,
    open: &mut OpenFolders<R>,
    names: &[Name],
) -> io::Result<Standing>
where
    R::File: AsRawFd,
    ensures { IfOk result (IsStanding (length names.now)) }
{
    let metadata = open.metadata_of(rt, names)?;
    if metadata.is_dir() {
        let folder = open.enter(rt, alloc, names, &metadata)?;
        return Ok(Standing::Folder(rising_names(alloc, folder)?));
    }
    if !metadata.is_file() {
        return Ok(Standing::NotTaken(Refusal::NotRegular(kind_of(&metadata))));
    }
    if names.len() > MAX_NAMES {
        return Ok(Standing::NotTaken(Refusal::TooDeep));
    }
    Ok(Standing::File(ListedFile::of(&metadata)))
}

/// Adds the names in a folder, which the names `above` lead to; the first of them is entered next.
fn add_names(
    alloc: Global,
    names: Vec<Vec<u8>>,
    above: &[Name],
    waiting: &mut Vec<WaitingName>,
) -> Result<(), AllocError>
    requires { IsStrictlySortedBy (λ name next. name_cmp name.items next.items) names.items }
    ensures ahead { OnOk result ((found : List (List (List ℕ))) →
        IsEntered found above.now waiting.old.items → IsAhead found above.now waiting.new.items) }
    ensures all { OnOk result (HasAdded (map vec_items names.items) waiting.old.items waiting.new.items) }
{
    let mut names = names;
    while let Some(name) = names.pop() {
        let depth = above.len();
        waiting.push(WaitingName { depth, name })?;
    }
    Ok(())
}
