//! What the tests share: contents, and lists of files; and which values other threads may have.

use std::alloc::{AllocError, Global};
use std::fmt::Display;
use tor_merkle::{Feed, Stack};
use tor_plan::Plan;
use tor_tree::{FileList, FilePath, Kind, Name};
use tor_v1::PieceSums;

fn add_counted(bytes: &mut Vec<u8>, length: usize) -> Result<(), AllocError> {
    for i in 0..length {
        bytes.push((i % 251) as u8)?;
    }
    Ok(())
}

// A content whose byte i is i % 251, so that no eight messages in a row are alike.
pub(crate) fn content(alloc: Global, length: usize) -> Result<Vec<u8>, AllocError> {
    let mut bytes = Vec::new(alloc);
    add_counted(&mut bytes, length)?;
    Ok(bytes)
}

// Paths and lengths of files.
pub(crate) type Files = &'static [(&'static str, u64)];

// A name. That a text is none, which none of the tables has, is told as want of memory.
fn name(alloc: Global, text: &str) -> Result<Name, AllocError> {
    Name::new(alloc, text.as_bytes()).ok().ok_or(AllocError)
}

// Adds an item, if it was made.
pub(crate) fn add<T: Drop>(
    items: &mut Vec<T>,
    made: Result<T, AllocError>,
) -> Result<(), AllocError> {
    items.push(made?)?;
    Ok(())
}

fn add_names(alloc: Global, text: &str, names: &mut Vec<Name>) -> Result<(), AllocError> {
    for part in text.split('/') {
        add(names, name(alloc, part))?;
    }
    Ok(())
}

// The path whose names are the parts of a text between its slashes.
pub(crate) fn path(alloc: Global, text: &str) -> Result<FilePath, AllocError> {
    let mut names = Vec::new(alloc);
    add_names(alloc, text, &mut names)?;
    FilePath::new(names).ok_or(AllocError)
}

fn add_paths(alloc: Global, texts: &[&str], paths: &mut Vec<FilePath>) -> Result<(), AllocError> {
    for text in texts {
        add(paths, path(alloc, text))?;
    }
    Ok(())
}

pub(crate) fn paths_of(alloc: Global, texts: &[&str]) -> Result<Vec<FilePath>, AllocError> {
    let mut paths = Vec::new(alloc);
    add_paths(alloc, texts, &mut paths)?;
    Ok(paths)
}

// A list of files. That they make none, as in none of the tables, is told as want of memory.
fn list(alloc: Global, files: Vec<(FilePath, u64)>) -> Result<FileList, AllocError> {
    FileList::build(alloc, files).ok().ok_or(AllocError)
}

fn add_files(
    alloc: Global,
    rows: &[(&str, u64)],
    files: &mut Vec<(FilePath, u64)>,
) -> Result<(), AllocError> {
    for (text, length) in rows {
        files.push((path(alloc, text)?, *length))?;
    }
    Ok(())
}

pub(crate) fn list_of(alloc: Global, rows: &[(&str, u64)]) -> Result<FileList, AllocError> {
    let mut files = Vec::new(alloc);
    add_files(alloc, rows, &mut files)?;
    list(alloc, files)
}

// A plan, if its piece length and span are allowed.
pub(crate) fn plan_of(
    alloc: Global,
    list: &FileList,
    kind: Kind,
    piece_length: u64,
    span: u32,
) -> Result<Plan, AllocError> {
    if !piece_length.is_power_of_two() || piece_length < 16384 || piece_length > 1 << 30 {
        return Err(AllocError);
    }
    if !span.is_power_of_two() || span < 1 || span > 1024 {
        return Err(AllocError);
    }
    Plan::new(alloc, list, kind, piece_length, span)
}

// The path of the file at an index of a thousand, after a text.
fn numbered_path(alloc: Global, front: &str, index: u64) -> Result<FilePath, AllocError> {
    let text = format!(in alloc; "{front}{index:03}")?;
    path(alloc, &text)
}

fn add_thousand(
    alloc: Global,
    front: &str,
    step: u32,
    files: &mut Vec<(FilePath, u64)>,
) -> Result<(), AllocError> {
    for index in 0..1000u64 {
        files.push((numbered_path(alloc, front, index)?, index * u64::from(step)))?;
    }
    Ok(())
}

// A thousand files, of which file i has i times so many bytes.
pub(crate) fn thousand_files(
    alloc: Global,
    front: &str,
    step: u32,
) -> Result<FileList, AllocError> {
    let mut files = Vec::new(alloc);
    add_thousand(alloc, front, step, &mut files)?;
    list(alloc, files)
}

// Whether there is a text, and this.
pub(crate) fn is(text: Result<String, AllocError>, wanted: &str) -> bool {
    match text {
        Ok(text) => text.as_str() == wanted,
        Err(_) => false,
    }
}

// Whether a value is written so.
pub(crate) fn is_shown<T: Display>(alloc: Global, value: &T, wanted: &str) -> bool {
    is(format!(in alloc; "{value}"), wanted)
}

// Whether nothing was made, and the fault is written so.
pub(crate) fn is_refusal<T: Drop, E: Drop + Display>(
    alloc: Global,
    made: Result<T, E>,
    wanted: &str,
) -> bool {
    match made {
        Ok(_) => false,
        Err(fault) => is_shown(alloc, &fault, wanted),
    }
}

// Whether there is a value, and it is equal to this.
pub(crate) fn is_equal<T: PartialEq + Drop, E: Drop>(made: Result<T, E>, wanted: &T) -> bool {
    match made {
        Ok(value) => value == *wanted,
        Err(_) => false,
    }
}

// Whether a path has this text.
pub(crate) fn is_path(alloc: Global, found: &FilePath, text: &str) -> bool {
    is_equal(path(alloc, text), found)
}

// Whether there are items, and these.
pub(crate) fn are<T: PartialEq + Drop, E: Drop>(made: Result<Vec<T>, E>, wanted: &[T]) -> bool {
    match made {
        Ok(items) => items.as_slice() == wanted,
        Err(_) => false,
    }
}

// Whether a value of the type may go to another thread.
fn sendable<T: Send>() {}

// Whether threads may share it too.
fn shareable<T: Send + Sync>() {}

#[test]
fn values_may_go_to_other_threads() {
    sendable::<Feed>();
    sendable::<Stack>();
    sendable::<PieceSums>();
    shareable::<Plan>();
}
