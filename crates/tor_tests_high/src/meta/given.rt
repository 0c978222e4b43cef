//! What the tests share: tables of torrents, and files that are given as a text, as `a=ab b=*9 c`.

use crate::check::telling::add;
use std::alloc::{AllocError, Global};
use tor_source::MemSource;
use tor_tree::{FilePath, Kind, Name};

/// A kind, whether it is of one file, the piece length, and the name.
pub(crate) type Shape = (Kind, bool, u64, &'static str);

/// What is asked for, the files given, and their torrent, or why there is none.
pub(crate) type Row = (Shape, &'static str, &'static [u8]);

/// A name. That a text is none, which none of the tables has, is told as want of memory.
pub(crate) fn name(alloc: Global, text: &str) -> Result<Name, AllocError> {
    Name::new(alloc, text.as_bytes()).ok().ok_or(AllocError)
}

fn add_names(alloc: Global, text: &str, names: &mut Vec<Name>) -> Result<(), AllocError> {
    for part in text.split('/') {
        add(names, name(alloc, part))?;
    }
    Ok(())
}

/// The path whose names are the parts of a text between its slashes.
fn path(alloc: Global, text: &str) -> Result<FilePath, AllocError> {
    let mut names = Vec::new(alloc);
    add_names(alloc, text, &mut names)?;
    FilePath::new(names).ok_or(AllocError)
}

/// The path of a file, and its content if it is there.
fn parts(given: &str) -> (&str, Option<&str>) {
    match given.split_once('=') {
        Some((path, content)) => (path, Some(content)),
        None => (given, None),
    }
}

pub(crate) fn zeros(alloc: Global, length: usize) -> Result<Vec<u8>, AllocError> {
    vec![in alloc; 0; length]
}

/// The bytes that a text stands for: `*9` for nine zeros, else its own.
fn content(alloc: Global, text: &str) -> Result<Vec<u8>, AllocError> {
    if let Some(digits) = text.strip_prefix('*') {
        return zeros(alloc, digits.parse::<usize>().unwrap_or(0));
    }
    Vec::from_slice(alloc, text.as_bytes())
}

fn add_paths(alloc: Global, given: &str, paths: &mut Vec<FilePath>) -> Result<(), AllocError> {
    for text in given.split_whitespace() {
        let (text, _) = parts(text);
        add(paths, path(alloc, text))?;
    }
    Ok(())
}

/// The paths of files given with spaces between.
pub(crate) fn paths(alloc: Global, given: &str) -> Result<Vec<FilePath>, AllocError> {
    let mut paths = Vec::new(alloc);
    add_paths(alloc, given, &mut paths)?;
    Ok(paths)
}

fn content_there(alloc: Global, given: &str) -> Result<Option<Vec<u8>>, AllocError> {
    match parts(given).1 {
        Some(text) => Ok(Some(content(alloc, text)?)),
        None => Ok(None),
    }
}

fn add_contents(
    alloc: Global,
    given: &str,
    contents: &mut Vec<Option<Vec<u8>>>,
) -> Result<(), AllocError> {
    for text in given.split_whitespace() {
        add(contents, content_there(alloc, text))?;
    }
    Ok(())
}

/// Their contents; a file without one has none.
pub(crate) fn contents(alloc: Global, given: &str) -> Result<Vec<Option<Vec<u8>>>, AllocError> {
    let mut contents = Vec::new(alloc);
    add_contents(alloc, given, &mut contents)?;
    Ok(contents)
}

/// A source of them. A file without one is missing.
pub(crate) fn source(alloc: Global, given: &str) -> Result<MemSource, AllocError> {
    Ok(MemSource::new(contents(alloc, given)?))
}

fn file(alloc: Global, given: &str) -> Result<(FilePath, Vec<u8>), AllocError> {
    let (text, content_text) = parts(given);
    let bytes = content(alloc, content_text.unwrap_or(""))?;
    Ok((path(alloc, text)?, bytes))
}

fn add_files(
    alloc: Global,
    given: &str,
    files: &mut Vec<(FilePath, Vec<u8>)>,
) -> Result<(), AllocError> {
    for text in given.split_whitespace() {
        add(files, file(alloc, text))?;
    }
    Ok(())
}

/// Their paths and contents. A file without one is empty.
pub(crate) fn files(alloc: Global, given: &str) -> Result<Vec<(FilePath, Vec<u8>)>, AllocError> {
    let mut files = Vec::new(alloc);
    add_files(alloc, given, &mut files)?;
    Ok(files)
}

/// Whether there is a text, and this.
pub(crate) fn is(text: Result<String, AllocError>, wanted: &[u8]) -> bool {
    match text {
        Ok(text) => text.as_bytes() == wanted,
        Err(_) => false,
    }
}
