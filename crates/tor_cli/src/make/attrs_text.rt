//! The text that says which letters of `attr` files have (BEP 47, "attr"), read.
ghost use Rattle.std.specs.Prelude.{◌≡◌, ◌++◌, ℕ, List, IfOk, IfSome, MatchOption, Some, codes, flat_map};
ghost use Rattle.std.specs.List.{All};
ghost use Rattle.std.specs.Option.{IsSomeAnd};
ghost use Rattle.tor_tree.specs.FileList.{paths_of, paths_repeat};
ghost use Rattle.tor_tree.specs.Path.{IsFilePath};
ghost use Rattle.tor_tree.specs.Letters.{letters};
ghost use Rattle.tor_cli.specs.make.AttrsText.{AreLettered, IsLettered, attrs_line, attrs_text};
ghost use Rattle.tor_cli.specs.make.PathsText.{names_in};
ghost use Rattle.tor_tree.specs.declared.attr.Attr.{Attr};

use crate::make::path_text::{cut_at, path_in};
use std::alloc::{AllocError, Global};
use tor_tree::{Attr, FilePath, ListError, NameError, PathList, copy_paths};

/// The files of which this is the text: a line for each, with its letters, a space, and its path. None if it is the
/// text of no files: of other bytes, of a path that is none, or of one that has two lines.
pub fn read_attrs(alloc: Global, text: &[u8]) -> Result<Option<Vec<(FilePath, Attr)>>, AllocError>
    ensures written { IfOk result (λ read. IfSome read (λ files.
        AreLettered files.items × (attrs_text files.items ≡ text.now))) }
    ensures read { (files : List (List (List ℕ) × Attr)) → AreLettered files → attrs_text files ≡ text.now
        → IfOk result (λ read. IsSomeAnd read (λ r. r.items ≡ files)) }
{
    let Some(files) = read_lines(alloc, text)? else {
        return Ok(None);
    };
    if names_twice(alloc, &files)? {
        return Ok(None);
    }
    Ok(Some(files))
}

/// Whether a path has two lines.
fn names_twice(alloc: Global, files: &[(FilePath, Attr)]) -> Result<bool, AllocError>
    ensures { IfOk result (λ repeat. repeat ≡ paths_repeat (paths_of files.now)) }
{
    let paths = copy_paths(alloc, files)?;
    repeat(alloc, paths)
}

fn repeat(alloc: Global, paths: Vec<FilePath>) -> Result<bool, AllocError>
    ensures { IfOk result (λ repeat. repeat ≡ paths_repeat paths.items) }
{
    match PathList::build(alloc, paths) {
        Err(ListError::Duplicate) => Ok(true),
        Err(ListError::Memory) => Err(AllocError),
        _ => Ok(false),
    }
}

/// The files of the lines, whether a path has two or not.
fn read_lines(alloc: Global, text: &[u8]) -> Result<Option<Vec<(FilePath, Attr)>>, AllocError>
    ensures written { IfOk result (λ read. IfSome read (λ files.
        All IsLettered files.items × (text.now ≡ flat_map attrs_line files.items))) }
    ensures read { (files : List (List (List ℕ) × Attr)) → All IsLettered files
        → text.now ≡ flat_map attrs_line files → IfOk result (λ read. IsSomeAnd read (λ r. r.items ≡ files)) }
{
    let mut files = Vec::new(alloc);
    let mut lines = text;
    'lines: while !lines.is_empty() {
        let Some(line) = read_line(alloc, lines)? else {
            return Ok(None);
        };
        let (path, attr, more) = line;
        files.push((path, attr))?;
        lines = more;
    }
    Ok(Some(files))
}

/// The file of the first line, and the lines after it.
fn read_line<'a>(
    alloc: Global,
    text: &'a [u8],
) -> Result<Option<(FilePath, Attr, &'a [u8])>, AllocError>
    ensures written { IfOk result (λ read. IfSome read (λ r.
        IsLettered (r.0, r.1) × (text.now ≡ attrs_line (r.0, r.1) ++ r.2.now))) }
    ensures read { (file : List (List ℕ) × Attr) (rest : List ℕ) → IsLettered file
        → text.now ≡ attrs_line file ++ rest
        → IfOk result (λ read. IsSomeAnd read (λ r. (r.0 ≡ file.0) × (r.1 ≡ file.1) × (r.2.now ≡ rest))) }
{
    let Some((attr, after)) = read_letters(text) else {
        return Ok(None);
    };
    let Some((line, rest)) = cut_at(b'\n', after) else {
        return Ok(None);
    };
    match read_path(alloc, line)? {
        Some(path) => Ok(Some((path, attr, rest))),
        None => Ok(None),
    }
}

/// The letters that a line begins with, and what comes after the space behind them.
fn read_letters(text: &[u8]) -> Option<(Attr, &[u8])>
    ensures written { IfSome result (λ r. IsSomeAnd (letters r.0) (λ l. text.now ≡ l ++ (codes " " ++ r.1.now))) }
    ensures read { (attr : Attr) (l rest : List ℕ) → letters attr ≡ Some l → text.now ≡ l ++ (codes " " ++ rest)
        → IsSomeAnd result (λ r. (r.0 ≡ attr) × (r.1.now ≡ rest)) }
{
    match text {
        [b'h', b'x', b' ', rest @ ..] => Some((
            Attr {
                exec: true,
                hidden: true,
            },
            rest,
        )),
        [b'h', b' ', rest @ ..] => Some((
            Attr {
                exec: false,
                hidden: true,
            },
            rest,
        )),
        [b'x', b' ', rest @ ..] => Some((
            Attr {
                exec: true,
                hidden: false,
            },
            rest,
        )),
        _ => None,
    }
}

/// The path of which this is the text.
fn read_path(alloc: Global, text: &[u8]) -> Result<Option<FilePath>, AllocError>
    ensures { IfOk result (λ read. MatchOption read (IsFilePath (names_in text.now) → ⊥)
        (λ path. (path ≡ names_in text.now) × IsFilePath path)) }
{
    match path_in(alloc, text) {
        Ok(path) => Ok(Some(path)),
        Err(fault) => match fault {
            NameError::Memory => Err(AllocError),
            _ => Ok(None),
        },
    }
}
