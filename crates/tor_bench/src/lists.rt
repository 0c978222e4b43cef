//! Lists of many files, and their trees.
ghost use Rattle.std.specs.Prelude.{◌<◌, ◌↔◌, IfOk, IsSome};
ghost use Rattle.std.specs.List.{AllZip};
ghost use Rattle.tor_tree.specs.TidyTree.{HasItsRoot};

use crate::clock::{micros_since, now, told};
use std::alloc::{AllocError, Global};
use std::io::Result;
use tor_bencode::Item;
use tor_merkle::Hash;
use tor_tree::{FileList, FilePath, Name, NameError, from_item, to_item};

/// How many files lie in one folder.
const FOLDER: usize = 100;

/// A prime, so that its multiples reach each index.
const STEP: usize = 7_919;

/// Prints how many paths were made.
pub fn paths(rt: &HostRuntime, count: usize) -> Result<()> {
    let files = files(rt.alloc(), count);
    told(rt, &[files.len() as u128])
}

/// Prints how many files are in a list of them.
pub fn list(rt: &HostRuntime, count: usize) -> Result<()> {
    match FileList::build(rt.alloc(), files(rt.alloc(), count)) {
        Ok(list) => told(rt, &[list.files().len() as u128]),
        Err(_) => told(rt, &[0]),
    }
}

/// Prints how many files were read back, and the microseconds that their list, its tree, and reading that take.
pub fn lists(rt: &HostRuntime, count: usize) -> Result<()> {
    let files = files(rt.alloc(), count);
    let start = now(rt);
    match FileList::build(rt.alloc(), files) {
        Ok(list) => written(rt, &list, micros_since(rt, start)),
        Err(_) => told(rt, &[0]),
    }
}

/// Prints how many files are read back from the tree of a list that was built, and the microseconds that the list, its
/// tree, and reading that take.
fn written(rt: &HostRuntime, list: &FileList, built: u128) -> Result<()> {
    let (tree, written) = treed(rt, list)?;
    let start = now(rt);
    let count = count_of_files(rt.alloc(), &tree);
    let taken = micros_since(rt, start);
    told(rt, &[count as u128, built, written, taken])
}

/// Its tree, and the microseconds that it takes.
fn treed(rt: &HostRuntime, list: &FileList) -> std::result::Result<(Item, u128), AllocError> {
    let roots = roots_for(rt.alloc(), list.files())?;
    let start = now(rt);
    let tree = to_item(rt.alloc(), list, &roots)?;
    Ok((tree, micros_since(rt, start)))
}

/// How many files are read in a tree.
fn count_of_files(alloc: Global, tree: &Item) -> usize {
    match from_item(alloc, tree) {
        Ok(files) => files.len(),
        Err(_) => 0,
    }
}

fn roots_for(
    alloc: Global,
    files: &[(FilePath, u64)],
) -> std::result::Result<Vec<Option<Hash>>, AllocError>
    ensures { IfOk result (λ roots. AllZip HasItsRoot files.now roots.items) }
{
    let mut roots = Vec::with_capacity(alloc, files.len())?;
    for (_, length) in files {
        roots.push(root_for(*length))?;
    }
    Ok(roots)
}

fn root_for(length: u64) -> Option<Hash>
    ensures { IsSome result ↔ (0 < length) }
{
    if length == 0 { None } else { Some([7; 32]) }
}

/// Files of one byte in folders of a hundred, in an order that is far from that of their paths. Without memory for all
/// of them there are fewer.
fn files(alloc: Global, count: usize) -> Vec<(FilePath, u64)> {
    let mut files = Vec::new(alloc);
    let _all = add_files(alloc, count, &mut files);
    files
}

fn add_files(
    alloc: Global,
    count: usize,
    files: &mut Vec<(FilePath, u64)>,
) -> std::result::Result<(), NameError> {
    files.reserve(count)?;
    for n in 0..count {
        add_file(alloc, n.wrapping_mul(STEP) % count, files)?;
    }
    Ok(())
}

fn add_file(
    alloc: Global,
    index: usize,
    files: &mut Vec<(FilePath, u64)>,
) -> std::result::Result<(), NameError> {
    let mut names = Vec::new(alloc);
    add_name(alloc, "folder", index / FOLDER, &mut names)?;
    add_name(alloc, "file", index, &mut names)?;
    if let Some(path) = FilePath::new(names) {
        files.push((path, 1))?;
    }
    Ok(())
}

fn add_name(
    alloc: Global,
    word: &str,
    number: usize,
    names: &mut Vec<Name>,
) -> std::result::Result<(), NameError> {
    let text = format!(in alloc; "{word}{number}")?;
    names.push(Name::new(alloc, text.as_bytes())?)?;
    Ok(())
}
