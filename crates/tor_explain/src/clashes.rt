//! Two files of a v1 side that cannot stand side by side: V10, V11.
ghost use Rattle.std.specs.Prelude.{◌<◌, ◌≡◌, false, true, length};

use crate::line::Line;
use crate::list::entries_of;
use crate::properties::is_padding;
use std::alloc::{AllocError, Global};
use tor_bencode::ItemRef;
use tor_tree::{FilePath, Name, NameError};

/// Tells two entries of one path.
pub(crate) fn tell_same(
    alloc: Global,
    line: &mut Line,
    info: &ItemRef<'_>,
) -> Result<bool, AllocError>
    ensures nothing { result ≡ Ok false → line.new ≡ line.old }
    ensures told { result ≡ Ok true → 0 < length line.new }
{
    let paths = sorted_paths(alloc, info)?;
    'paths: for index in 1..paths.len() {
        let (path, entry) = &paths[index];
        let (before, earlier) = &paths[index - 1];
        if path == before {
            line.say("files, entries ");
            line.number(*earlier as u64);
            line.say(" and ");
            line.number(*entry as u64);
            line.say(": the path of both is ");
            line.cite_path(path);
            return Ok(true);
        }
    }
    Ok(false)
}

/// Tells two entries of which one is a file where the other has a folder.
pub(crate) fn tell_nested(
    alloc: Global,
    line: &mut Line,
    info: &ItemRef<'_>,
) -> Result<bool, AllocError>
    ensures nothing { result ≡ Ok false → line.new ≡ line.old }
    ensures told { result ≡ Ok true → 0 < length line.new }
{
    let paths = sorted_paths(alloc, info)?;
    'paths: for index in 1..paths.len() {
        let (path, entry) = &paths[index];
        let (before, earlier) = &paths[index - 1];
        if path.names().starts_with(before.names()) {
            line.say("files, entry ");
            line.number(*earlier as u64);
            line.say(": ");
            line.cite_path(before);
            line.say(" is a file, and a folder of entry ");
            line.number(*entry as u64);
            return Ok(true);
        }
    }
    Ok(false)
}

// The paths of the entries but for padding, each with its index. What is below a path follows it.
fn sorted_paths(alloc: Global, info: &ItemRef<'_>) -> Result<Vec<(FilePath, usize)>, AllocError> {
    let mut paths = Vec::new(alloc);
    if let Some(entries) = entries_of(info) {
        add_paths(alloc, entries, &mut paths)?;
    }
    paths.as_mut_slice().sort(alloc)?;
    Ok(paths)
}

fn add_paths(
    alloc: Global,
    entries: &Vec<ItemRef<'_>>,
    paths: &mut Vec<(FilePath, usize)>,
) -> Result<(), AllocError> {
    for (index, entry) in entries.iter().enumerate() {
        if is_padding(entry) {
            continue;
        }
        if let Some(path) = path_of(alloc, entry)? {
            paths.push((path, index))?;
        }
    }
    Ok(())
}

/// The path of an entry, if it is one.
pub(crate) fn path_of(alloc: Global, entry: &ItemRef<'_>) -> Result<Option<FilePath>, AllocError> {
    let Some(ItemRef::List(items)) = entry.get(b"path") else {
        return Ok(None);
    };
    let mut names = Vec::new(alloc);
    for item in items {
        let ItemRef::Bytes(bytes) = item else {
            return Ok(None);
        };
        match Name::new(alloc, bytes) {
            Ok(name) => names.push(name)?,
            Err(NameError::Memory) => return Err(AllocError),
            Err(_) => return Ok(None),
        }
    }
    Ok(FilePath::new(names))
}
