//! What stands at the places that a request names, looked at once more. What is no regular file is not read again: a
//! pipe has no more to give, and might wait for it.
ghost use Rattle.std.specs.Prelude.{IfOk, IfSome};
ghost use Rattle.std.specs.List.Sorted.{IsStrictlySortedBy};
ghost use Rattle.tor_tree.specs.Path.{path_cmp};

use crate::foreign::read_file;
use crate::make::chosen_files::chosen_files;
use crate::scan::inventory::{Inventory, inventory_of};
use std::alloc::AllocError;
use std::rt::Files;
use tor_check::{Torrent, validate};
use tor_tree::FilePath;

/// The bytes of a regular file; none if it has none, or cannot be read.
pub fn bytes_at(system: &HostRuntime, place: &str) -> Option<Vec<u8>> {
    match system.metadata(place) {
        Ok(found) if found.is_file() => read_file(system.alloc(), system, place).ok(),
        _ => None,
    }
}

/// The torrent in a file.
pub fn torrent_at(system: &HostRuntime, place: &str) -> Option<Torrent> {
    let bytes = bytes_at(system, place)?;
    validate(system.alloc(), &bytes).ok()
}

/// What stands at a place: all, or what a list in a file chooses. None if the list was read from standard input.
pub fn inventory_at(system: &HostRuntime, place: &str, list: Option<&str>) -> Option<Inventory> {
    let chosen = match list {
        Some(word) => Some(paths_at(system, word)?),
        None => None,
    };
    inventory_of(system, place, chosen).ok()
}

/// The paths of a list in a file, in order.
pub fn paths_at(system: &HostRuntime, word: &str) -> Option<Vec<FilePath>>
    ensures { IfSome result (λ paths. IsStrictlySortedBy path_cmp paths.items) }
{
    match system.metadata(word) {
        Ok(found) if found.is_file() => paths_in(system, word),
        _ => None,
    }
}

fn paths_in(system: &HostRuntime, word: &str) -> Option<Vec<FilePath>>
    ensures { IfSome result (λ paths. IsStrictlySortedBy path_cmp paths.items) }
{
    if word == "-" {
        return None;
    }
    let mut nothing: &[u8] = &[];
    match chosen_files(system.alloc(), system, Some(word), &mut nothing) {
        Ok(chosen) => chosen,
        Err(_) => None,
    }
}

/// The path of a torrent's file.
pub fn path_in(
    system: &HostRuntime,
    torrent: &Torrent,
    file: u64,
) -> Result<Option<FilePath>, AllocError> {
    match torrent.files().get(file as usize) {
        Some(found) => Ok(Some(found.file().path.copy(system.alloc())?)),
        None => Ok(None),
    }
}
