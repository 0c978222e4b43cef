//! What a PATH of a recheck is not, and which of its files are behind links.
ghost use Rattle.std.specs.Prelude.{IfOk, IfSome, string_bytes};
ghost use Rattle.tor_explain.specs.Plain.{IsPlainText};

use crate::command::Request;
use crate::explain::again::torrent_at;
use crate::explain::sources::{place_of, torrent_of};
use crate::explain::words::{BEHIND_LINKS, FILE_ABOVE, NO_FILE};
use crate::recheck::listing::FileListing;
use crate::recheck::source::paths_of;
use std::alloc::AllocError;
use std::rt::Files;
use tor_check::Torrent;
use tor_explain::place_text;
use tor_source::{FolderSource, Source};

/// That PATH has no file of the torrent, if it has none, and whether the folder of the torrent's name below it, or the
/// one above it, has one: the first is a common mistake, since clients ask for the place where that folder stands.
/// Else, that files are behind links, if bad ones are listed: whoever writes them anew would write through the links.
pub fn whereabouts_reason(
    system: &HostRuntime,
    request: &Request<'_>,
) -> Result<Option<String>, AllocError>
    ensures { IfOk result (λ reason. IfSome reason (λ text. IsPlainText (string_bytes text))) }
{
    match request {
        Request::Recheck(_) | Request::RecheckLot(_) | Request::Extra(_) => {}
        _ => return Ok(None),
    }
    let (Some(file), Some(place)) = (torrent_of(request), place_of(request)) else {
        return Ok(None);
    };
    let Some(torrent) = torrent_at(system, file) else {
        return Ok(None);
    };
    match nowhere_reason(system, place, &torrent)? {
        Some(reason) => Ok(Some(reason)),
        None if follows_to_bad(request) => links_reason(system, place, &torrent),
        None => Ok(None),
    }
}

/// Whether the files that are not whole are listed, and links followed to them.
fn follows_to_bad(request: &Request<'_>) -> bool {
    match request {
        Request::Recheck(options) => options.follows_links
            && matches!(
                options.listing,
                FileListing::BadFiles | FileListing::BadPaths
            ),
        _ => false,
    }
}

fn links_reason(
    system: &HostRuntime,
    place: &str,
    torrent: &Torrent,
) -> Result<Option<String>, AllocError>
    ensures { IfOk result (λ reason. IfSome reason (λ text. IsPlainText (string_bytes text))) }
{
    let alloc = system.alloc();
    let paths = paths_of(alloc, torrent.files())?;
    let count = paths.len();
    let source = FolderSource::at_without_links(system, alloc, place, paths)?;
    if (0..count).any(|file| source.is_behind_link(file)) {
        return Ok(Some(place_text(alloc, place, BEHIND_LINKS)?));
    }
    Ok(None)
}

fn nowhere_reason(
    system: &HostRuntime,
    place: &str,
    torrent: &Torrent,
) -> Result<Option<String>, AllocError>
    ensures { IfOk result (λ reason. IfSome reason (λ text. IsPlainText (string_bytes text))) }
{
    if has_file(system, place, torrent)? {
        return Ok(None);
    }
    if let Some(reason) = below_reason(system, place, torrent)? {
        return Ok(Some(reason));
    }
    let why = if has_file_above(system, place, torrent)? {
        FILE_ABOVE
    } else {
        NO_FILE
    };
    Ok(Some(place_text(system.alloc(), place, why)?))
}

/// That a folder of the torrent's name below the place has a file of it, if one has.
fn below_reason(
    system: &HostRuntime,
    place: &str,
    torrent: &Torrent,
) -> Result<Option<String>, AllocError>
    ensures { IfOk result (λ reason. IfSome reason (λ text. IsPlainText (string_bytes text))) }
{
    let alloc = system.alloc();
    let name = torrent.name().as_str();
    let below = format!(in alloc; "{place}/{name}")?;
    if !has_file(system, &below, torrent)? {
        return Ok(None);
    }
    let why = format!(in alloc; "it has no file of the torrent, and {below} has")?;
    Ok(Some(place_text(alloc, place, &why)?))
}

/// Whether the folder that the place is in has one.
fn has_file_above(
    system: &HostRuntime,
    place: &str,
    torrent: &Torrent,
) -> Result<bool, AllocError> {
    let above = format!(in system.alloc(); "{place}/..")?;
    has_file(system, &above, torrent)
}

/// Whether a file of the torrent is at a place, or below it.
fn has_file(system: &HostRuntime, place: &str, torrent: &Torrent) -> Result<bool, AllocError> {
    let alloc = system.alloc();
    if torrent.files().len() == 1 && is_file(system, place) {
        return Ok(true);
    }
    let paths = paths_of(alloc, torrent.files())?;
    let count = paths.len();
    let source = FolderSource::at(system, alloc, place, paths)?;
    // Of what the system does not tell nobody says that it is not there.
    Ok((0..count).any(|file| !matches!(source.length(file as u64), Ok(None))))
}

fn is_file(system: &HostRuntime, place: &str) -> bool {
    match system.metadata(place) {
        Ok(found) => found.is_file(),
        Err(_) => false,
    }
}
