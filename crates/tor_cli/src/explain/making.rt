//! Why no torrent is made of what stands at a place.
ghost use Rattle.std.specs.Prelude.{IfOk, IfSome, string_bytes};
ghost use Rattle.tor_explain.specs.Plain.{IsPlainText};

use crate::command::Request;
use crate::explain::again::{bytes_at, inventory_at, paths_at};
use crate::explain::sources::{list_of, place_of};
use crate::explain::torrents::{file_reason, read_fault_reason};
use crate::explain::words::{CHANGED, MISSING, SEVERAL_FILES, words_of_make};
use std::alloc::AllocError;
use std::rt::Files;
use std::{fs, io};
use tor_engine::EngineError;
use tor_explain::{
    layout_text, list_text, place_text, plain_text, refused_text, scan_text, sums_text,
};
use tor_meta::{MakeError, read_plan};
use tor_source::ScanFault;
use tor_tree::{FilePath, copy_paths};
use tor_v1::LayoutError;

/// Why a place has no files that can be taken: what the system says of it, or the first thing below it that is refused.
pub fn scan_reason(
    system: &HostRuntime,
    request: &Request<'_>,
    fault: &ScanFault,
) -> Result<String, AllocError>
    ensures { IfOk result (λ text. IsPlainText (string_bytes text)) }
{
    let alloc = system.alloc();
    let Some(place) = place_of(request) else {
        return scan_text(alloc, fault);
    };
    if let Err(error) = system.metadata(place) {
        let why = format!(in alloc; "{error}")?;
        return place_text(alloc, place, &why);
    }
    match request {
        Request::Recheck(_) | Request::RecheckLot(_) => place_text(alloc, place, SEVERAL_FILES),
        _ => refused_at(system, request, place, fault),
    }
}

fn refused_at(
    system: &HostRuntime,
    request: &Request<'_>,
    place: &str,
    fault: &ScanFault,
) -> Result<String, AllocError>
    ensures { IfOk result (λ text. IsPlainText (string_bytes text)) }
{
    let alloc = system.alloc();
    let Some(found) = inventory_at(system, place, list_of(request)) else {
        return unopened_reason(system, place, fault);
    };
    match found.refused.first() {
        Some(refused) => refused_text(alloc, refused),
        None => scan_text(alloc, fault),
    }
}

/// Why a folder that is there cannot be opened, as with too many files open; else what the fault means. Nothing else is
/// opened: a FIFO might wait.
fn unopened_reason(
    system: &HostRuntime,
    place: &str,
    fault: &ScanFault,
) -> Result<String, AllocError>
    ensures { IfOk result (λ text. IsPlainText (string_bytes text)) }
{
    let alloc = system.alloc();
    if !is_folder(system, place) {
        return scan_text(alloc, fault);
    }
    match fs::open(system, place) {
        Ok(_) => scan_text(alloc, fault),
        Err(error) => {
            let why = format!(in alloc; "{error}")?;
            place_text(alloc, place, &why)
        }
    }
}

fn is_folder(system: &HostRuntime, place: &str) -> bool {
    match system.metadata(place) {
        Ok(found) => found.is_dir(),
        Err(_) => false,
    }
}

/// Why no torrent is made of files: of which one a fault is, or what a code means.
pub fn make_reason(
    system: &HostRuntime,
    request: &Request<'_>,
    error: &MakeError<io::Error>,
) -> Result<String, AllocError>
    ensures { IfOk result (λ text. IsPlainText (string_bytes text)) }
{
    let alloc = system.alloc();
    match error {
        MakeError::Hashing(fault) => hashing_reason(system, request, fault),
        MakeError::List(fault) => list_text(alloc, fault),
        MakeError::ReservedPad => layout_text(alloc, &LayoutError::ReservedPad),
        other => plain_text(alloc, words_of_make(other)),
    }
}

fn hashing_reason(
    system: &HostRuntime,
    request: &Request<'_>,
    fault: &EngineError<io::Error>,
) -> Result<String, AllocError>
    ensures { IfOk result (λ text. IsPlainText (string_bytes text)) }
{
    let alloc = system.alloc();
    match fault {
        EngineError::Read { file, fault, .. } => {
            let path = path_of(system, request, *file)?;
            read_fault_reason(alloc, *file, &path, fault)
        }
        EngineError::Changed { file } => {
            let path = path_of(system, request, *file)?;
            file_reason(alloc, *file, &path, CHANGED)
        }
        EngineError::Missing { file } => {
            let path = path_of(system, request, *file)?;
            file_reason(alloc, *file, &path, MISSING)
        }
        other => sums_text(alloc, other),
    }
}

/// The path of a file of this number: of the plan, of the list, or of what stands at the place now.
pub fn path_of(
    system: &HostRuntime,
    request: &Request<'_>,
    file: u64,
) -> Result<Option<FilePath>, AllocError> {
    let paths = match request {
        Request::Lot(options) => paths_of_plan(system, options.plan)?,
        other => paths_to_take(system, other),
    };
    let Some(paths) = paths else {
        return Ok(None);
    };
    match paths.get(file as usize) {
        Some(path) => Ok(Some(path.copy(system.alloc())?)),
        None => Ok(None),
    }
}

fn paths_of_plan(system: &HostRuntime, place: &str) -> Result<Option<Vec<FilePath>>, AllocError> {
    let alloc = system.alloc();
    let Some(bytes) = bytes_at(system, place) else {
        return Ok(None);
    };
    match read_plan(alloc, &bytes) {
        Ok(plan) => Ok(Some(copy_paths(alloc, plan.listing().list().files())?)),
        Err(_) => Ok(None),
    }
}

fn paths_to_take(system: &HostRuntime, request: &Request<'_>) -> Option<Vec<FilePath>> {
    match list_of(request) {
        Some(list) => paths_at(system, list),
        None => Some(inventory_at(system, place_of(request)?, None)?.paths),
    }
}
