//! Why the bytes of a file are no torrent, or it is not told which of its pieces are there.
ghost use Rattle.std.specs.Prelude.{IfOk, string_bytes};
ghost use Rattle.tor_explain.specs.Plain.{IsPlainText};

use crate::command::Request;
use crate::explain::again::{bytes_at, path_in, torrent_at};
use crate::explain::making;
use crate::explain::sources::torrent_of;
use crate::explain::words::{CHANGED, WORKERS};
use std::alloc::{AllocError, Global};
use std::io::{self, ErrorKind};
use tor_check::Refusal;
use tor_explain::{code_text, file_text, place_text, plain_text, refusal_text};
use tor_recheck::RecheckError;
use tor_tree::FilePath;

/// Where in the bytes of the file the refusal is.
pub fn torrent_reason(
    system: &HostRuntime,
    request: &Request<'_>,
    refusal: &Refusal,
) -> Result<String, AllocError>
    ensures { IfOk result (λ text. IsPlainText (string_bytes text)) }
{
    let alloc = system.alloc();
    let bytes = match torrent_of(request) {
        Some(place) => bytes_at(system, place),
        None => None,
    };
    match bytes {
        Some(bytes) => refusal_text(alloc, &bytes, refusal),
        None => code_text(alloc, refusal),
    }
}

/// Of which file a fault of a recheck is, and why.
pub fn recheck_reason(
    system: &HostRuntime,
    request: &Request<'_>,
    error: &RecheckError<io::Error>,
) -> Result<String, AllocError>
    ensures { IfOk result (λ text. IsPlainText (string_bytes text)) }
{
    let alloc = system.alloc();
    match error {
        RecheckError::Read { file, fault, .. } => {
            let path = path_of(system, request, *file)?;
            read_fault_reason(alloc, *file, &path, fault)
        }
        RecheckError::Changed { file } => {
            let path = path_of(system, request, *file)?;
            file_reason(alloc, *file, &path, CHANGED)
        }
        _ => plain_text(alloc, WORKERS),
    }
}

/// Which file was not read, and the system's reason; or, if the file is another one than was listed, that it changed.
pub fn read_fault_reason(
    alloc: Global,
    file: u64,
    path: &Option<FilePath>,
    fault: &io::Error,
) -> Result<String, AllocError>
    ensures { IfOk result (λ text. IsPlainText (string_bytes text)) }
{
    if matches!(fault.kind(), ErrorKind::InvalidData) {
        return file_reason(alloc, file, path, CHANGED);
    }
    let why = format!(in alloc; "{fault}")?;
    file_reason(alloc, file, path, &why)
}

/// Which file a fault is of, by its path if there is one of its number now, and why.
pub fn file_reason(
    alloc: Global,
    file: u64,
    path: &Option<FilePath>,
    why: &str,
) -> Result<String, AllocError>
    ensures { IfOk result (λ text. IsPlainText (string_bytes text)) }
{
    match path {
        Some(path) => file_text(alloc, file, path, why),
        None => {
            let name = format!(in alloc; "file {file}")?;
            place_text(alloc, &name, why)
        }
    }
}

// The path of a file of this number: of the torrent, or of what a torrent was made of.
fn path_of(
    system: &HostRuntime,
    request: &Request<'_>,
    file: u64,
) -> Result<Option<FilePath>, AllocError> {
    let Some(place) = torrent_of(request) else {
        return making::path_of(system, request, file);
    };
    match torrent_at(system, place) {
        Some(torrent) => path_in(system, &torrent, file),
        None => Ok(None),
    }
}
