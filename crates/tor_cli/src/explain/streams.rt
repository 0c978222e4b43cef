//! Why bytes were not read, or not written.
ghost use Rattle.std.specs.Prelude.{IfOk, string_bytes};
ghost use Rattle.tor_explain.specs.Plain.{IsPlainText};

use crate::command::Request;
use crate::explain::sources::{input_of, list_of, out_of, piece_of, torrent_of};
use crate::lots::join_words::JoinOptions;
use crate::unwritten::Unwritten;
use std::alloc::{AllocError, Global};
use std::fs::{self, Metadata};
use std::io::{self, ErrorKind};
use std::rt::Files;
use tor_explain::place_text;

/// How standard input is called.
const INPUT: &str = "standard input";

/// Why a file was not read: what the system says of the first that cannot be opened, or said as it was read.
pub fn read_reason(
    system: &HostRuntime,
    request: &Request<'_>,
    fault: &io::Error,
) -> Result<String, AllocError>
    ensures { IfOk result (λ text. IsPlainText (string_bytes text)) }
{
    let alloc = system.alloc();
    let files = files_of(request);
    if let Some((place, error)) = first_unopened(system, &files) {
        return reason_at(alloc, place, &error);
    }
    match request {
        Request::Join(options) => join_reason(system, options, fault),
        request if reads_input(request) => reason_at(alloc, &input_name(alloc, &files)?, fault),
        _ => reason_at(alloc, last_of(&files).unwrap_or(INPUT), fault),
    }
}

fn join_reason(
    system: &HostRuntime,
    options: &JoinOptions<'_>,
    fault: &io::Error,
) -> Result<String, AllocError>
    ensures { IfOk result (λ text. IsPlainText (string_bytes text)) }
{
    let alloc = system.alloc();
    match first_part_unopened(system, &options.parts) {
        Some((place, error)) => reason_at(alloc, place, &error),
        None => reason_at(alloc, "the plan or a part", fault),
    }
}

fn reason_at(alloc: Global, place: &str, fault: &io::Error) -> Result<String, AllocError>
    ensures { IfOk result (λ text. IsPlainText (string_bytes text)) }
{
    let why = format!(in alloc; "{fault}")?;
    place_text(alloc, place, &why)
}

/// The files that a request reads whole: the torrent, the plan or the letters or the proof, the list, the piece.
fn files_of<'a>(request: &Request<'a>) -> [Option<&'a str>; 4] {
    [
        torrent_of(request),
        input_of(request),
        file_list_of(request),
        piece_of(request),
    ]
}

/// What was being read of standard input, or of the last of these files.
fn input_name(alloc: Global, files: &[Option<&str>]) -> Result<String, AllocError> {
    match last_of(files) {
        Some(place) => format!(in alloc; "{INPUT}, or {place}"),
        None => String::from_str(alloc, INPUT),
    }
}

fn last_of<'a>(files: &[Option<&'a str>]) -> Option<&'a str> {
    let mut last = None;
    'files: for file in files {
        if file.is_some() {
            last = *file;
        }
    }
    last
}

/// The first of these files that cannot be opened, and why.
fn first_unopened<'a>(
    system: &HostRuntime,
    files: &[Option<&'a str>],
) -> Option<(&'a str, io::Error)> {
    'files: for file in files {
        let Some(place) = file else {
            continue 'files;
        };
        if let Some(error) = fault_at(system, place) {
            return Some((*place, error));
        }
    }
    None
}

/// The first part that cannot be opened, and why.
fn first_part_unopened<'a>(
    system: &HostRuntime,
    parts: &[&'a str],
) -> Option<(&'a str, io::Error)> {
    'parts: for part in parts {
        if let Some(error) = fault_at(system, part) {
            return Some((*part, error));
        }
    }
    None
}

/// The list of files, if it is a file.
fn file_list_of<'a>(request: &Request<'a>) -> Option<&'a str> {
    match list_of(request) {
        Some("-") => None,
        list => list,
    }
}

/// Whether something is read of standard input: what a torrent is made of, or the list of its files.
fn reads_input(request: &Request<'_>) -> bool {
    match request {
        Request::Make(options) if options.place.is_none() => true,
        request => matches!(list_of(request), Some("-")),
    }
}

/// Why what stands at a place cannot be opened. What is no regular file is not opened: it might wait.
fn fault_at(system: &HostRuntime, place: &str) -> Option<io::Error> {
    match system.metadata(place) {
        Ok(found) => fault_of(system, place, &found),
        Err(error) => Some(error),
    }
}

fn fault_of(system: &HostRuntime, place: &str, found: &Metadata) -> Option<io::Error> {
    if found.is_dir() {
        return Some(io::Error::from(ErrorKind::IsADirectory));
    }
    if !found.is_file() {
        return None;
    }
    fs::open(system, place).err()
}

/// Why bytes did not go out.
pub fn write_reason(
    alloc: Global,
    request: &Request<'_>,
    stop: &Unwritten,
) -> Result<String, AllocError>
    ensures { IfOk result (λ text. IsPlainText (string_bytes text)) }
{
    let place = out_of(request).unwrap_or("standard output");
    match stop.reason() {
        Some(error) => reason_at(alloc, place, error),
        None => place_text(alloc, place, "it takes no more bytes"),
    }
}
