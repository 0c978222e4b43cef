//! Why a name or a list is none.
ghost use Rattle.std.specs.Prelude.{IfOk, IfSome, string_bytes};
ghost use Rattle.tor_explain.specs.Plain.{IsPlainText};

use crate::command::Request;
use crate::explain::again::bytes_at;
use crate::explain::sources::{input_of, list_of, torrent_options};
use crate::explain::words::{LETTERS, LISTED_NAME, NO_LETTERS, words_of_argument};
use crate::make::attrs_text::read_attrs;
use crate::proof::claim::ArgumentFault;
use std::alloc::AllocError;
use std::str;
use tor_explain::{entry_text, line_text, name_text, place_text, plain_text};
use tor_tree::{Name, NameError};

/// Why a name is none: the word for it, or the first such name in a list that is a file.
pub fn name_reason(
    system: &HostRuntime,
    request: &Request<'_>,
    error: &NameError,
) -> Result<String, AllocError>
    ensures { IfOk result (λ text. IsPlainText (string_bytes text)) }
{
    let alloc = system.alloc();
    if let Some(list) = list_of(request) {
        if let Some(text) = entry_reason(system, list)? {
            return Ok(text);
        }
    }
    match torrent_options(request) {
        Some(options) if Name::new(alloc, options.name.as_bytes()).is_err() => {
            name_text(alloc, options.name.as_bytes(), error)
        }
        _ => plain_text(alloc, LISTED_NAME),
    }
}

/// The first path of a list that has a part that is no name.
fn entry_reason(system: &HostRuntime, list: &str) -> Result<Option<String>, AllocError>
    ensures { IfOk result (λ reason. IfSome reason (λ text. IsPlainText (string_bytes text))) }
{
    let Some(bytes) = bytes_at(system, list) else {
        return Ok(None);
    };
    // Behind the last zero byte there is no path, if there is nothing.
    let listed = bytes.strip_suffix(&[0u8]).unwrap_or(&bytes);
    if bytes.is_empty() {
        return Ok(None);
    }
    let mut number = 0u64;
    'paths: for path in listed.split(|byte| *byte == 0) {
        number = number.saturating_add(1);
        if let Some(text) = part_reason(system, list, number, path)? {
            return Ok(Some(text));
        }
    }
    Ok(None)
}

/// The first part of a path that is no name.
fn part_reason(
    system: &HostRuntime,
    list: &str,
    number: u64,
    path: &[u8],
) -> Result<Option<String>, AllocError>
    ensures { IfOk result (λ reason. IfSome reason (λ text. IsPlainText (string_bytes text))) }
{
    let alloc = system.alloc();
    'parts: for part in path.split(|byte| *byte == b'/') {
        if let Err(fault) = Name::new(alloc, part) {
            return Ok(Some(entry_text(alloc, list, number, part, &fault)?));
        }
    }
    Ok(None)
}

/// Why an argument is none of its kind: of a file of letters the line.
pub fn argument_reason(
    system: &HostRuntime,
    request: &Request<'_>,
    fault: ArgumentFault,
) -> Result<String, AllocError>
    ensures { IfOk result (λ text. IsPlainText (string_bytes text)) }
{
    match (fault, input_of(request)) {
        (ArgumentFault::Attrs, Some(place)) => letters_reason(system, place),
        _ => plain_text(system.alloc(), words_of_argument(fault)),
    }
}

/// The first line that has no letters and a path; if all have, a path stands twice or belongs to no file.
fn letters_reason(system: &HostRuntime, place: &str) -> Result<String, AllocError>
    ensures { IfOk result (λ text. IsPlainText (string_bytes text)) }
{
    let alloc = system.alloc();
    let bytes = match bytes_at(system, place) {
        Some(bytes) => bytes,
        None => return plain_text(alloc, LETTERS),
    };
    let Ok(text) = str::from_utf8(&bytes) else {
        return place_text(alloc, place, "it is no text in UTF-8");
    };
    let mut number = 0u64;
    'lines: for line in text.split('\n') {
        number = number.saturating_add(1);
        if !line.is_empty() && !is_lettered(system, line)? {
            return line_text(alloc, place, number, line.as_bytes(), NO_LETTERS);
        }
    }
    place_text(alloc, place, LETTERS)
}

fn is_lettered(system: &HostRuntime, line: &str) -> Result<bool, AllocError> {
    let alloc = system.alloc();
    let whole = format!(in alloc; "{line}\n")?;
    Ok(read_attrs(alloc, whole.as_bytes())?.is_some())
}
