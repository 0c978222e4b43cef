//! Why the program stopped, in words: the second line, which a terminal gets, and whoever gives `--explain`.
//!
//! Whether it is asked for is looked at in each run (`asks_why`).
//!
//! No fault has the place that it is of, and most have no reason of the system's. So what the words name is looked at
//! once more: FILE, PATH, and the lists that are files.
//!
//! - `sources.rt`: which places a request names. `again.rt`: what is there.
//! - `making.rt`: why no torrent is made. `torrents.rt`: why a torrent is refused, or not rechecked. `arguments.rt`:
//!   why a name or a list is none. `streams.rt`: why bytes were not read or written. `whereabouts.rt`: what PATH is
//!   not, and that files are behind links. `words.rt`: words for the rest.
ghost use Rattle.std.specs.Prelude.{IfOk, IfSome, string_bytes};
ghost use Rattle.tor_explain.specs.Plain.{IsPlainText};

mod again;
mod arguments;
mod making;
mod sources;
mod streams;
mod torrents;
mod whereabouts;
mod words;

use crate::command::Request;
use crate::explain::arguments::{argument_reason, name_reason};
use crate::explain::making::{make_reason, scan_reason};
use crate::explain::streams::{read_reason, write_reason};
use crate::explain::torrents::{recheck_reason, torrent_reason};
use crate::explain::whereabouts::whereabouts_reason;
use crate::explain::words::{words_of_fault, words_of_join};
use crate::fault::Fault;
use std::alloc::AllocError;
use tor_explain::{plain_text, proof_text};

/// Why a request stopped at a fault, in one line; none if memory for it is refused, or there is no more to say.
pub fn reason_of(system: &HostRuntime, request: &Request<'_>, fault: &Fault) -> Option<String>
    ensures { IfSome result (λ text. IsPlainText (string_bytes text)) }
{
    match fault {
        Fault::Usage(_) | Fault::Resources => None,
        fault => reason_in(system, request, fault).ok(),
    }
}

fn reason_in(
    system: &HostRuntime,
    request: &Request<'_>,
    fault: &Fault,
) -> Result<String, AllocError>
    ensures { IfOk result (λ text. IsPlainText (string_bytes text)) }
{
    let alloc = system.alloc();
    match fault {
        Fault::Name(error) => name_reason(system, request, error),
        Fault::Scan(fault) => scan_reason(system, request, fault),
        Fault::Make(error) => make_reason(system, request, error),
        Fault::Refused(refusal) => torrent_reason(system, request, refusal),
        Fault::Piece(error) => proof_text(alloc, error),
        Fault::Recheck(error) => recheck_reason(system, request, error),
        Fault::Join(error, _) => plain_text(alloc, words_of_join(error)),
        Fault::Argument(fault) => argument_reason(system, request, *fault),
        Fault::Read(fault) => read_reason(system, request, fault),
        Fault::Write(stop) => write_reason(alloc, request, stop),
        other => plain_text(alloc, words_of_fault(other)),
    }
}

/// Why the answer to a request is no, in one line; none if there is no more to say.
pub fn reason_for_no(system: &HostRuntime, request: &Request<'_>) -> Option<String>
    ensures { IfSome result (λ text. IsPlainText (string_bytes text)) }
{
    match whereabouts_reason(system, request) {
        Ok(reason) => reason,
        Err(_) => None,
    }
}

/// Whether the words ask for the reason. Of those that `clap` let through none but the flag is this one, before a `--`.
pub fn asks_why(words: &[&str]) -> bool {
    words
        .iter()
        .take_while(|word| **word != "--")
        .any(|word| *word == "--explain")
}
