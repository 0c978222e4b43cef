//! Words for faults of which no place is told.
ghost use Rattle.std.specs.Prelude.{IsTrue};
ghost use Rattle.tor_explain.specs.Plain.{begins_plain};

use crate::fault::Fault;
use crate::proof::claim::ArgumentFault;
use std::io;
use tor_meta::{JoinError, MakeError};

pub const CHANGED: &str =
    "it changed while it was read, or another stands in its place: try again when none writes to it";

pub const MISSING: &str = "it is not there";

pub const SEVERAL_FILES: &str =
    "it is a file, and the torrent is of more: name the folder that has them";

pub const WORKERS: &str = "from 1 to 64 workers hash";

pub const LISTED_NAME: &str = "a path in the list of --files-from has a part that is no name";

pub const NO_LETTERS: &str = "a line is x, h or hx, a space, and the path of a file";

pub const LETTERS: &str =
    "its last line has no end, a path has two lines, or it is none of the torrent's files";

pub const NO_FILE: &str = "it has no file of the torrent";

pub const FILE_ABOVE: &str = "it has no file of the torrent, and the folder above it has";

pub const BEHIND_LINKS: &str =
    "files of the torrent are behind links: what is written there goes through them; --no-links tells which";

/// Why no torrent is made, if the code tells no more.
pub fn words_of_make(error: &MakeError<io::Error>) -> &'static str
    ensures { IsTrue (begins_plain result.now) }
{
    match error {
        MakeError::PieceLength => "a piece length is a power of two from 16384 to 1073741824",
        MakeError::Workers => WORKERS,
        MakeError::Span => "a span is a power of two from 1 to 1024",
        MakeError::Path => "a path has more than 64 names: leave it out with --files-from",
        MakeError::SingleShape => "the torrent is of one file, and of no other name than its own",
        _ => "the files are not in the order of their paths",
    }
}

/// Why parts are not joined.
pub fn words_of_join(error: &JoinError) -> &'static str
    ensures { IsTrue (begins_plain result.now) }
{
    match error {
        JoinError::NoPart { .. } =>
            "it has the bytes of no part: it was cut or changed, or is another file",
        JoinError::OtherPlan { .. } =>
            "it is a part of another plan: make it again with --plan and this one",
        JoinError::OtherParts { .. } => "it is one of another number of parts than the first",
        JoinError::Twice { .. } => "an earlier word names a part of the same number",
        JoinError::Length { .. } => "it has too few or too many hashes: it was cut or changed",
        JoinError::Missing { .. } => "these parts were not named: make them, and join all again",
        _ => NO_PLAN,
    }
}

const NO_PLAN: &str =
    "the file has the bytes of no plan: it was cut or changed, or no torrent is made of what it tells";

/// Why an argument is none of its kind.
pub fn words_of_argument(fault: ArgumentFault) -> &'static str
    ensures { IsTrue (begins_plain result.now) }
{
    match fault {
        ArgumentFault::Root => "ROOT is 64 hexadecimal digits, 0 to 9 and a to f",
        ArgumentFault::Length =>
            "LENGTH is a number of bytes from 1 to 2^50, with no zero before it",
        ArgumentFault::PieceLength => "PIECELENGTH is a power of two from 16384 to 1073741824",
        ArgumentFault::Proof => "the file of PROOF has no lines as tor prove writes them",
        ArgumentFault::Attrs => LETTERS,
        ArgumentFault::Files => "the last path of the list is not ended by a zero byte",
    }
}

/// What any other fault means.
pub fn words_of_fault(fault: &Fault) -> &'static str
    ensures { IsTrue (begins_plain result.now) }
{
    match fault {
        Fault::Plan(_) => NO_PLAN,
        Fault::NotAsMade { .. } =>
            "the files changed while the torrent was made: it was not written",
        Fault::OutAmongFiles =>
            "the file of --out is one of those that the torrent would be made of",
        Fault::TooLong =>
            "a file or standard input has more than 1073741824 bytes, which is no torrent and no list",
        _ => "there is no more to say",
    }
}
