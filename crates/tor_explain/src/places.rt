//! Which file or place a fault is of, and why.
ghost use Rattle.std.specs.Prelude.{◌<◌, IfOk, IsTrue, OnOk, length, string_bytes};
ghost use Rattle.tor_explain.specs.Plain.{IsPlainText, begins_plain};

use crate::line::Line;
use crate::names::tell_name;
use std::alloc::{AllocError, Global};
use std::io;
use tor_source::{OtherKind, Refusal, Refused};
use tor_tree::{FilePath, NameError};

/// The file of this number, and why a fault is told of it: `file 17 is sub/b.iso: Permission denied (os error 13)`.
pub fn file_text(alloc: Global, file: u64, path: &FilePath, why: &str) -> Result<String, AllocError>
    ensures plain { IfOk result (λ text. IsPlainText (string_bytes text)) }
    ensures some { IfOk result (λ text. 0 < length (string_bytes text)) }
{
    let mut line = Line::new();
    line.say("file ");
    line.number(file);
    line.say(" is ");
    line.cite_path(path);
    line.say(": ");
    line.cite(why.as_bytes());
    line.into_text(alloc)
}

/// A place of the system, and what is wrong with it: `films/x: No such file or directory (os error 2)`.
pub fn place_text(alloc: Global, place: &str, why: &str) -> Result<String, AllocError>
    ensures plain { IfOk result (λ text. IsPlainText (string_bytes text)) }
    ensures some { IfOk result (λ text. 0 < length (string_bytes text)) }
{
    let mut line = Line::new();
    line.cite(place.as_bytes());
    line.say(": ");
    line.cite(why.as_bytes());
    line.into_text(alloc)
}

/// A line of a file of lines, counted from 1, and what is wrong with it.
pub fn line_text(
    alloc: Global,
    place: &str,
    number: u64,
    bytes: &[u8],
    why: &str,
) -> Result<String, AllocError>
    ensures plain { IfOk result (λ text. IsPlainText (string_bytes text)) }
    ensures some { IfOk result (λ text. 0 < length (string_bytes text)) }
{
    let mut line = Line::new();
    line.cite(place.as_bytes());
    line.say(", line ");
    line.number(number);
    line.say(": ");
    line.cite(bytes);
    line.say(": ");
    line.cite(why.as_bytes());
    line.into_text(alloc)
}

/// A path of a list of paths, counted from 1, which has this part that is no name.
pub fn entry_text(
    alloc: Global,
    place: &str,
    number: u64,
    part: &[u8],
    fault: &NameError,
) -> Result<String, AllocError>
    ensures plain { IfOk result (λ text. IsPlainText (string_bytes text)) }
    ensures some { IfOk result (λ text. 0 < length (string_bytes text)) }
{
    let mut line = Line::new();
    line.cite(place.as_bytes());
    line.say(", path ");
    line.number(number);
    line.say(": ");
    tell_name(&mut line, part, fault);
    line.into_text(alloc)
}

/// What of a folder is not taken, what it is, and what can be done about it.
pub fn refused_text(alloc: Global, refused: &Refused) -> Result<String, AllocError>
    ensures plain { IfOk result (λ text. IsPlainText (string_bytes text)) }
    ensures some { IfOk result (λ text. 0 < length (string_bytes text)) }
{
    let mut line = Line::new();
    line.cite(&refused.path);
    match &refused.refusal {
        Refusal::NotUtf8 => line.say(
            " is no text in UTF-8: rename it, or leave it out with --files-from",
        ),
        Refusal::NotRegular(kind) => {
            line.say(words_of_kind(*kind));
            line.say(": leave it out with --files-from");
        }
        Refusal::TooDeep => line.say(" has more than 64 names: leave it out with --files-from"),
        Refusal::Missing => line.say(" is not there"),
        Refusal::System(fault) => say_reason(alloc, &mut line, fault)?,
    }
    line.into_text(alloc)
}

/// Says why the system refused.
fn say_reason(alloc: Global, line: &mut Line, fault: &io::Error) -> Result<(), AllocError>
    ensures { OnOk result (0 < length line.new) }
{
    line.say(": ");
    let reason = format!(in alloc; "{fault}")?;
    line.cite(reason.as_bytes());
    Ok(())
}

fn words_of_kind(kind: OtherKind) -> &'static str
    ensures { IsTrue (begins_plain result.now) }
{
    match kind {
        OtherKind::Link => " is a symbolic link",
        OtherKind::Fifo => " is a FIFO",
        OtherKind::Socket => " is a socket",
        OtherKind::BlockDevice | OtherKind::CharacterDevice => " is a device",
        OtherKind::Folder => " is a folder, and no file",
        OtherKind::Unknown => " is neither a file nor a folder",
    }
}
