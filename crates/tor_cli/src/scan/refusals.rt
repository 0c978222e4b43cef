//! The words for what is refused of a folder.
ghost use Rattle.std.specs.Prelude.{◌≡◌};
ghost use Rattle.tor_cli.specs.scan.Inventory.{kind_word, reason_word, refusal_code, refusal_word};

use std::io::ErrorKind;
use tor_source::{OtherKind, Refusal};

/// The code and the name of a refusal, as `make` has them.
pub fn refusal_code(refusal: &Refusal) -> &'static str
    ensures { result.now ≡ refusal_code refusal.now }
{
    match refusal {
        Refusal::NotUtf8 => "F1 NotUtf8",
        Refusal::NotRegular(_) => "F2 NotRegular",
        Refusal::TooDeep => "F3 TooDeep",
        Refusal::Missing => "E3 Missing",
        Refusal::System(_) => "F4 System",
    }
}

/// What is refused, in a word.
pub fn refusal_word(refusal: &Refusal) -> &'static str
    ensures { result.now ≡ refusal_word refusal.now }
{
    match refusal {
        Refusal::NotUtf8 => "name",
        Refusal::NotRegular(kind) => kind_word(*kind),
        Refusal::TooDeep => "depth",
        Refusal::Missing => "missing",
        Refusal::System(fault) => reason_word(fault.kind()),
    }
}

/// What stands where a file could be taken.
fn kind_word(kind: OtherKind) -> &'static str
    ensures { result.now ≡ kind_word kind }
{
    match kind {
        OtherKind::Link => "link",
        OtherKind::Fifo => "fifo",
        OtherKind::Socket => "socket",
        OtherKind::BlockDevice | OtherKind::CharacterDevice => "device",
        OtherKind::Folder => "folder",
        OtherKind::Unknown => "unknown",
    }
}

/// Why the system refused.
fn reason_word(kind: ErrorKind) -> &'static str
    ensures { result.now ≡ reason_word kind }
{
    match kind {
        ErrorKind::PermissionDenied => "permission",
        ErrorKind::NotFound => "vanished",
        _ => "fault",
    }
}
