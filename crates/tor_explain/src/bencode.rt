//! Where bytes stop to be a tree.
ghost use Rattle.std.specs.Prelude.{◌<◌, ◌≤◌, length};

use crate::line::Line;
use tor_bencode::Fault;

/// How many bytes are cited on each side of the one at a fault.
const AROUND: usize = 20;

/// Tells the fault, its offset, and the bytes around it. The byte at the offset stands in brackets.
pub(crate) fn tell_fault(line: &mut Line, bytes: &[u8], fault: Fault, offset: usize)
    ensures { 0 < length line.new }
{
    line.say("byte ");
    line.number(offset as u64);
    line.say(": ");
    line.say(words_of(fault));
    let (before, from) = bytes.split_at(offset.min(bytes.len()));
    line.say(if before.len() > AROUND { ": .." } else { ": " });
    let (_, near) = before.split_at(before.len().saturating_sub(AROUND));
    line.cite_bytes(near);
    match from {
        [] => line.say("[the end]"),
        [byte, after @ ..] => tell_from(line, *byte, after),
    }
}

// The byte at the fault, and some after it.
fn tell_from(line: &mut Line, byte: u8, after: &[u8])
    ensures { length line.old ≤ length line.new }
{
    line.say("[");
    line.cite_bytes(&[byte]);
    line.say("]");
    let (near, _) = after.split_at(after.len().min(AROUND));
    line.cite_bytes(near);
    line.say(if after.len() > AROUND { ".." } else { "" })
}

fn words_of(fault: Fault) -> &'static str {
    match fault {
        Fault::Truncated => "the bytes end before the torrent does",
        Fault::BadByte => "no value begins with this byte",
        Fault::BadInteger => "an integer is not in its shortest form, or does not end with an e",
        Fault::IntegerRange => "an integer does not fit 64 bits",
        Fault::BadLength => {
            "the length of a byte string is not in its shortest form, or does not end with a colon"
        }
        Fault::KeyNotBytes => "a key is no byte string",
        Fault::KeyOrder => "a key is not above the key before it, as raw bytes",
        Fault::TooDeep => "more than 100 lists and dictionaries are open",
        Fault::Trailing => "a byte follows the torrent",
    }
}
