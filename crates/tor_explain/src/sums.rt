//! What is wrong with all files of a v1 side together: V13, V15.
ghost use Rattle.std.specs.Prelude.{◌<◌, ◌≡◌, false, true, length};

use crate::line::Line;
use crate::list::entries_of;
use crate::properties::length_of;
use crate::shape::{Shape, tell_shape};
use tor_bencode::ItemRef;

/// Tells that the files are too large together.
pub(crate) fn tell_large(line: &mut Line) -> bool
    ensures nothing { result ≡ false → line.new ≡ line.old }
    ensures told { result ≡ true → 0 < length line.new }
{
    line.say(
        "the lengths of all files together: above 4611686018427387904, each rounded up to a GiB",
    );
    true
}

/// Tells that `pieces` has not 20 bytes for each piece.
pub(crate) fn tell_pieces(line: &mut Line, info: &ItemRef<'_>) -> bool
    ensures nothing { result ≡ false → line.new ≡ line.old }
    ensures told { result ≡ true → 0 < length line.new }
{
    let Some(ItemRef::Bytes(sums)) = info.get(b"pieces") else {
        return tell_shape(line, "pieces", info.get(b"pieces"), Shape::Text);
    };
    line.say("pieces: ");
    line.number(sums.len() as u64);
    line.say(" bytes, where 20 for each of ");
    line.number(total_of(info).div_ceil(piece_length_of(info)));
    line.say(" pieces have to be");
    true
}

// How many bytes all entries have, or the one file.
fn total_of(info: &ItemRef<'_>) -> u64 {
    let Some(entries) = entries_of(info) else {
        return length_of(info).unsigned_abs();
    };
    let mut total: u64 = 0;
    for entry in entries {
        total = total.saturating_add(length_of(entry).unsigned_abs());
    }
    total
}

/// The piece length; 1 if it is no such number.
pub(crate) fn piece_length_of(info: &ItemRef<'_>) -> u64
    ensures { 0 < result }
{
    match info.get(b"piece length") {
        Some(ItemRef::Int(length)) => length.unsigned_abs().max(1),
        _ => 1,
    }
}
