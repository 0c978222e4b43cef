//! What is wrong with the root, or with a key of `info` that all torrents have: V2 to V7.
ghost use Rattle.std.specs.Prelude.{◌<◌, ◌≡◌, false, true, length};

use crate::line::Line;
use crate::names::tell_no_name;
use crate::shape::{Shape, tell_shape};
use std::alloc::{AllocError, Global};
use tor_bencode::ItemRef;

pub(crate) fn tell_root(line: &mut Line, root: &ItemRef<'_>) -> bool
    ensures nothing { result ≡ false → line.new ≡ line.old }
    ensures told { result ≡ true → 0 < length line.new }
{
    tell_shape(line, "the root", Some(root), Shape::Dictionary)
}

pub(crate) fn tell_info(line: &mut Line, root: &ItemRef<'_>) -> bool
    ensures nothing { result ≡ false → line.new ≡ line.old }
    ensures told { result ≡ true → 0 < length line.new }
{
    tell_shape(line, "info", root.get(b"info"), Shape::Dictionary)
}

pub(crate) fn tell_meta_version(line: &mut Line, info: &ItemRef<'_>) -> bool
    ensures nothing { result ≡ false → line.new ≡ line.old }
    ensures told { result ≡ true → 0 < length line.new }
{
    match info.get(b"meta version") {
        None => false,
        Some(ItemRef::Int(version)) => {
            line.say("meta version: ");
            line.signed(*version);
            line.say(", where 2 has to be");
            true
        }
        Some(other) => tell_shape(line, "meta version", Some(other), Shape::Integer),
    }
}

pub(crate) fn tell_piece_length(line: &mut Line, info: &ItemRef<'_>) -> bool
    ensures nothing { result ≡ false → line.new ≡ line.old }
    ensures told { result ≡ true → 0 < length line.new }
{
    let Some(ItemRef::Int(length)) = info.get(b"piece length") else {
        return tell_shape(
            line,
            "piece length",
            info.get(b"piece length"),
            Shape::Integer,
        );
    };
    line.say("piece length: ");
    line.signed(*length);
    line.say(if has_v2(info) {
        ", where a power of two from 16384 to 1073741824 has to be"
    } else {
        ", where a number from 1 to 1073741824 has to be"
    });
    true
}

/// Whether a torrent has a v2 side.
pub(crate) fn has_v2(info: &ItemRef<'_>) -> bool {
    info.get(b"meta version").is_some()
}

/// Whether a torrent has a v1 side.
pub(crate) fn has_v1(info: &ItemRef<'_>) -> bool {
    !has_v2(info) || info.get(b"pieces").is_some()
}

pub(crate) fn tell_own_name(
    alloc: Global,
    line: &mut Line,
    info: &ItemRef<'_>,
) -> Result<bool, AllocError>
    ensures nothing { result ≡ Ok false → line.new ≡ line.old }
    ensures told { result ≡ Ok true → 0 < length line.new }
{
    let Some(ItemRef::Bytes(name)) = info.get(b"name") else {
        return Ok(tell_shape(line, "name", info.get(b"name"), Shape::Text));
    };
    let mut reason = Line::new();
    if !tell_no_name(alloc, &mut reason, name)? {
        return Ok(false);
    }
    line.say("name: ");
    line.join(&reason);
    Ok(true)
}

pub(crate) fn tell_length_and_files(line: &mut Line, info: &ItemRef<'_>) -> bool
    ensures nothing { result ≡ false → line.new ≡ line.old }
    ensures told { result ≡ true → 0 < length line.new }
{
    line.say(if info.get(b"length").is_some() {
        "info: length and files are both there, where one of them has to be"
    } else {
        "info: neither length nor files is there, where one of them has to be"
    });
    true
}
