//! What is wrong with the files of a v1 side, entry by entry.
ghost use Rattle.std.specs.Prelude.{◌<◌, ◌≡◌, false, true, length};

use crate::line::Line;
use crate::names::tell_no_name;
use crate::properties::{Question, is_padding, tell_properties};
use crate::shape::{Shape, tell_shape};
use std::alloc::{AllocError, Global};
use tor_bencode::ItemRef;

/// The entries of `files`, if it is a list.
pub(crate) fn entries_of<'i, 't>(info: &'i ItemRef<'t>) -> Option<&'i Vec<ItemRef<'t>>> {
    match info.get(b"files") {
        Some(ItemRef::List(entries)) => Some(entries),
        _ => None,
    }
}

/// Tells the first file of which the question holds: an entry of `files`, or the one file beside `length`.
pub(crate) fn tell_list(
    alloc: Global,
    line: &mut Line,
    question: Question,
    info: &ItemRef<'_>,
) -> Result<bool, AllocError>
    ensures nothing { result ≡ Ok false → line.new ≡ line.old }
    ensures told { result ≡ Ok true → 0 < length line.new }
{
    let Some(files) = info.get(b"files") else {
        return Ok(tell_properties(line, question, info));
    };
    let ItemRef::List(entries) = files else {
        return Ok(tell_shape(line, "files", Some(files), Shape::List));
    };
    'entries: for (index, entry) in entries.iter().enumerate() {
        let mut reason = Line::new();
        if tell_entry(alloc, &mut reason, question, entry)? {
            say_entry(line, index);
            line.join(&reason);
            return Ok(true);
        }
    }
    Ok(false)
}

/// Names an entry of `files`.
pub(crate) fn say_entry(line: &mut Line, index: usize)
    ensures { 0 < length line.new }
{
    line.say("files, entry ");
    line.number(index as u64);
    line.say(": ")
}

fn tell_entry(
    alloc: Global,
    line: &mut Line,
    question: Question,
    entry: &ItemRef<'_>,
) -> Result<bool, AllocError>
    ensures nothing { result ≡ Ok false → line.new ≡ line.old }
    ensures told { result ≡ Ok true → 0 < length line.new }
{
    if question != Question::Shape {
        return Ok(tell_properties(line, question, entry));
    }
    if tell_shape(line, "", Some(entry), Shape::Dictionary)
        || tell_properties(line, question, entry)
    {
        return Ok(true);
    }
    if is_padding(entry) {
        return Ok(false);
    }
    tell_path(alloc, line, entry.get(b"path"))
}

// Tells why a path is none.
fn tell_path(alloc: Global, line: &mut Line, path: Option<&ItemRef<'_>>) -> Result<bool, AllocError>
    ensures nothing { result ≡ Ok false → line.new ≡ line.old }
    ensures told { result ≡ Ok true → 0 < length line.new }
{
    let Some(ItemRef::List(names)) = path else {
        return Ok(tell_shape(line, "path", path, Shape::List));
    };
    if names.is_empty() {
        line.say("path: an empty list, where one name at least has to be");
        return Ok(true);
    }
    'names: for name in names {
        let mut reason = Line::new();
        if tell_step(alloc, &mut reason, name)? {
            line.say("path, ");
            line.join(&reason);
            return Ok(true);
        }
    }
    Ok(false)
}

// Tells why a name of a path is none.
fn tell_step(alloc: Global, line: &mut Line, name: &ItemRef<'_>) -> Result<bool, AllocError>
    ensures nothing { result ≡ Ok false → line.new ≡ line.old }
    ensures told { result ≡ Ok true → 0 < length line.new }
{
    match name {
        ItemRef::Bytes(bytes) => tell_no_name(alloc, line, bytes),
        other => Ok(tell_shape(line, "a name", Some(other), Shape::Text)),
    }
}

/// Tells that no entry is a file.
pub(crate) fn tell_no_entry(line: &mut Line, info: &ItemRef<'_>) -> bool
    ensures nothing { result ≡ false → line.new ≡ line.old }
    ensures told { result ≡ true → 0 < length line.new }
{
    let Some(entries) = entries_of(info) else {
        return false;
    };
    'entries: for entry in entries {
        if !is_padding(entry) {
            return false;
        }
    }
    line.say("files: no entry is a file, where one at least has to be");
    true
}
