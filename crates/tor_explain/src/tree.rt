//! What is wrong with a file tree, in the order of its keys.
ghost use Rattle.std.specs.Prelude.{◌<◌, ◌≡◌, false, true, length};

use crate::line::Line;
use crate::names::tell_no_name;
use crate::properties::{Question, tell_properties};
use crate::shape::{Shape, tell_shape};
use std::alloc::{AllocError, Global};
use tor_bencode::ItemRef;

/// Tells the first place of a file tree at which the question holds.
pub(crate) fn tell_tree(
    alloc: Global,
    line: &mut Line,
    question: Question,
    info: &ItemRef<'_>,
) -> Result<bool, AllocError>
    ensures nothing { result ≡ Ok false → line.new ≡ line.old }
    ensures told { result ≡ Ok true → 0 < length line.new }
{
    let Some(ItemRef::Dict(pairs)) = info.get(b"file tree") else {
        return Ok(tell_shape(line, "file tree", info.get(b"file tree"), Shape::Dictionary));
    };
    if question == Question::Mixed && has_empty_key(pairs) {
        line.say("file tree: the empty key, where names have to be");
        return Ok(true);
    }
    tell_pairs(alloc, line, question, pairs, &mut Vec::new(alloc))
}

#[cycle(look)]
fn tell_pairs<'t>(
    alloc: Global,
    line: &mut Line,
    question: Question,
    pairs: &Vec<(&'t [u8], ItemRef<'t>)>,
    folder: &mut Vec<&'t [u8]>,
) -> Result<bool, AllocError>
    ensures nothing { result ≡ Ok false → line.new ≡ line.old }
    ensures told { result ≡ Ok true → 0 < length line.new }
{
    'pairs: for (key, value) in pairs {
        if tell_pair(alloc, line, question, key, value, folder)? {
            return Ok(true);
        }
    }
    Ok(false)
}

#[cycle(look)]
fn tell_pair<'t>(
    alloc: Global,
    line: &mut Line,
    question: Question,
    key: &'t [u8],
    value: &ItemRef<'t>,
    folder: &mut Vec<&'t [u8]>,
) -> Result<bool, AllocError>
    ensures nothing { result ≡ Ok false → line.new ≡ line.old }
    ensures told { result ≡ Ok true → 0 < length line.new }
{
    let mut reason = Line::new();
    if key.is_empty() {
        if tell_file(&mut reason, question, value) {
            say_place(line, folder, &reason);
            return Ok(true);
        }
        return Ok(false);
    }
    folder.push(key)?;
    if tell_folder(alloc, &mut reason, question, key, value)? {
        say_place(line, folder, &reason);
        return Ok(true);
    }
    if let ItemRef::Dict(pairs) = value {
        if tell_pairs(alloc, line, question, pairs, folder)? {
            return Ok(true);
        }
    }
    folder.pop();
    Ok(false)
}

// A place of the tree, and what is wrong there.
fn say_place(line: &mut Line, folder: &[&[u8]], reason: &Line)
    ensures { 0 < length line.new }
{
    line.say("file tree: ");
    line.cite_names(folder);
    line.say(": ");
    line.join(reason)
}

// Tells what is wrong with the value of an empty key.
fn tell_file(line: &mut Line, question: Question, file: &ItemRef<'_>) -> bool
    ensures nothing { result ≡ false → line.new ≡ line.old }
    ensures told { result ≡ true → 0 < length line.new }
{
    if question == Question::Shape
        && tell_shape(line, "its properties", Some(file), Shape::Dictionary)
    {
        return true;
    }
    tell_properties(line, question, file)
}

// Tells what is wrong with a key that is not empty, or with its value.
fn tell_folder(
    alloc: Global,
    line: &mut Line,
    question: Question,
    key: &[u8],
    value: &ItemRef<'_>,
) -> Result<bool, AllocError>
    ensures nothing { result ≡ Ok false → line.new ≡ line.old }
    ensures told { result ≡ Ok true → 0 < length line.new }
{
    match question {
        Question::Shape => {
            if tell_no_name(alloc, line, key)? {
                return Ok(true);
            }
            Ok(tell_shape(line, "", Some(value), Shape::Dictionary))
        }
        Question::Mixed => Ok(tell_mixed(line, value)),
        _ => Ok(false),
    }
}

fn tell_mixed(line: &mut Line, value: &ItemRef<'_>) -> bool
    ensures nothing { result ≡ false → line.new ≡ line.old }
    ensures told { result ≡ true → 0 < length line.new }
{
    let ItemRef::Dict(pairs) = value else {
        return false;
    };
    if pairs.len() < 2 || !has_empty_key(pairs) {
        return false;
    }
    line.say("a folder that is a file too");
    true
}

fn has_empty_key(pairs: &Vec<(&[u8], ItemRef<'_>)>) -> bool {
    'pairs: for (key, _) in pairs {
        if key.is_empty() {
            return true;
        }
    }
    false
}
