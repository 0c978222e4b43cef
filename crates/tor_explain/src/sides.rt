//! Where the two sides of a hybrid differ: V22, V23, V25.
ghost use Rattle.std.specs.Prelude.{◌<◌, ◌≡◌, ◌≤◌, false, true, length};

use crate::clashes::path_of;
use crate::layers::files_of_tree;
use crate::line::Line;
use crate::list::{entries_of, say_entry};
use crate::properties::{is_padding, length_of, letters_of};
use crate::sums::piece_length_of;
use std::alloc::{AllocError, Global};
use tor_bencode::ItemRef;
use tor_tree::{TreeFile, has_attr};

/// Tells the first file that the other side has not, or not so.
pub(crate) fn tell_differing(
    alloc: Global,
    line: &mut Line,
    info: &ItemRef<'_>,
) -> Result<bool, AllocError>
    ensures nothing { result ≡ Ok false → line.new ≡ line.old }
    ensures told { result ≡ Ok true → 0 < length line.new }
{
    let files = files_of_tree(alloc, info)?;
    let Some(entries) = entries_of(info) else {
        line.say("file tree: it has to have one file alone, of the name and the length in info");
        return Ok(true);
    };
    let mut rest = files.iter();
    'entries: for (index, entry) in entries.iter().enumerate() {
        if is_padding(entry) {
            continue;
        }
        let mut reason = Line::new();
        if tell_other(alloc, &mut reason, entry, rest.next())? {
            say_entry(line, index);
            line.join(&reason);
            return Ok(true);
        }
    }
    Ok(tell_left(line, rest.next()))
}

// Tells that an entry is not the file of the tree that has its place.
fn tell_other(
    alloc: Global,
    line: &mut Line,
    entry: &ItemRef<'_>,
    file: Option<&TreeFile>,
) -> Result<bool, AllocError>
    ensures nothing { result ≡ Ok false → line.new ≡ line.old }
    ensures told { result ≡ Ok true → 0 < length line.new }
{
    let Some(path) = path_of(alloc, entry)? else {
        return Ok(false);
    };
    let size = length_of(entry).unsigned_abs();
    if let Some(file) = file {
        if file.path == path && file.length == size {
            return Ok(false);
        }
    }
    line.cite_path(&path);
    line.say(" of ");
    line.number(size);
    line.say(" bytes, where file tree has ");
    match file {
        Some(file) => {
            line.cite_path(&file.path);
            line.say(" of ");
            line.number(file.length);
            line.say(" bytes");
        }
        None => line.say("no more file"),
    }
    Ok(true)
}

// Tells a file of the tree that no entry is.
fn tell_left(line: &mut Line, file: Option<&TreeFile>) -> bool
    ensures nothing { result ≡ false → line.new ≡ line.old }
    ensures told { result ≡ true → 0 < length line.new }
{
    let Some(file) = file else {
        return false;
    };
    line.say("file tree: ");
    line.cite_path(&file.path);
    line.say(": not in files");
    true
}

/// Tells the first entry that begins at no piece of its own, or that the padding at the end is wrong.
pub(crate) fn tell_alignment(line: &mut Line, info: &ItemRef<'_>) -> bool
    ensures nothing { result ≡ false → line.new ≡ line.old }
    ensures told { result ≡ true → 0 < length line.new }
{
    let Some(entries) = entries_of(info) else {
        return false;
    };
    let piece_length = piece_length_of(info);
    let mut offset: u64 = 0;
    let mut aligned: u64 = 0;
    // Of what comes after the last file that is not empty, and what that file lacks to whole pieces.
    let mut tail: u64 = 0;
    let mut lacking: u64 = 0;
    'entries: for (index, entry) in entries.iter().enumerate() {
        let size = length_of(entry).unsigned_abs();
        if is_padding(entry) || size == 0 {
            tail = tail.saturating_add(size);
        } else {
            if offset != aligned {
                return tell_start(line, index, offset, aligned);
            }
            let whole = size.div_ceil(piece_length).saturating_mul(piece_length);
            aligned = aligned.saturating_add(whole);
            lacking = whole.saturating_sub(size);
            tail = 0;
        }
        offset = offset.saturating_add(size);
    }
    tell_tail(line, tail, lacking)
}

fn tell_start(line: &mut Line, index: usize, offset: u64, aligned: u64) -> bool
    ensures nothing { result ≡ false → line.new ≡ line.old }
    ensures told { result ≡ true → 0 < length line.new }
{
    say_entry(line, index);
    line.say("it begins at byte ");
    line.number(offset);
    line.say(" of all files, where its first piece begins at byte ");
    line.number(aligned);
    true
}

fn tell_tail(line: &mut Line, tail: u64, lacking: u64) -> bool
    ensures nothing { result ≡ false → line.new ≡ line.old }
    ensures told { result ≡ true → 0 < length line.new }
{
    if tail == 0 || tail == lacking {
        return false;
    }
    line.say("files: ");
    line.number(tail);
    line.say(" bytes of padding at the end, where none or ");
    line.number(lacking);
    line.say(" have to be");
    true
}

/// Tells the first file that has other letters on one side.
pub(crate) fn tell_letters(
    alloc: Global,
    line: &mut Line,
    info: &ItemRef<'_>,
) -> Result<bool, AllocError>
    ensures nothing { result ≡ Ok false → line.new ≡ line.old }
    ensures told { result ≡ Ok true → 0 < length line.new }
{
    let files = files_of_tree(alloc, info)?;
    let Some(entries) = entries_of(info) else {
        return Ok(tell_other_letters(line, info, files.first()));
    };
    let mut rest = files.iter();
    'entries: for entry in entries {
        if is_padding(entry) {
            continue;
        }
        if tell_other_letters(line, entry, rest.next()) {
            return Ok(true);
        }
    }
    Ok(false)
}

fn tell_other_letters(line: &mut Line, entry: &ItemRef<'_>, file: Option<&TreeFile>) -> bool
    ensures nothing { result ≡ false → line.new ≡ line.old }
    ensures told { result ≡ true → 0 < length line.new }
{
    let Some(file) = file else {
        return false;
    };
    let letters = letters_of(entry);
    let is_same = letters.contains(&b'x') == file.exec && letters.contains(&b'h') == file.hidden;
    if is_same || !has_attr(entry) || !file.has_attr {
        return false;
    }
    line.say("attr of ");
    line.cite_path(&file.path);
    line.say(": ");
    say_letters(line, letters.contains(&b'x'), letters.contains(&b'h'));
    line.say(" on the v1 side, ");
    say_letters(line, file.exec, file.hidden);
    line.say(" in file tree");
    true
}

fn say_letters(line: &mut Line, exec: bool, hidden: bool)
    ensures { length line.old ≤ length line.new }
{
    line.say(match (exec, hidden) {
        (false, false) => "neither x nor h",
        (true, false) => "x",
        (false, true) => "h",
        (true, true) => "x and h",
    })
}
