//! What is wrong with the length and the letters of a file, on either side.
ghost use Rattle.std.specs.Prelude.{◌<◌, ◌≡◌, false, true, length};

use crate::line::Line;
use crate::shape::{Shape, tell_shape};
use tor_bencode::ItemRef;

/// The greatest length of a file, in bytes.
const MAX_LENGTH: i64 = 1 << 50;

/// What is looked for.
#[derive(Clone, Copy, PartialEq, Eq)]
pub(crate) enum Question {
    /// What has not its shape: V8.
    Shape,
    /// A length below 0: V9.
    Length,
    /// A length above the greatest: V13.
    TooLarge,
    /// An `l` among the letters: V14.
    Symlink,
    /// A folder that is a file too: V16.
    Mixed,
    /// A file without a root: V17.
    Root,
}

/// Tells what is wrong with what describes a file.
pub(crate) fn tell_properties(line: &mut Line, question: Question, file: &ItemRef<'_>) -> bool
    ensures nothing { result ≡ false → line.new ≡ line.old }
    ensures told { result ≡ true → 0 < length line.new }
{
    match question {
        Question::Shape => tell_misshaped(line, file),
        Question::Length => tell_length(line, file, length_of(file) < 0, "below 0"),
        Question::TooLarge => {
            let is_large = length_of(file) > MAX_LENGTH;
            tell_length(line, file, is_large, "above 1125899906842624")
        }
        Question::Symlink => tell_link(line, file),
        Question::Root => tell_no_root(line, file),
        Question::Mixed => false,
    }
}

fn tell_misshaped(line: &mut Line, file: &ItemRef<'_>) -> bool
    ensures nothing { result ≡ false → line.new ≡ line.old }
    ensures told { result ≡ true → 0 < length line.new }
{
    if tell_shape(line, "length", file.get(b"length"), Shape::Integer) {
        return true;
    }
    match file.get(b"attr") {
        None => false,
        letters => tell_shape(line, "attr", letters, Shape::Text),
    }
}

fn tell_length(line: &mut Line, file: &ItemRef<'_>, is_wrong: bool, how: &str) -> bool
    ensures nothing { result ≡ false → line.new ≡ line.old }
    ensures told { result ≡ true → 0 < length line.new }
{
    if !is_wrong {
        return false;
    }
    line.say("length: ");
    line.signed(length_of(file));
    line.say(", which is ");
    line.say(how);
    true
}

fn tell_link(line: &mut Line, file: &ItemRef<'_>) -> bool
    ensures nothing { result ≡ false → line.new ≡ line.old }
    ensures told { result ≡ true → 0 < length line.new }
{
    let letters = letters_of(file);
    if !letters.contains(&b'l') {
        return false;
    }
    line.say("attr: ");
    line.cite(letters);
    line.say(", whose l is a symbolic link");
    true
}

fn tell_no_root(line: &mut Line, file: &ItemRef<'_>) -> bool
    ensures nothing { result ≡ false → line.new ≡ line.old }
    ensures told { result ≡ true → 0 < length line.new }
{
    if length_of(file) <= 0 {
        return false;
    }
    let Some(ItemRef::Bytes(root)) = file.get(b"pieces root") else {
        return tell_shape(line, "pieces root", file.get(b"pieces root"), Shape::Text);
    };
    if root.len() == 32 {
        return false;
    }
    line.say("pieces root: ");
    line.number(root.len() as u64);
    line.say(" bytes, where 32 have to be");
    true
}

/// The `length`; 0 if it is no integer.
pub(crate) fn length_of(file: &ItemRef<'_>) -> i64 {
    match file.get(b"length") {
        Some(ItemRef::Int(length)) => *length,
        _ => 0,
    }
}

/// The letters of `attr`; none if it is no byte string.
pub(crate) fn letters_of<'t>(file: &ItemRef<'t>) -> &'t [u8] {
    match file.get(b"attr") {
        Some(ItemRef::Bytes(letters)) => letters,
        _ => b"",
    }
}

/// Whether an entry of `files` is padding.
pub(crate) fn is_padding(file: &ItemRef<'_>) -> bool {
    letters_of(file).contains(&b'p')
}
