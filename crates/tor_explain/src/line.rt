//! A text in the making, of one line.
ghost use Rattle.std.specs.Prelude.{◌≡◌};
ghost use Rattle.tor_explain.specs.Plain.{is_control};

use arrayvec::ArrayString;
use itoa::Buffer;
use std::alloc::{AllocError, Global};
use std::marker::Model;

/// How many bytes a text has at most; what does not fit is left out.
pub const MAX_TEXT: usize = 1024;

/// How many bytes of a name or a path are cited, before two dots stand for the rest.
pub(crate) const MAX_CITED: usize = 240;

/// A text without control bytes, of at most `MAX_TEXT` bytes, for which no memory is asked before it is handed out.
/// Contracts see its bytes.
#[derive(Drop)]
pub(crate) struct Line {
    text: ArrayString<MAX_TEXT>,
}

impl Model for Line {
    ghost use Rattle.std.specs.Prelude.{ℕ, List};
    ghost use Rattle.tor_explain.specs.Plain.{IsPlainText};

    ghost Value = { List ℕ };

    ghost view = { λ line. line.text.bytes };

    ghost invariant = { λ line. IsPlainText line.text.bytes };
}

impl Line {
    ghost use Rattle.std.specs.Prelude.{◌<◌, ◌≡◌, ◌≤◌, [], false, IfOk, IsTrue, length, string_bytes};
    ghost use Rattle.tor_explain.specs.Plain.{IsPlainText, begins_plain, is_control};

    /// An empty text.
    pub fn new() -> Line
        ensures { result ≡ [] }
    {
        Line {
            text: ArrayString::new(),
        }
    }

    /// The text.
    pub fn into_text(self, alloc: Global) -> Result<String, AllocError>
        ensures same { IfOk result (λ text. string_bytes text ≡ self) }
        ensures plain { IfOk result (λ text. IsPlainText (string_bytes text)) }
    {
        String::from_str(alloc, self.text.as_str())
    }

    /// How many bytes it has.
    pub fn len(&self) -> usize {
        self.text.len()
    }

    /// Adds a character, but for one that is a control byte or does not fit.
    pub fn add(&mut self, c: char)
        ensures longer { length self.old ≤ length self.new }
        ensures said { is_control c ≡ false → 0 < length self.new }
    {
        if is_control(c) || self.text.len() > MAX_TEXT - 4 {
            return;
        }
        let _ = self.text.try_push(c);
    }

    /// Adds words of this program's own, which are of ASCII.
    pub fn say(&mut self, words: &str)
        ensures longer { length self.old ≤ length self.new }
        ensures said { IsTrue (begins_plain words.now) → 0 < length self.new }
    {
        'words: for byte in words.as_bytes() {
            self.add(*byte as char);
        }
    }

    /// Adds another text.
    pub fn join(&mut self, other: &Line)
        ensures longer { length self.old ≤ length self.new }
        ensures said { 0 < length other.now → 0 < length self.new }
    {
        if other.text.len() <= self.text.remaining_capacity() {
            self.text.push_str(other.text.as_str());
            return;
        }
        'characters: for c in other.text.as_str().chars() {
            self.add(c);
        }
    }

    /// Adds a number.
    pub fn number(&mut self, n: u64)
        ensures { length self.old ≤ length self.new }
    {
        self.say(Buffer::new().format(n));
    }

    /// Adds a number with its sign.
    pub fn signed(&mut self, n: i64)
        ensures { length self.old ≤ length self.new }
    {
        self.say(Buffer::new().format(n));
    }
}

/// Whether a character is a control byte.
pub(crate) fn is_control(c: char) -> bool
    ensures { result ≡ is_control c }
{
    matches!(c, '\0'..='\x1f' | '\x7f')
}
