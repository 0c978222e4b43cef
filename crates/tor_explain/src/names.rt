//! Why a name is none.
ghost use Rattle.std.specs.Prelude.{◌<◌, ◌≡◌, false, true, IfOk, length, string_bytes};
ghost use Rattle.tor_explain.specs.Plain.{IsPlainText};

use crate::line::Line;
use std::alloc::{AllocError, Global};
use std::str;
use tor_tree::{Name, NameError};

/// What the name is, why it is refused, and where in it.
pub fn name_text(alloc: Global, word: &[u8], fault: &NameError) -> Result<String, AllocError>
    ensures plain { IfOk result (λ text. IsPlainText (string_bytes text)) }
    ensures some { IfOk result (λ text. 0 < length (string_bytes text)) }
{
    let mut line = Line::new();
    tell_name(&mut line, word, fault);
    line.into_text(alloc)
}

/// Tells why the bytes are no name; nothing if they are one.
pub(crate) fn tell_no_name(alloc: Global, line: &mut Line, word: &[u8]) -> Result<bool, AllocError>
    ensures nothing { result ≡ Ok false → line.new ≡ line.old }
    ensures told { result ≡ Ok true → 0 < length line.new }
{
    match Name::new(alloc, word) {
        Ok(_) => Ok(false),
        Err(NameError::Memory) => Err(AllocError),
        Err(fault) => {
            tell_name(line, word, &fault);
            Ok(true)
        }
    }
}

pub(crate) fn tell_name(line: &mut Line, word: &[u8], fault: &NameError)
    ensures { 0 < length line.new }
{
    if word.is_empty() {
        line.say("the empty name");
    } else {
        line.cite(word);
    }
    line.say(" is refused as ");
    line.say(words_of(fault));
    let place = match fault {
        NameError::Slash => word.iter().position(|byte| *byte == b'/'),
        NameError::Nul => word.iter().position(|byte| *byte == 0),
        NameError::NotUtf8 => first_other(word),
        _ => None,
    };
    if let Some(index) = place {
        line.say(", at its byte ");
        line.number(index as u64);
    }
}

// Where the bytes stop to be UTF-8.
fn first_other(word: &[u8]) -> Option<usize> {
    match str::from_utf8(word) {
        Ok(_) => None,
        Err(error) => Some(error.valid_up_to()),
    }
}

fn words_of(fault: &NameError) -> &'static str {
    match fault {
        NameError::Empty => "N1 Empty: a name has one byte at least",
        NameError::Dot => "N2 Dot: it stands for the folder itself",
        NameError::DotDot => "N3 DotDot: it leads to the folder above",
        NameError::Slash => "N4 Slash: a slash parts the names of a path",
        NameError::Nul => "N5 Nul: no name of a file has a zero byte",
        NameError::NotUtf8 => "N6 NotUtf8: it is no text in UTF-8",
        NameError::Memory => "a name for which there is no memory",
    }
}
