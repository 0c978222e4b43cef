//! Where the value of a key of the root is spelled, found without memory: the values before it are skipped.

ghost use Rattle.std.specs.Prelude.{◌≡◌, ◌<◌, ◌∷◌, ◌++◌, List, ℕ, length, IfSome, IsSomeAnd};
ghost use Rattle.tor_bencode.specs.Data.{Data, Items};
ghost use Rattle.tor_bencode.specs.Lawful.{IsLawful, IsLawfulWithin, ItemsAreLawfulWithin};
ghost use Rattle.tor_bencode.specs.Marks.{letter_e};
ghost use Rattle.tor_bencode.specs.Span.{IsTree, span_of};
ghost use Rattle.tor_bencode.specs.Spelling.{spelling, items_spelling};

use crate::MAX_NESTING;
use crate::token::{integer, string};

/// Start and end of the raw bytes of a value of the root dictionary; none if the root is no
/// dictionary or has no such key. The bytes spell a tree, and no memory is taken.
pub fn span(bytes: &[u8], key: &[u8]) -> Option<(usize, usize)>
    requires { IsTree bytes.now }
    ensures { (d : Data) → IsLawful d → bytes.now ≡ spelling d → result ≡ span_of key.now d }
{
    let [b'd', inside @ ..] = bytes else {
        return None;
    };
    let mut rest = inside;
    'pairs: loop {
        let Ok((name, after)) = string(rest) else {
            return None;
        };
        let Some(next) = skip(after, MAX_NESTING - 1) else {
            return None;
        };
        if name == key {
            return Some((bytes.len() - after.len(), bytes.len() - next.len()));
        }
        rest = next;
    }
}

/// What follows a value, if it opens `room` lists and dictionaries at most.
#[cycle(skip)]
fn skip<'a>(bytes: &'a [u8], room: usize) -> Option<&'a [u8]>
    ensures skipped { (d : Data) (after : List ℕ) → IsLawfulWithin room d → bytes.now ≡ spelling d ++ after
        → IsSomeAnd result (λ rest. rest.now ≡ after) }
    ensures shorter { IfSome result (λ rest. length rest.now < length bytes.now) }
{
    match bytes {
        [] => None,
        [b'i', rest @ ..] => match integer(bytes, rest) {
            Ok((_, after)) => Some(after),
            Err(_) => None,
        },
        [b'0'..=b'9', ..] => match string(bytes) {
            Ok((_, after)) => Some(after),
            Err(_) => None,
        },
        [b'l' | b'd', rest @ ..] => {
            if room == 0 {
                return None;
            }
            skip_all(rest, room - 1)
        }
        _ => None,
    }
}

/// What follows values, one after the other, and the `e` after them. Keys are values here.
#[cycle(skip)]
fn skip_all<'a>(bytes: &'a [u8], room: usize) -> Option<&'a [u8]>
    ensures skipped { (items : Items) (after : List ℕ) → ItemsAreLawfulWithin room items
        → bytes.now ≡ items_spelling items ++ letter_e ∷ after → IsSomeAnd result (λ rest. rest.now ≡ after) }
    ensures shorter { IfSome result (λ rest. length rest.now < length bytes.now) }
{
    let mut rest = bytes;
    'values: loop {
        match rest {
            [] => return None,
            [b'e', after @ ..] => return Some(after),
            _ => {}
        }
        rest = skip(rest, room)?;
    }
}
