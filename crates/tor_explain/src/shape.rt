//! What a value is, and what it has to be.
ghost use Rattle.std.specs.Prelude.{◌<◌, ◌≡◌, false, true, length};

use crate::line::Line;
use tor_bencode::ItemRef;

/// What a value of a torrent is.
#[derive(Clone, Copy, PartialEq, Eq)]
pub(crate) enum Shape {
    Integer,
    Text,
    List,
    Dictionary,
}

impl Shape {
    pub fn of(item: &ItemRef<'_>) -> Shape {
        match item {
            ItemRef::Int(_) => Shape::Integer,
            ItemRef::Bytes(_) => Shape::Text,
            ItemRef::List(_) => Shape::List,
            ItemRef::Dict(_) => Shape::Dictionary,
        }
    }

    pub fn words(self) -> &'static str {
        match self {
            Shape::Integer => "an integer",
            Shape::Text => "a byte string",
            Shape::List => "a list",
            Shape::Dictionary => "a dictionary",
        }
    }
}

/// Tells that the value of a key is not there, or is not what it has to be; nothing if it is. With an empty key, that
/// of what was named before.
pub(crate) fn tell_shape(
    line: &mut Line,
    key: &str,
    found: Option<&ItemRef<'_>>,
    wanted: Shape,
) -> bool
    ensures nothing { result ≡ false → line.new ≡ line.old }
    ensures told { result ≡ true → 0 < length line.new }
{
    let is = match found {
        None => "not there",
        Some(item) if Shape::of(item) == wanted => return false,
        Some(item) => Shape::of(item).words(),
    };
    line.say(key);
    line.say(if key.is_empty() { "" } else { ": " });
    line.say(is);
    line.say(", where ");
    line.say(wanted.words());
    line.say(" has to be");
    true
}
