//! The length and the letters of what describes a file (BEP 3, "info dictionary"; BEP 47, "attr").
ghost use Rattle.std.specs.Prelude.{◌≡◌};
ghost use Rattle.tor_bencode.specs.RefView.{view};
ghost use Rattle.tor_check.specs.steps.Listed.{marks_in};

use crate::parts::integer;
use tor_bencode::ItemRef;
use tor_tree::{has_attr, letters_of};

/// What a dictionary says of its file, beside the path.
#[derive(Clone, Copy)]
pub struct Marks {
    pub length: i64,
    pub has_attr: bool,
    pub pad: bool,
    pub link: bool,
    pub exec: bool,
    pub hidden: bool,
}

/// None if the item is no dictionary with an integer `length`, or has an `attr` that is no byte string.
pub fn read_marks(item: &ItemRef<'_>) -> Option<Marks>
    ensures { result ≡ marks_in (view item.now) }
{
    let length = integer(item, b"length")?;
    let letters = letters_of(item)?;
    Some(Marks {
        length,
        has_attr: has_attr(item),
        pad: letters.contains(&b'p'),
        link: letters.contains(&b'l'),
        exec: letters.contains(&b'x'),
        hidden: letters.contains(&b'h'),
    })
}
