//! The value of a key.

ghost use Rattle.std.specs.Prelude.{◌≡◌, option_map};
ghost use Rattle.tor_bencode.specs.Find.{value_of};
ghost use Rattle.tor_bencode.specs.View.{view};

use crate::item::Item;

/// The value of the first pair with the key; none also of an item that is no dictionary.
pub fn find<'a>(item: &'a Item, key: &[u8]) -> Option<&'a Item>
    ensures { option_map (λ found. view found.now) result ≡ value_of key.now (view item.now) }
{
    let Item::Dict(pairs) = item else {
        return None;
    };
    for (name, value) in pairs {
        if name.as_slice() == key {
            return Some(value);
        }
    }
    None
}
