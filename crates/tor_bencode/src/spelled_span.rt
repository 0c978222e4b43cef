//! Where the value of a key of the root is spelled, told by how long what stands before and after it is spelled.
ghost use Rattle.std.specs.Prelude.{◌≡◌, ◌-◌, ◌^◌, length, min};
ghost use Rattle.tor_bencode.specs.RefView.{items_view, pairs_view, view};
ghost use Rattle.tor_bencode.specs.Span.{span_of};
ghost use Rattle.tor_bencode.specs.Spelling.{items_spelling, pairs_spelling, spelling, string_spelling};

use crate::item_ref::ItemRef;
use itoa::Buffer;

/// Start and end of the value of a key in the spelling of the root, which has so many bytes; none if the root is no
/// dictionary or has no such key. The value itself is not looked at.
pub fn span_of_key(root: &ItemRef<'_>, key: &[u8], size: usize) -> Option<(usize, usize)>
    requires { size ≡ length (spelling (view root.now)) }
    ensures { result ≡ span_of key.now (view root.now) }
{
    let ItemRef::Dict(pairs) = root else {
        return None;
    };
    let pairs = pairs.as_slice();
    let mut at: usize = 1;
    'pairs: for i in 0..pairs.len() {
        let (name, value) = &pairs[i];
        let start = at + length_of_text(name);
        if *name == key {
            let (_, later) = pairs.split_at(i + 1);
            return Some((start, size - 1 - length_of_pairs(later)));
        }
        at = start + length_of(value);
    }
    None
}

/// How many bytes the spelling of an item has, or the greatest number of 64 bits.
#[cycle(length)]
fn length_of(item: &ItemRef<'_>) -> usize
    ensures { result ≡ min (2 ^ 64 - 1) (length (spelling (view item.now))) }
{
    match item {
        ItemRef::Int(n) => Buffer::new().format(*n).len() + 2,
        ItemRef::Bytes(bytes) => length_of_text(bytes),
        ItemRef::List(items) => length_of_items(items).saturating_add(2),
        ItemRef::Dict(pairs) => length_of_pairs(pairs).saturating_add(2),
    }
}

fn length_of_text(bytes: &[u8]) -> usize
    ensures { result ≡ min (2 ^ 64 - 1) (length (string_spelling bytes.now)) }
{
    (Buffer::new().format(bytes.len()).len() + 1).saturating_add(bytes.len())
}

#[cycle(length)]
fn length_of_items(items: &[ItemRef<'_>]) -> usize
    ensures { result ≡ min (2 ^ 64 - 1) (length (items_spelling (items_view items.now))) }
{
    let mut count: usize = 0;
    'items: for item in items {
        count = count.saturating_add(length_of(item));
    }
    count
}

#[cycle(length)]
fn length_of_pairs(pairs: &[(&[u8], ItemRef<'_>)]) -> usize
    ensures { result ≡ min (2 ^ 64 - 1) (length (pairs_spelling (pairs_view pairs.now))) }
{
    let mut count: usize = 0;
    'pairs: for (key, value) in pairs {
        count = count
            .saturating_add(length_of_text(key))
            .saturating_add(length_of(value));
    }
    count
}
