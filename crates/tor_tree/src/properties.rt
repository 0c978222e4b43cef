//! A file's properties in a file tree (BEP 52, "file tree").
ghost use Rattle.std.specs.Prelude.{◌≡◌, codes, FitsSigned, IfSome};
ghost use Rattle.std.specs.Int.{w64};
ghost use Rattle.std.specs.Option.{option_copied};
ghost use Rattle.tor_bencode.specs.Find.{value_of};
ghost use Rattle.tor_bencode.specs.RefView.{view};
ghost use Rattle.tor_tree.specs.Properties.{as_integer, has_attr, letters_of};
ghost use Rattle.tor_tree.specs.steps.Reading.{facts_of, hash_of};

use tor_bencode::ItemRef;
use tor_merkle::Hash;

/// What the properties of a file say, before they are judged.
#[derive(Drop)]
pub struct Properties {
    pub length: i64,
    pub root: Option<Hash>,
    pub has_attr: bool,
    pub link: bool,
    pub exec: bool,
    pub hidden: bool,
}

/// None if the item is no dictionary with an integer `length`, or has an `attr` that is no byte string.
pub fn read_properties(item: &ItemRef<'_>) -> Option<Properties>
    ensures { result ≡ facts_of (view item.now) }
{
    let length = length_of(item)?;
    let letters = letters_of(item)?;
    Some(Properties {
        length,
        root: hash_of(item),
        has_attr: has_attr(item),
        link: letters.contains(&b'l'),
        exec: letters.contains(&b'x'),
        hidden: letters.contains(&b'h'),
    })
}

/// The `length`, if it is an integer.
fn length_of(item: &ItemRef<'_>) -> Option<i64>
    ensures value { result ≡ as_integer (value_of (codes "length") (view item.now)) }
    ensures fits { IfSome result (FitsSigned w64) }
{
    match item.get(b"length")? {
        ItemRef::Int(length) => Some(*length),
        _ => None,
    }
}

/// Whether `attr` is there.
pub fn has_attr(item: &ItemRef<'_>) -> bool
    ensures { result ≡ has_attr (view item.now) }
{
    item.get(b"attr").is_some()
}

/// The letters of `attr` (BEP 47), none of them if it is absent; None if it is no byte string.
pub fn letters_of<'a>(item: &ItemRef<'a>) -> Option<&'a [u8]>
    ensures { option_copied result ≡ letters_of (view item.now) }
{
    match item.get(b"attr") {
        None => Some(b""),
        Some(ItemRef::Bytes(letters)) => Some(letters),
        Some(_) => None,
    }
}

/// The `pieces root`, if it is a byte string of 32 bytes.
fn hash_of(item: &ItemRef<'_>) -> Option<Hash>
    ensures { result ≡ hash_of (view item.now) }
{
    let ItemRef::Bytes(root) = item.get(b"pieces root")? else {
        return None;
    };
    Hash::try_from(*root).ok()
}
