//! The keys that conditions speak of.
ghost use Rattle.std.specs.Prelude.{◌≡◌, FitsSigned, IfSome};
ghost use Rattle.std.specs.Int.{w64};
ghost use Rattle.std.specs.Option.{option_copied};
ghost use Rattle.tor_bencode.specs.Find.{value_of};
ghost use Rattle.tor_bencode.specs.RefView.{view};
ghost use Rattle.tor_spec.specs.valid.Parts.{is_number, is_there};
ghost use Rattle.tor_tree.specs.FileTree.{is_dictionary};
ghost use Rattle.tor_tree.specs.Properties.{as_integer, as_string};

use tor_bencode::ItemRef;

/// The value of a key, if it is a byte string.
pub(crate) fn text<'a>(item: &ItemRef<'a>, key: &[u8]) -> Option<&'a [u8]>
    ensures { option_copied result ≡ as_string (value_of key.now (view item.now)) }
{
    match item.get(key)? {
        ItemRef::Bytes(text) => Some(text),
        _ => None,
    }
}

/// The value of a key, if it is an integer.
pub(crate) fn integer(item: &ItemRef<'_>, key: &[u8]) -> Option<i64>
    ensures value { result ≡ as_integer (value_of key.now (view item.now)) }
    ensures fits { IfSome result (FitsSigned w64) }
{
    match item.get(key)? {
        ItemRef::Int(number) => Some(*number),
        _ => None,
    }
}

/// Whether the value of a key is this number.
pub(crate) fn is_number(item: &ItemRef<'_>, key: &[u8], number: u32) -> bool
    ensures { result ≡ is_number number (value_of key.now (view item.now)) }
{
    match item.get(key) {
        Some(ItemRef::Int(value)) => *value == i64::from(number),
        _ => false,
    }
}

/// Whether a key is there.
pub(crate) fn is_there(item: &ItemRef<'_>, key: &[u8]) -> bool
    ensures { result ≡ is_there key.now (view item.now) }
{
    item.get(key).is_some()
}

pub(crate) fn is_dictionary(item: &ItemRef<'_>) -> bool
    ensures { result ≡ is_dictionary (view item.now) }
{
    matches!(item, ItemRef::Dict(_))
}
