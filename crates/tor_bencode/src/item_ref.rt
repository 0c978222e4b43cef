//! Bencode values whose byte strings lie in the bytes that were read (BEP 3, "bencoding").

ghost use Rattle.std.specs.Prelude.{◌≡◌, ◌<◌, ℕ, IfErr, IfOk, None, Some, length, slice_get, slice_index_or};
ghost use Rattle.std.specs.Borrow.{Bor};
ghost use Rattle.std.specs.Cmp.Lexicographic.{slice_cmp};
ghost use Rattle.std.specs.Ordering.{nat_cmp};
ghost use Rattle.std.specs.Prelude.{List};
ghost use Rattle.tor_bencode.specs.Data.{keys_of};
ghost use Rattle.tor_bencode.specs.Find.{value_in};
ghost use Rattle.tor_bencode.specs.Lawful.{AreRising};
ghost use Rattle.tor_bencode.specs.RefView.{pairs_view, view};
ghost use Rattle.tor_bencode.specs.declared.item_ref.ItemRef.{ItemRef};

use std::cmp::Ordering;

/// A bencode value that borrows its byte strings. Pairs stand in the order in which they are spelled.
#[derive(Debug, Drop)]
pub enum ItemRef<'a> {
    Int(i64),
    Bytes(&'a [u8]),
    List(Vec<ItemRef<'a>>),
    Dict(Vec<(&'a [u8], ItemRef<'a>)>),
}

impl<'a> ItemRef<'a> {
    ghost use Rattle.std.specs.Prelude.{◌≡◌, Some, IfSome, length, option_map, slice_get};
    ghost use Rattle.tor_bencode.specs.Find.{keys_in, value_of};
    ghost use Rattle.tor_bencode.specs.Lawful.{HasRisingKeys};
    ghost use Rattle.tor_bencode.specs.RefView.{view};

    /// The value of the first pair with the key; none also of an item that is no dictionary.
    pub fn get(&self, key: &[u8]) -> Option<&ItemRef<'a>>
        ensures { option_map (λ found. view found.now) result ≡ value_of key.now (view self.now) }
    {
        let ItemRef::Dict(pairs) = self else {
            return None;
        };
        for (name, value) in pairs {
            if *name == key {
                return Some(value);
            }
        }
        None
    }

    /// The index of the pair with the key, and the value, looked for by halving, of an item whose keys rise; none also
    /// of an item that is no dictionary.
    pub fn get_in_order(&self, key: &[u8]) -> Option<(usize, &ItemRef<'a>)>
        requires { HasRisingKeys (view self.now) }
        ensures value { option_map (λ found. view found.1.now) result ≡ value_of key.now (view self.now) }
        ensures index { IfSome result (λ found. slice_get (keys_in (view self.now)) found.0 ≡ Some key.now) }
    {
        let ItemRef::Dict(pairs) = self else {
            return None;
        };
        match index_of_key(pairs, key) {
            Ok(index) => Some((index, &pairs[index].1)),
            Err(_) => None,
        }
    }

    /// How many keys it has that is a dictionary; none of another.
    pub fn count_keys(&self) -> usize
        ensures { result ≡ length (keys_in (view self.now)) }
    {
        match self {
            ItemRef::Dict(pairs) => pairs.len(),
            _ => 0,
        }
    }
}

/// Where a key stands among rising ones; or else where it would.
fn index_of_key(pairs: &[(&[u8], ItemRef<'_>)], key: &[u8]) -> Result<usize, usize>
    requires { AreRising (keys_of (pairs_view pairs.now)) }
    ensures within { IfOk result (λ index. index < length pairs.now) }
    ensures found { IfOk result (λ index. (d : Bor (List ℕ) × ItemRef) →
        value_in key.now (pairs_view pairs.now) ≡ Some (view (slice_index_or pairs.now index d).1)) }
    ensures named { IfOk result (λ index. slice_get (keys_of (pairs_view pairs.now)) index ≡ Some key.now) }
    ensures absent { IfErr result (λ _. value_in key.now (pairs_view pairs.now) ≡ None) }
{
    pairs.binary_search_by(|pair| order_of_name(pair, key))
}

/// How the name of a pair compares with a key, byte by byte.
fn order_of_name(pair: &(&[u8], ItemRef<'_>), key: &[u8]) -> Ordering
    ensures { result ≡ slice_cmp nat_cmp pair.now.0.now key.now }
{
    pair.0.cmp(key)
}
