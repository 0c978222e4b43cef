//! Items that may stand in a torrent.

ghost use Rattle.std.specs.Prelude.{◌≡◌, ◌↔◌, IsTrue, IsOk, IfOk, IfErr};
ghost use Rattle.tor_bencode.specs.Data.{keys_of};
ghost use Rattle.tor_bencode.specs.Lawful.{AreRising, IsLawful, IsLawfulWithin, ItemsAreLawfulWithin};
ghost use Rattle.tor_bencode.specs.Lawful.{PairsAreLawfulWithin};
ghost use Rattle.tor_bencode.specs.View.{view, items_view, pairs_view};

use crate::MAX_NESTING;
use crate::item::Item;
use crate::order::comes_before;
use std::marker::Model;

/// An item that may stand in a torrent: the keys of each dictionary strictly rise as raw bytes,
/// and at most 100 lists and dictionaries are open at once.
#[derive(Debug, Drop)]
pub struct Tree {
    item: Item,
}

impl Model for Tree {
    ghost use Rattle.std.specs.Coded.{codes};
    ghost use Rattle.tor_bencode.specs.contracts.item.Item as item_contract;
    ghost use Rattle.tor_bencode.specs.declared.item.Item.{Item};
    ghost use Rattle.tor_bencode.specs.Lawful.{IsLawful};
    ghost use Rattle.tor_bencode.specs.View.{view as view_of_item};

    ghost Value = { Item };

    ghost coded = { Prim.hlevel (codes, item_contract.the_row.coded) };

    ghost view = { λ tree. tree.item };

    ghost invariant = { λ tree. IsLawful (view_of_item tree.item) };
}

impl Tree {
    /// The tree of a lawful item, or else the item itself. It takes no memory.
    pub fn of(item: Item) -> Result<Tree, Item>
        ensures lawful { IsOk result ↔ IsLawful (view item) }
        ensures kept { IfOk result (λ tree. tree ≡ item) }
        ensures handed_back { IfErr result (λ refused. refused ≡ item) }
    {
        if is_lawful(&item, MAX_NESTING) {
            Ok(Tree { item })
        } else {
            Err(item)
        }
    }

    /// The tree of an item that is known to be lawful.
    pub(crate) fn known(item: Item) -> Tree
        requires { IsLawful (view item) }
        ensures { result ≡ item }
    {
        Tree { item }
    }

    /// The item that the tree holds.
    pub fn item(&self) -> &Item
        ensures same { result.now ≡ self.now }
        ensures lawful { IsLawful (view self.now) }
    {
        &self.item
    }
}

#[cycle(lawful)]
fn is_lawful(item: &Item, room: usize) -> bool
    ensures { IsTrue result ↔ IsLawfulWithin room (view item.now) }
{
    match item {
        Item::Int(n) => {
            // A number that is read is known to be one of 64 bits.
            let _known = *n;
            true
        }
        Item::Bytes(_) => true,
        Item::List(items) => room > 0 && all_are_lawful(items, room - 1),
        Item::Dict(pairs) => room > 0 && keys_rise(pairs) && values_are_lawful(pairs, room - 1),
    }
}

#[cycle(lawful)]
fn all_are_lawful(items: &Vec<Item>, room: usize) -> bool
    ensures { IsTrue result ↔ ItemsAreLawfulWithin room (items_view items.now.items) }
{
    for item in items {
        if !is_lawful(item, room) {
            return false;
        }
    }
    true
}

#[cycle(lawful)]
fn values_are_lawful(pairs: &Vec<(Vec<u8>, Item)>, room: usize) -> bool
    ensures { IsTrue result ↔ PairsAreLawfulWithin room (pairs_view pairs.now.items) }
{
    for (_, value) in pairs {
        if !is_lawful(value, room) {
            return false;
        }
    }
    true
}

/// Whether each key comes before the next one.
fn keys_rise(pairs: &[(Vec<u8>, Item)]) -> bool
    ensures { IsTrue result ↔ AreRising (keys_of (pairs_view pairs.now)) }
{
    for i in 1..pairs.len() {
        let (before, _) = &pairs[i - 1];
        let (key, _) = &pairs[i];
        if !comes_before(before, key) {
            return false;
        }
    }
    true
}
