//! Items that own their bytes, of items that borrow them, and the other way round.
ghost use Rattle.std.specs.Prelude.{◌≡◌, ℤ, IfOk, IsOk};
ghost use Rattle.tor_bencode.specs.Data.{integer};
ghost use Rattle.tor_bencode.specs.RefView.{view as view_of_ref, items_view as items_of_refs};
ghost use Rattle.tor_bencode.specs.RefView.{pairs_view as pairs_of_refs};
ghost use Rattle.tor_bencode.specs.View.{view, items_view, pairs_view};

use crate::item::Item;
use crate::item_ref::ItemRef;
use std::alloc::{AllocError, Global};

/// The same value, with bytes of its own.
#[cycle(own)]
pub(crate) fn own(alloc: Global, item: &ItemRef<'_>) -> Result<Item, AllocError>
    ensures same { IfOk result (λ owned. view owned ≡ view_of_ref item.now) }
    ensures memory { (n : ℤ) → view_of_ref item.now ≡ integer n → IsOk result }
{
    match item {
        ItemRef::Int(n) => Ok(Item::Int(*n)),
        ItemRef::Bytes(bytes) => Ok(Item::Bytes(Vec::from_slice(alloc, bytes)?)),
        ItemRef::List(items) => Ok(Item::List(own_items(alloc, items)?)),
        ItemRef::Dict(pairs) => Ok(Item::Dict(own_pairs(alloc, pairs)?)),
    }
}

#[cycle(own)]
fn own_items(alloc: Global, items: &Vec<ItemRef<'_>>) -> Result<Vec<Item>, AllocError>
    ensures { IfOk result (λ owned. items_view owned.items ≡ items_of_refs items.now.items) }
{
    let mut owned = Vec::with_capacity(alloc, items.len())?;
    'items: for item in items {
        owned.push(own(alloc, item)?)?;
    }
    Ok(owned)
}

#[cycle(own)]
fn own_pairs(
    alloc: Global,
    pairs: &Vec<(&[u8], ItemRef<'_>)>,
) -> Result<Vec<(Vec<u8>, Item)>, AllocError>
    ensures { IfOk result (λ owned. pairs_view owned.items ≡ pairs_of_refs pairs.now.items) }
{
    let mut owned = Vec::with_capacity(alloc, pairs.len())?;
    'pairs: for (key, value) in pairs {
        owned.push((Vec::from_slice(alloc, key)?, own(alloc, value)?))?;
    }
    Ok(owned)
}

/// The same value, with the bytes of the item.
#[cycle(lend)]
pub fn lend<'a>(alloc: Global, item: &'a Item) -> Result<ItemRef<'a>, AllocError>
    ensures { IfOk result (λ lent. view_of_ref lent ≡ view item.now) }
{
    match item {
        Item::Int(n) => Ok(ItemRef::Int(*n)),
        Item::Bytes(bytes) => Ok(ItemRef::Bytes(bytes.as_slice())),
        Item::List(items) => Ok(ItemRef::List(lend_items(alloc, items)?)),
        Item::Dict(pairs) => Ok(ItemRef::Dict(lend_pairs(alloc, pairs)?)),
    }
}

#[cycle(lend)]
fn lend_items<'a>(alloc: Global, items: &'a Vec<Item>) -> Result<Vec<ItemRef<'a>>, AllocError>
    ensures { IfOk result (λ lent. items_of_refs lent.items ≡ items_view items.now.items) }
{
    let mut lent = Vec::with_capacity(alloc, items.len())?;
    'items: for item in items {
        lent.push(lend(alloc, item)?)?;
    }
    Ok(lent)
}

#[cycle(lend)]
fn lend_pairs<'a>(
    alloc: Global,
    pairs: &'a Vec<(Vec<u8>, Item)>,
) -> Result<Vec<(&'a [u8], ItemRef<'a>)>, AllocError>
    ensures { IfOk result (λ lent. pairs_of_refs lent.items ≡ pairs_view pairs.now.items) }
{
    let mut lent = Vec::with_capacity(alloc, pairs.len())?;
    'pairs: for (key, value) in pairs {
        lent.push((key.as_slice(), lend(alloc, value)?))?;
    }
    Ok(lent)
}
