//! The spelling of a tree, written into one vector.

ghost use Rattle.std.specs.Prelude.{◌≡◌, ◌++◌, codes, IfOk, OnOk, IsOkUnless};
ghost use Rattle.tor_bencode.specs.Spelling.{signed_base_ten, spelling, string_spelling, items_spelling};
ghost use Rattle.tor_bencode.specs.Spelling.{pairs_spelling};
ghost use Rattle.tor_bencode.specs.View.{view, items_view, pairs_view};

use crate::error::BenError;
use crate::item::Item;
use crate::tree::Tree;
use itoa::Buffer;
use std::alloc::{AllocError, Global};

/// The one spelling of a tree (BEP 3, "bencoding").
pub fn encode(alloc: Global, tree: &Tree) -> Result<Vec<u8>, BenError>
    ensures spelled { IfOk result (λ bytes. bytes.items ≡ spelling (view tree.now)) }
    ensures memory { IsOkUnless result BenError.Memory }
{
    let mut out = Vec::new(alloc);
    write_item(tree.item(), &mut out)?;
    Ok(out)
}

#[cycle(write)]
fn write_item(item: &Item, out: &mut Vec<u8>) -> Result<(), AllocError>
    ensures { OnOk result (out.new.items ≡ out.old.items ++ spelling (view item.now)) }
{
    match item {
        Item::Int(n) => write_integer(*n, out),
        Item::Bytes(bytes) => write_string(bytes, out),
        Item::List(items) => write_list(items, out),
        Item::Dict(pairs) => write_dictionary(pairs, out),
    }
}

fn write_integer(n: i64, out: &mut Vec<u8>) -> Result<(), AllocError>
    ensures { OnOk result (out.new.items ≡ out.old.items ++ (codes "i" ++ signed_base_ten n ++ codes "e")) }
{
    out.push(b'i')?;
    out.extend_from_slice(Buffer::new().format(n).as_bytes())?;
    out.push(b'e')?;
    Ok(())
}

fn write_string(bytes: &[u8], out: &mut Vec<u8>) -> Result<(), AllocError>
    ensures { OnOk result (out.new.items ≡ out.old.items ++ string_spelling bytes.now) }
{
    out.extend_from_slice(Buffer::new().format(bytes.len()).as_bytes())?;
    out.push(b':')?;
    out.extend_from_slice(bytes)
}

#[cycle(write)]
fn write_list(items: &Vec<Item>, out: &mut Vec<u8>) -> Result<(), AllocError>
    ensures { OnOk result (out.new.items
        ≡ out.old.items ++ (codes "l" ++ items_spelling (items_view items.now.items) ++ codes "e")) }
{
    out.push(b'l')?;
    for item in items {
        write_item(item, out)?;
    }
    out.push(b'e')?;
    Ok(())
}

#[cycle(write)]
fn write_dictionary(pairs: &Vec<(Vec<u8>, Item)>, out: &mut Vec<u8>) -> Result<(), AllocError>
    ensures { OnOk result (out.new.items
        ≡ out.old.items ++ (codes "d" ++ pairs_spelling (pairs_view pairs.now.items) ++ codes "e")) }
{
    out.push(b'd')?;
    for (key, value) in pairs {
        write_string(key, out)?;
        write_item(value, out)?;
    }
    out.push(b'e')?;
    Ok(())
}
