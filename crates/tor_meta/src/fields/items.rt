//! The parts of a torrent's dictionaries as bencode items.
ghost use Rattle.std.specs.Prelude.{◌≡◌, ◌<◌, ◌≤◌, ◌^◌, ◌∷◌, ◌++◌, [], All, ℕ, List, pos, codes, map, IfOk, OnOk};
ghost use Rattle.std.specs.Prelude.{Option, option_map};
ghost use Rattle.tor_bencode.specs.Data.{Data, dictionary, integer, string};
ghost use Rattle.tor_bencode.specs.View.{pairs_view, view};
ghost use Rattle.tor_spec.specs.Dictionary.{present, when};
ghost use Rattle.tor_spec.specs.FilesList.{attr_of, entry_dictionary, files_list, strings};
ghost use Rattle.tor_spec.specs.PieceLayers.{joined};
ghost use Rattle.tor_tree.specs.Letters.{letters};

use std::alloc::{AllocError, Global};
use tor_bencode::Item;
use tor_merkle::Hash;
use tor_tree::{Attr, Name};
use tor_v1::Entry;

/// A byte string of these bytes, which it keeps.
pub(crate) fn string(bytes: Vec<u8>) -> Item
    ensures { view result ≡ string bytes.items }
{
    Item::Bytes(bytes)
}

/// A byte string of these bytes.
pub(crate) fn text(alloc: Global, bytes: &[u8]) -> Result<Item, AllocError>
    ensures { IfOk result (λ item. view item ≡ string bytes.now) }
{
    Ok(Item::Bytes(Vec::from_slice(alloc, bytes)?))
}

/// The number as an integer.
pub(crate) fn number(n: u64) -> Item
    requires { n < 2 ^ 63 }
    ensures { view result ≡ integer (pos n) }
{
    Item::Int(n as i64)
}

/// The dictionary of these pairs, which it keeps.
pub(crate) fn dictionary(pairs: Vec<(Vec<u8>, Item)>) -> Item
    ensures { view result ≡ dictionary (pairs_view pairs.items) }
{
    Item::Dict(pairs)
}

/// Puts a field behind the others, if it has a value.
pub(crate) fn push_field(
    alloc: Global,
    pairs: &mut Vec<(Vec<u8>, Item)>,
    key: &str,
    value: Option<Item>,
) -> Result<(), AllocError>
    ensures { (fields : List (List ℕ × Option Data)) → pairs_view pairs.old.items ≡ present fields →
        OnOk result (pairs_view pairs.new.items ≡ present (fields ++ (key.now, option_map view value) ∷ [])) }
{
    let Some(value) = value else {
        return Ok(());
    };
    let key = Vec::from_slice(alloc, key.as_bytes())?;
    pairs.push((key, value))?;
    Ok(())
}

/// The entries of the `files` of BEP 3.
pub(crate) fn files(alloc: Global, entries: &[Entry]) -> Result<Item, AllocError>
    requires { All (λ entry. entry.length < 2 ^ 63) entries.now }
    ensures { IfOk result (λ item. view item ≡ files_list entries.now) }
{
    let mut items = Vec::with_capacity(alloc, entries.len())?;
    for entry in entries {
        items.push(file(alloc, entry)?)?;
    }
    Ok(Item::List(items))
}

/// One of them.
fn file(alloc: Global, entry: &Entry) -> Result<Item, AllocError>
    requires { entry.now.length < 2 ^ 63 }
    ensures { IfOk result (λ item. view item ≡ entry_dictionary entry.now) }
{
    let mut pairs = Vec::new(alloc);
    push_field(alloc, &mut pairs, "attr", attr_of(alloc, entry)?)?;
    push_field(alloc, &mut pairs, "length", Some(number(entry.length)))?;
    let path = path(alloc, entry.path.names())?;
    push_field(alloc, &mut pairs, "path", Some(path))?;
    Ok(dictionary(pairs))
}

/// What `attr` says of it (BEP 47), if it says anything.
fn attr_of(alloc: Global, entry: &Entry) -> Result<Option<Item>, AllocError>
    ensures { IfOk result (λ item. option_map view item ≡ option_map string (attr_of entry.now)) }
{
    if entry.pad {
        return Ok(Some(text(alloc, b"p")?));
    }
    let attr = Attr {
        exec: entry.exec,
        hidden: entry.hidden,
    };
    letters(alloc, attr)
}

/// The letters of a file, if it has any.
pub(crate) fn letters(alloc: Global, attr: Attr) -> Result<Option<Item>, AllocError>
    ensures { IfOk result (λ item. option_map view item ≡ option_map string (letters attr)) }
{
    match attr.letters() {
        Some(letters) => Ok(Some(text(alloc, letters)?)),
        None => Ok(None),
    }
}

/// The names of a path.
fn path(alloc: Global, names: &[Name]) -> Result<Item, AllocError>
    ensures { IfOk result (λ item. view item ≡ strings names.now) }
{
    let mut items = Vec::with_capacity(alloc, names.len())?;
    for name in names {
        items.push(text(alloc, name.as_bytes())?)?;
    }
    Ok(Item::List(items))
}

/// Hashes, one after another.
pub(crate) fn joined_hashes(alloc: Global, hashes: &[Hash]) -> Result<Vec<u8>, AllocError>
    ensures { IfOk result (λ bytes. bytes.items ≡ joined hashes.now) }
{
    let mut bytes = Vec::new(alloc);
    for hash in hashes {
        bytes.extend_from_slice(hash)?;
    }
    Ok(bytes)
}
