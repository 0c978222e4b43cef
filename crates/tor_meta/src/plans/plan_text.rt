//! A plan as bytes.
ghost use Rattle.std.specs.Prelude.{◌≡◌, ◌<◌, ◌^◌, ◌∷◌, ◌++◌, [], ℕ, All, IfOk, List, OnOk, Option, length, map};
ghost use Rattle.std.specs.Prelude.{option_map, pos};
ghost use Rattle.std.specs.List.{flat_map};
ghost use Rattle.tor_bencode.specs.Data.{Data, integer, list, string};
ghost use Rattle.tor_bencode.specs.View.{items_of, pairs_view, view};
ghost use Rattle.tor_meta.specs.Head.{settings_of};
ghost use Rattle.tor_meta.specs.PlanText.{file_items, kind_text, letters_text, path_text, plan_bytes};
ghost use Rattle.tor_meta.specs.PlanText.{plan_dictionary};
ghost use Rattle.tor_meta.specs.steps.PlanText.{fields_before_name, fields_from_name, text_of};
ghost use Rattle.tor_spec.specs.Dictionary.{present, when};
ghost use Rattle.tor_tree.specs.FileList.{files_with_attrs};

use crate::fields::items::{dictionary, number, push_field, text};
use crate::head::Head;
use std::alloc::{AllocError, Global};
use tor_bencode::{BenError, Item, Tree, encode};
use tor_tree::{Attr, FilePath, Kind, Name};

/// The bytes of a plan: the bencode of one dictionary (BEP 3, "bencoding").
#[tactic(auto, unfolding(crate::specs::PlanText::plan_bytes))]
pub(crate) fn plan_bytes(
    alloc: Global,
    head: &Head,
    span: u32,
    files: &[(FilePath, u64)],
    attrs: &[Attr],
) -> Result<Vec<u8>, AllocError>
    requires piece_length { head.now.piece_length < 2 ^ 63 }
    requires one_each { length attrs.now ≡ length files.now }
    requires small { All (λ file. file.1 < 2 ^ 63) files.now }
    ensures { IfOk result (λ bytes. bytes.items ≡ plan_bytes (text_of head.now span files.now attrs.now)) }
{
    let tree = tree_of(alloc, head, span, files, attrs)?;
    match encode(alloc, &tree) {
        Ok(bytes) => Ok(bytes),
        Err(BenError::Memory) => Err(AllocError),
        Err(BenError::Refused { .. }) => unreachable!(),
    }
}

/// The tree of a plan.
fn tree_of(
    alloc: Global,
    head: &Head,
    span: u32,
    files: &[(FilePath, u64)],
    attrs: &[Attr],
) -> Result<Tree, AllocError>
    requires piece_length { head.now.piece_length < 2 ^ 63 }
    requires one_each { length attrs.now ≡ length files.now }
    requires small { All (λ file. file.1 < 2 ^ 63) files.now }
    ensures { IfOk result (λ tree. view tree ≡ plan_dictionary (text_of head.now span files.now attrs.now)) }
{
    let mut pairs = Vec::new(alloc);
    push_before_name(alloc, &mut pairs, head, files, attrs)?;
    push_from_name(alloc, &mut pairs, head, span)?;
    match Tree::of(dictionary(pairs)) {
        Ok(tree) => Ok(tree),
        Err(_) => unreachable!(),
    }
}

/// The fields up to `kind`.
fn push_before_name(
    alloc: Global,
    pairs: &mut Vec<(Vec<u8>, Item)>,
    head: &Head,
    files: &[(FilePath, u64)],
    attrs: &[Attr],
) -> Result<(), AllocError>
    requires one_each { length attrs.now ≡ length files.now }
    requires small { All (λ file. file.1 < 2 ^ 63) files.now }
    ensures { (fields : List (List ℕ × Option Data)) → pairs_view pairs.old.items ≡ present fields →
        OnOk result (pairs_view pairs.new.items ≡ present (fields
        ++ fields_before_name (settings_of head.now) (record { files = files.now; attrs = attrs.now }))) }
{
    push_field(alloc, pairs, "announce", url(alloc, &head.announce)?)?;
    push_field(alloc, pairs, "files", Some(file_list(alloc, files, attrs)?))?;
    let kind = text(alloc, kind_text(head.kind))?;
    push_field(alloc, pairs, "kind", Some(kind))
}

/// The fields from `name` on.
fn push_from_name(
    alloc: Global,
    pairs: &mut Vec<(Vec<u8>, Item)>,
    head: &Head,
    span: u32,
) -> Result<(), AllocError>
    requires { head.now.piece_length < 2 ^ 63 }
    ensures { (fields : List (List ℕ × Option Data)) → pairs_view pairs.old.items ≡ present fields →
        OnOk result (pairs_view pairs.new.items ≡ present (fields ++ fields_from_name (settings_of head.now) span)) }
{
    let name = text(alloc, head.name.as_bytes())?;
    push_field(alloc, pairs, "name", Some(name))?;
    let piece_length = number(head.piece_length);
    push_field(alloc, pairs, "piece length", Some(piece_length))?;
    push_field(alloc, pairs, "private", flag(head.is_private))?;
    push_field(alloc, pairs, "single", flag(head.single))?;
    push_field(alloc, pairs, "span", Some(number(u64::from(span))))?;
    push_field(alloc, pairs, "tail", flag(head.tail))
}

/// A flag: 1 if it is set.
fn flag(set: bool) -> Option<Item>
    ensures { option_map view result ≡ when set (integer (pos 1)) }
{
    set.then_some(number(1))
}

/// The tracker's URL, if there is one.
fn url(alloc: Global, url: &Option<Vec<u8>>) -> Result<Option<Item>, AllocError>
    ensures { IfOk result (λ item.
        option_map view item ≡ option_map string (option_map (λ bytes. bytes.items) url.now)) }
{
    match url {
        Some(url) => Ok(Some(text(alloc, url)?)),
        None => Ok(None),
    }
}

/// The word for a kind.
fn kind_text(kind: Kind) -> &'static [u8]
    ensures { result.now ≡ kind_text kind }
{
    match kind {
        Kind::V1 => b"v1",
        Kind::V2 => b"v2",
        Kind::Hybrid => b"hybrid",
    }
}

/// The files as one list, three items each.
fn file_list(alloc: Global, files: &[(FilePath, u64)], attrs: &[Attr]) -> Result<Item, AllocError>
    requires one_each { length attrs.now ≡ length files.now }
    requires small { All (λ file. file.1 < 2 ^ 63) files.now }
    ensures { IfOk result (λ item. view item ≡ list (items_of
        (flat_map file_items (files_with_attrs (record { files = files.now; attrs = attrs.now }))))) }
{
    let mut items = Vec::with_capacity(alloc, files.len())?;
    'files: for (index, (path, length)) in files.iter().enumerate() {
        let letters = letters_text(attrs[index]);
        push_file(alloc, &mut items, path, *length, letters)?;
    }
    Ok(list(items))
}

/// The list of these items, which it keeps.
fn list(items: Vec<Item>) -> Item
    ensures { view result ≡ list (items_of (map view items.items)) }
{
    Item::List(items)
}

/// Puts the three items of a file behind the others.
fn push_file(
    alloc: Global,
    items: &mut Vec<Item>,
    path: &FilePath,
    length: u64,
    letters: &[u8],
) -> Result<(), AllocError>
    requires { length < 2 ^ 63 }
    ensures { OnOk result (map view items.new.items ≡ map view items.old.items
        ++ string letters.now ∷ integer (pos length) ∷ string (path_text path.now) ∷ []) }
{
    items.push(text(alloc, letters)?)?;
    items.push(number(length))?;
    items.push(Item::Bytes(path_text(alloc, path.names())?))?;
    Ok(())
}

/// The letters of a file; no byte if it has none.
fn letters_text(attr: Attr) -> &'static [u8]
    ensures { result.now ≡ letters_text attr }
{
    attr.letters().unwrap_or(b"")
}

/// The names of a path, `/` between each two.
fn path_text(alloc: Global, names: &[Name]) -> Result<Vec<u8>, AllocError>
    ensures { IfOk result (λ bytes. bytes.items ≡ path_text names.now) }
{
    let mut bytes = Vec::new(alloc);
    'names: for (index, name) in names.iter().enumerate() {
        if index > 0 {
            bytes.push(b'/')?;
        }
        bytes.extend_from_slice(name.as_bytes())?;
    }
    Ok(bytes)
}
