//! The files of the v1 side (BEP 3, "info dictionary"; BEP 47), as they are read before they are judged.
ghost use Rattle.std.specs.Prelude.{◌≡◌, ◌⊎◌, true, false, Err, IfErr, IfOk, OnOk, Some, codes, map};
ghost use Rattle.std.specs.List.{list_all, list_any};
ghost use Rattle.tor_bencode.specs.Find.{value_of};
ghost use Rattle.tor_bencode.specs.Data.{list};
ghost use Rattle.tor_bencode.specs.RefView.{items_view, view};
ghost use Rattle.tor_check.specs.steps.Listed.{listed_entry, lists_some, takes_path};
ghost use Rattle.tor_check.specs.declared.refusal.Refusal.TheVariants.{FileShape, Memory};
ghost use Rattle.tor_spec.specs.valid.ListSide.{is_name, is_no_entry, is_path, names_of};
ghost use Rattle.tor_spec.specs.valid.Parts.{items_in, part, text_of};

use crate::marks::{Marks, read_marks};
use crate::refusal::Refusal;
use std::alloc::Global;
use tor_bencode::ItemRef;
use tor_tree::{FilePath, Name, NameError};

/// A file of the v1 side, or padding, which has no path of its own.
#[derive(Drop)]
pub struct Listed {
    pub path: Option<FilePath>,
    pub marks: Marks,
}

/// The entries of the list `files`.
pub fn read_list_of(alloc: Global, entries: &[ItemRef<'_>]) -> Result<Vec<Listed>, Refusal>
    ensures read { IfOk result (λ listed. listed.items ≡ map listed_entry (items_in (items_view entries.now))) }
    ensures shaped { OnOk result (list_any is_no_entry (items_in (items_view entries.now)) ≡ false) }
    ensures refused { IfErr result (λ refusal. ((refusal ≡ FileShape)
        × (list_any is_no_entry (items_in (items_view entries.now)) ≡ true)) ⊎ (refusal ≡ Memory)) }
{
    read_entries(alloc, entries)
}

/// Entries, one by one.
#[tactic(auto, using(crate::proofs::ListSteps::some_one, crate::proofs::ListSteps::none_more))]
fn read_entries(alloc: Global, entries: &[ItemRef<'_>]) -> Result<Vec<Listed>, Refusal>
    ensures read { IfOk result (λ listed. listed.items ≡ map listed_entry (map view entries.now)) }
    ensures shaped { OnOk result (list_any is_no_entry (map view entries.now) ≡ false) }
    ensures refused { IfErr result (λ refusal.
        ((refusal ≡ FileShape) × (list_any is_no_entry (map view entries.now) ≡ true)) ⊎ (refusal ≡ Memory)) }
{
    let mut listed = Vec::with_capacity(alloc, entries.len())?;
    'entries: for entry in entries {
        match read_entry(alloc, entry, last_names(&listed)) {
            Ok(file) => listed.push(file)?,
            Err(refusal) => return Err(refusal),
        }
    }
    Ok(listed)
}

/// The names of the last file, with which the next one may share some; none if there is none, or it is padding.
fn last_names(listed: &[Listed]) -> &[Name] {
    match listed.last() {
        Some(
            Listed {
                path: Some(path),
                ..
            },
        ) => path.names(),
        _ => &[],
    }
}

/// An entry of `files`, after one of these names.
fn read_entry(alloc: Global, entry: &ItemRef<'_>, before: &[Name]) -> Result<Listed, Refusal>
    ensures read { IfOk result (λ listed. listed ≡ listed_entry (view entry.now)) }
    ensures shaped { OnOk result (is_no_entry (view entry.now) ≡ false) }
    ensures refused { IfErr result (λ refusal.
        ((refusal ≡ FileShape) × (is_no_entry (view entry.now) ≡ true)) ⊎ (refusal ≡ Memory)) }
    ensures memory { result ≡ Err Memory → takes_path (view entry.now) ≡ true }
{
    let Some(marks) = read_marks(entry) else {
        return Err(Refusal::FileShape);
    };
    if marks.pad {
        return Ok(Listed { path: None, marks });
    }
    match read_path(alloc, entry, before) {
        Ok(path) => Ok(Listed {
            path: Some(path),
            marks,
        }),
        Err(refusal) => Err(refusal),
    }
}

/// The path of an entry.
fn read_path(alloc: Global, entry: &ItemRef<'_>, before: &[Name]) -> Result<FilePath, Refusal>
    ensures read { IfOk result (λ path. path ≡ names_of (part (codes "path") (view entry.now))) }
    ensures shaped { OnOk result (is_path (value_of (codes "path") (view entry.now)) ≡ true) }
    ensures refused { IfErr result (λ refusal.
        ((refusal ≡ FileShape) × (is_path (value_of (codes "path") (view entry.now)) ≡ false)) ⊎ (refusal ≡ Memory)) }
    ensures memory { result ≡ Err Memory → lists_some (part (codes "path") (view entry.now)) ≡ true }
{
    match entry.get(b"path") {
        Some(ItemRef::List(texts)) => path_of(alloc, texts, before),
        _ => Err(Refusal::FileShape),
    }
}

/// The path of these names, at least one.
fn path_of(alloc: Global, texts: &[ItemRef<'_>], before: &[Name]) -> Result<FilePath, Refusal>
    ensures read { IfOk result (λ path. path ≡ names_of (list (items_view texts.now))) }
    ensures shaped { OnOk result (is_path (Some (list (items_view texts.now))) ≡ true) }
    ensures refused { IfErr result (λ refusal.
        ((refusal ≡ FileShape) × (is_path (Some (list (items_view texts.now))) ≡ false)) ⊎ (refusal ≡ Memory)) }
    ensures memory { result ≡ Err Memory → lists_some (list (items_view texts.now)) ≡ true }
{
    if texts.is_empty() {
        return Err(Refusal::FileShape);
    }
    match read_names(alloc, texts, before) {
        Ok(names) => match FilePath::new(names) {
            Some(path) => Ok(path),
            None => unreachable!(),
        },
        Err(refusal) => Err(refusal),
    }
}

/// The names of a path. One that stands at its place in `before` too shares its bytes.
#[tactic(auto, using(crate::proofs::ListSteps::not_all, crate::proofs::ListSteps::all_more))]
fn read_names(alloc: Global, texts: &[ItemRef<'_>], before: &[Name]) -> Result<Vec<Name>, Refusal>
    ensures read { IfOk result (λ names. names.items ≡ map text_of (map view texts.now)) }
    ensures shaped { OnOk result (list_all is_name (map view texts.now) ≡ true) }
    ensures refused { IfErr result (λ refusal.
        ((refusal ≡ FileShape) × (list_all is_name (map view texts.now) ≡ false)) ⊎ (refusal ≡ Memory)) }
{
    let mut names = Vec::with_capacity(alloc, texts.len())?;
    'texts: for text in texts {
        match read_name(alloc, text, before.get(names.len())) {
            Ok(name) => names.push(name)?,
            Err(refusal) => return Err(refusal),
        }
    }
    Ok(names)
}

/// A name of a path, a copy of the one before if that has the same bytes.
fn read_name(alloc: Global, text: &ItemRef<'_>, before: Option<&Name>) -> Result<Name, Refusal>
    ensures read { IfOk result (λ name. name ≡ text_of (view text.now)) }
    ensures shaped { OnOk result (is_name (view text.now) ≡ true) }
    ensures refused { IfErr result (λ refusal. ((refusal ≡ FileShape) × (is_name (view text.now) ≡ false))
        ⊎ ((refusal ≡ Memory) × (is_name (view text.now) ≡ true))) }
{
    let ItemRef::Bytes(bytes) = text else {
        return Err(Refusal::FileShape);
    };
    if let Some(name) = before
        && name.as_bytes() == *bytes
    {
        return Ok(name.copy(alloc)?);
    }
    match Name::new(alloc, bytes) {
        Ok(name) => Ok(name),
        Err(NameError::Memory) => Err(Refusal::Memory),
        Err(_) => Err(Refusal::FileShape),
    }
}
