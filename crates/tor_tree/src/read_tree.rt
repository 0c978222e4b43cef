//! Reading a file tree (BEP 52, "file tree"), of an item that borrows its bytes.
ghost use Rattle.std.specs.Prelude.{◌≡◌, ◌⊎◌, Some, None, unsigned_abs, int_lt, pos, map, true, false, Err, IfOk};
ghost use Rattle.std.specs.Prelude.{IfErr};
ghost use Rattle.std.specs.Prelude.{OnOk, All, IsSome, IsOkUnless};
ghost use Rattle.std.specs.List.{list_any};
ghost use Rattle.tor_bencode.specs.RefView.{view};
ghost use Rattle.tor_tree.specs.FileList.{lengths_too_large};
ghost use Rattle.tor_tree.specs.FileTree.{files_of_tree, is_dictionary, takes_memory, tree_fault};
ghost use Rattle.tor_tree.specs.steps.Reading.{entries_fault, file_from, misses_root};
ghost use Rattle.tor_tree.specs.declared.tree_file.TreeFault.TheVariants.{Memory, Shape};

use crate::entries::{DescribedFile, add_folder};
use crate::lists::with_length;
use crate::mixed::mixes;
use crate::tree_file::{TreeFault, TreeFile};
use std::alloc::Global;
use tor_bencode::ItemRef;

/// The files that a file tree describes, in the order of its keys (BEP 52, "file tree").
pub fn from_item_ref(alloc: Global, item: &ItemRef<'_>) -> Result<Vec<TreeFile>, TreeFault>
    ensures files { IfOk result (λ files. files.items ≡ files_of_tree (view item.now)) }
    ensures accepted { OnOk result (tree_fault (view item.now) ≡ None) }
    ensures refused { IfErr result (λ fault. (tree_fault (view item.now) ≡ Some fault) ⊎ (fault ≡ Memory)) }
    ensures no_dictionary { is_dictionary (view item.now) ≡ false → result ≡ Err Shape }
    ensures memory { result ≡ Err Memory → takes_memory (view item.now) ≡ true }
{
    let mut entries = Vec::new(alloc);
    add_folder(alloc, item, &mut Vec::new(alloc), &mut entries)?;
    match fault_of(&entries, mixes(item)) {
        Some(fault) => Err(fault),
        None => files_of(alloc, entries),
    }
}

/// The first fault, past that of the shape, of the entries of a tree that mixes files and folders or not.
fn fault_of(entries: &[DescribedFile], mixes: bool) -> Option<TreeFault>
    ensures { result ≡ entries_fault entries.now mixes }
{
    if has_negative_length(entries) {
        return Some(TreeFault::Length);
    }
    if entries.is_empty() {
        return Some(TreeFault::Empty);
    }
    if is_too_large(entries) {
        return Some(TreeFault::TooLarge);
    }
    if has_link(entries) {
        return Some(TreeFault::Symlink);
    }
    if mixes {
        return Some(TreeFault::Mixed);
    }
    if lacks_root(entries) {
        return Some(TreeFault::Root);
    }
    None
}

fn has_negative_length(entries: &[DescribedFile]) -> bool
    ensures { result ≡ list_any (λ entry. int_lt entry.properties.length (pos 0)) entries.now }
{
    entries.iter().any(|entry| entry.properties.length < 0)
}

fn has_link(entries: &[DescribedFile]) -> bool
    ensures { result ≡ list_any (λ entry. entry.properties.link) entries.now }
{
    entries.iter().any(|entry| entry.properties.link)
}

/// Whether a file that is not empty has no root.
fn lacks_root(entries: &[DescribedFile]) -> bool
    ensures { result ≡ list_any misses_root entries.now }
{
    entries.iter().any(|entry| entry.properties.length.unsigned_abs() > 0
        && entry.properties.root.is_none())
}

/// Whether a length is too large, or all of them together are.
fn is_too_large(entries: &[DescribedFile]) -> bool
    ensures { result ≡ lengths_too_large (map (λ entry. unsigned_abs entry.properties.length) entries.now) }
{
    let mut total = 0;
    for entry in entries {
        match with_length(total, entry.properties.length.unsigned_abs()) {
            Some(sum) => total = sum,
            None => return true,
        }
    }
    false
}

/// The files of entries in which no fault was found.
fn files_of(alloc: Global, entries: Vec<DescribedFile>) -> Result<Vec<TreeFile>, TreeFault>
    requires { All (λ entry. IsSome entry.path) entries.items }
    ensures made { IfOk result (λ files. files.items ≡ map file_from entries.items) }
    ensures memory { IsOkUnless result TreeFault.Memory }
{
    let mut files = Vec::with_capacity(alloc, entries.len())?;
    for DescribedFile { path, properties } in entries {
        let length = properties.length.unsigned_abs();
        files.push(TreeFile {
            path: path.unwrap(),
            length,
            root: if length == 0 { None } else { properties.root },
            has_attr: properties.has_attr,
            exec: properties.exec,
            hidden: properties.hidden,
        })?;
    }
    Ok(files)
}
