//! Reading a file tree (BEP 52, "file tree"), of an item that owns its bytes.
ghost use Rattle.std.specs.Prelude.{◌≡◌, ◌⊎◌, Some, None, true, false, Err, IfOk, IfErr, OnOk};
ghost use Rattle.tor_bencode.specs.View.{pairs_view, view};
ghost use Rattle.tor_tree.specs.FileTree.{files_of_tree, is_dictionary, takes_memory, takes_memory_in, tree_fault};
ghost use Rattle.tor_tree.specs.Properties.{are_properties};
ghost use Rattle.tor_tree.specs.declared.tree_file.TreeFault.TheVariants.{Memory, Shape};

use crate::names::is_name;
use crate::read_tree::from_item_ref;
use crate::tree_file::{TreeFault, TreeFile};
use std::alloc::Global;
use tor_bencode::{Item, find, lend};

/// The files that a file tree describes, in the order of its keys (BEP 52, "file tree").
pub fn from_item(alloc: Global, item: &Item) -> Result<Vec<TreeFile>, TreeFault>
    ensures files { IfOk result (λ files. files.items ≡ files_of_tree (view item.now)) }
    ensures accepted { OnOk result (tree_fault (view item.now) ≡ None) }
    ensures refused { IfErr result (λ fault. (tree_fault (view item.now) ≡ Some fault) ⊎ (fault ≡ Memory)) }
    ensures no_dictionary { is_dictionary (view item.now) ≡ false → result ≡ Err Shape }
    ensures memory { result ≡ Err Memory → takes_memory (view item.now) ≡ true }
{
    let Item::Dict(pairs) = item else {
        return Err(TreeFault::Shape);
    };
    if pairs.is_empty() {
        return Err(TreeFault::Empty);
    }
    if !takes_memory(pairs) {
        return Err(TreeFault::Shape);
    }
    from_item_ref(alloc, &lend(alloc, item)?)
}

/// Whether what is read first of a folder has its shape: the properties of its file, or a name.
fn takes_memory(pairs: &[(Vec<u8>, Item)]) -> bool
    ensures { result ≡ takes_memory_in (pairs_view pairs.now) }
{
    match pairs.first() {
        Some((key, value)) if key.is_empty() => are_properties(value),
        Some((key, _)) => is_name(key),
        None => false,
    }
}

/// Whether it has an integer `length`, and an `attr` that is a byte string or none.
fn are_properties(item: &Item) -> bool
    ensures { result ≡ are_properties (view item.now) }
{
    matches!(find(item, b"length"), Some(Item::Int(_)))
        && matches!(find(item, b"attr"), None | Some(Item::Bytes(_)))
}
