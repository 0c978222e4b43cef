//! The files that a file tree describes (BEP 52, "file tree"), before they are judged.
ghost use Rattle.std.specs.Prelude.{◌≡◌, ◌⊎◌, ◌++◌, true, false, map, Err, IfErr, OnOk, [], ◌∷◌};
ghost use Rattle.tor_bencode.specs.Data.{pair, no_pairs};
ghost use Rattle.tor_bencode.specs.RefView.{view};
ghost use Rattle.tor_tree.specs.FileTree.{are_entries, entries_in, entries_of, is_dictionary, is_folder};
ghost use Rattle.tor_tree.specs.FileTree.{takes_memory, takes_memory_in};
ghost use Rattle.tor_tree.specs.Properties.{are_properties};
ghost use Rattle.tor_tree.specs.steps.Reading.{entry_at};
ghost use Rattle.tor_tree.specs.declared.tree_file.TreeFault.TheVariants.{Memory, Shape};

use crate::names::{Name, copy_names};
use crate::paths::FilePath;
use crate::properties::{Properties, read_properties};
use crate::tree_file::TreeFault;
use std::alloc::Global;
use tor_bencode::ItemRef;

/// A file as its tree describes it, before it is judged; it has no path if the tree itself has the empty key.
#[derive(Drop)]
pub struct DescribedFile {
    pub path: Option<FilePath>,
    pub properties: Properties,
}

/// Adds the files of a folder, which the names of `folder` lead to.
#[cycle(walk)]
#[tactic(auto, using(crate::proofs::WalkSteps::walking))]
pub fn add_folder(
    alloc: Global,
    item: &ItemRef<'_>,
    folder: &mut Vec<Name>,
    entries: &mut Vec<DescribedFile>,
) -> Result<(), TreeFault>
    ensures shaped { OnOk result (is_folder (view item.now) ≡ true) }
    ensures added { OnOk result (entries.new.items
        ≡ entries.old.items ++ map (entry_at folder.old.items) (entries_of (view item.now))) }
    ensures folder_stays { OnOk result (folder.new.items ≡ folder.old.items) }
    ensures refused { IfErr result
        (λ fault. ((fault ≡ Shape) × (is_folder (view item.now) ≡ false)) ⊎ (fault ≡ Memory)) }
    ensures no_dictionary { is_dictionary (view item.now) ≡ false → result ≡ Err Shape }
    ensures memory { result ≡ Err Memory → takes_memory (view item.now) ≡ true }
{
    let ItemRef::Dict(pairs) = item else {
        return Err(TreeFault::Shape);
    };
    for (key, value) in pairs {
        add_pair(alloc, key, value, folder, entries)?;
    }
    Ok(())
}

/// Adds the file of an empty key, or the files of the folder that the key names.
#[cycle(walk)]
#[tactic(auto, using(crate::proofs::WalkSteps::walking))]
fn add_pair(
    alloc: Global,
    key: &[u8],
    value: &ItemRef<'_>,
    folder: &mut Vec<Name>,
    entries: &mut Vec<DescribedFile>,
) -> Result<(), TreeFault>
    ensures shaped { OnOk result (are_entries (pair key.now (view value.now) no_pairs) ≡ true) }
    ensures added { OnOk result (entries.new.items
        ≡ entries.old.items ++ map (entry_at folder.old.items) (entries_in (pair key.now (view value.now) no_pairs))) }
    ensures folder_stays { OnOk result (folder.new.items ≡ folder.old.items) }
    ensures refused { IfErr result
        (λ fault. ((fault ≡ Shape) × (are_entries (pair key.now (view value.now) no_pairs) ≡ false))
        ⊎ (fault ≡ Memory)) }
    ensures memory { result ≡ Err Memory → takes_memory_in (pair key.now (view value.now) no_pairs) ≡ true }
{
    if key.is_empty() {
        return add_file(alloc, value, folder, entries);
    }
    folder.push(Name::new(alloc, key)?)?;
    add_folder(alloc, value, folder, entries)?;
    folder.pop();
    Ok(())
}

/// Adds the file with these properties.
fn add_file(
    alloc: Global,
    properties: &ItemRef<'_>,
    folder: &[Name],
    entries: &mut Vec<DescribedFile>,
) -> Result<(), TreeFault>
    ensures shaped { OnOk result (are_properties (view properties.now) ≡ true) }
    ensures added { OnOk result (entries.new.items
        ≡ entries.old.items ++ entry_at folder.now ([], view properties.now) ∷ []) }
    ensures refused { IfErr result
        (λ fault. ((fault ≡ Shape) × (are_properties (view properties.now) ≡ false)) ⊎ (fault ≡ Memory)) }
    ensures memory { result ≡ Err Memory → are_properties (view properties.now) ≡ true }
{
    let Some(properties) = read_properties(properties) else {
        return Err(TreeFault::Shape);
    };
    let path = FilePath::new(copy_names(alloc, folder)?);
    entries.push(DescribedFile { path, properties })?;
    Ok(())
}
