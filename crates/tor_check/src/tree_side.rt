//! The v2 side of a torrent (BEP 52, "file tree"), judged.
ghost use Rattle.std.specs.Prelude.{◌≡◌, true, None, Err, IfErr, IfOk, OnOk};
ghost use Rattle.tor_bencode.specs.RefView.{view};
ghost use Rattle.tor_check.specs.steps.Judged.{IsFirst};
ghost use Rattle.tor_check.specs.steps.Sides.{first_of_tree, takes_tree};
ghost use Rattle.tor_check.specs.declared.refusal.Refusal.TheVariants.{Memory};
ghost use Rattle.tor_spec.specs.valid.TreeSide.{tree_files};

use crate::refusal::Refusal;
use std::alloc::Global;
use tor_bencode::ItemRef;
use tor_tree::{TreeFile, from_item_ref};

/// The files of the v2 side, or its first fault.
pub fn read_tree(alloc: Global, info: &ItemRef<'_>) -> Result<Vec<TreeFile>, Refusal>
    ensures files { IfOk result (λ files. files.items ≡ tree_files (view info.now)) }
    ensures accepted { OnOk result (first_of_tree (view info.now) ≡ None) }
    ensures refused { IfErr result (IsFirst (first_of_tree (view info.now))) }
    ensures memory { result ≡ Err Memory → takes_tree (view info.now) ≡ true }
{
    let Some(tree) = info.get(b"file tree") else {
        return Err(Refusal::FileShape);
    };
    match from_item_ref(alloc, tree) {
        Ok(files) => Ok(files),
        Err(fault) => Err(Refusal::from(fault)),
    }
}
