//! The sides of a torrent, judged together: one condition is looked for in both before the next.
ghost use Rattle.std.specs.Prelude.{◌≡◌, ◌<◌, true, None, Err, IfErr, IfOk, OnOk, Option};
ghost use Rattle.tor_bencode.specs.RefView.{view};
ghost use Rattle.tor_check.specs.steps.Judged.{IsFirst};
ghost use Rattle.tor_check.specs.steps.Sides.{AreSidesOf, earlier_refusal, earliest, files_if, first_of_both, list_if};
ghost use Rattle.tor_check.specs.steps.Sides.{listed_if, takes_sides, takes_tree, tree_if};
ghost use Rattle.tor_check.specs.steps.Listed.{takes_files};
ghost use Rattle.tor_check.specs.declared.refusal.Refusal.TheVariants.{Memory};
ghost use Rattle.tor_spec.specs.valid.Conditions.{Condition, of_list, of_tree};
ghost use Rattle.tor_spec.specs.valid.ListSide.{side_size};
ghost use Rattle.tor_spec.specs.valid.Parts.{kind_of, name_of, piece_length_of};
ghost use Rattle.tor_tree.specs.Kinds.{has_v1};

use crate::head::CommonKeys;
use crate::list_side::{ListSide, read_list};
use crate::refusal::{Refusal, number_of};
use crate::tree_side::read_tree;
use std::alloc::Global;
use tor_tree::TreeFile;

/// The number of the refusal for want of memory.
const MEMORY: u32 = 24;

/// What the sides say; one that is not there says nothing.
#[derive(Drop)]
pub struct Sides {
    pub list: ListSide,
    /// In the order of the tree.
    pub files: Vec<TreeFile>,
}

/// The sides of a torrent, or the first fault of them.
pub fn read_sides(alloc: Global, head: &CommonKeys<'_, '_>) -> Result<Sides, Refusal>
    requires kind { head.now.kind ≡ kind_of (view head.now.info.now) }
    requires name { head.now.name ≡ name_of (view head.now.info.now) }
    requires piece_length { head.now.piece_length ≡ piece_length_of (view head.now.info.now) }
    requires some { 0 < head.now.piece_length }
    ensures read { IfOk result (AreSidesOf (view head.now.info.now)) }
    ensures accepted { OnOk result (first_of_both (view head.now.info.now) ≡ None) }
    ensures refused { IfErr result (IsFirst (first_of_both (view head.now.info.now))) }
    ensures memory { result ≡ Err Memory → takes_sides (view head.now.info.now) ≡ true }
{
    match list_of(alloc, head) {
        Ok(list) => match tree_of(alloc, head) {
            Ok(files) => Ok(Sides { list, files }),
            Err(refusal) => Err(refusal),
        },
        Err(refusal) => Err(first_of_two(refusal, tree_of(alloc, head))),
    }
}

/// The v1 side, if it is there.
fn list_of(alloc: Global, head: &CommonKeys<'_, '_>) -> Result<ListSide, Refusal>
    requires kind { head.now.kind ≡ kind_of (view head.now.info.now) }
    requires name { head.now.name ≡ name_of (view head.now.info.now) }
    requires piece_length { head.now.piece_length ≡ piece_length_of (view head.now.info.now) }
    requires some { 0 < head.now.piece_length }
    ensures files { IfOk result (λ side. side.files.items ≡ listed_if (view head.now.info.now)) }
    ensures size { IfOk result (λ side. has_v1 (kind_of (view head.now.info.now)) ≡ true
        → side.size ≡ side_size (view head.now.info.now)) }
    ensures accepted { OnOk result (list_if (view head.now.info.now) ≡ None) }
    ensures refused { IfErr result (IsFirst (list_if (view head.now.info.now))) }
    ensures memory { result ≡ Err Memory → of_list takes_files (view head.now.info.now) ≡ true }
{
    if head.kind.has_v1() {
        return read_list(alloc, head);
    }
    Ok(ListSide {
        files: Vec::new(alloc),
        size: 0,
    })
}

/// The files of the v2 side, if it is there.
fn tree_of(alloc: Global, head: &CommonKeys<'_, '_>) -> Result<Vec<TreeFile>, Refusal>
    requires kind { head.now.kind ≡ kind_of (view head.now.info.now) }
    ensures files { IfOk result (λ files. files.items ≡ files_if (view head.now.info.now)) }
    ensures accepted { OnOk result (tree_if (view head.now.info.now) ≡ None) }
    ensures refused { IfErr result (IsFirst (tree_if (view head.now.info.now))) }
    ensures memory { result ≡ Err Memory → of_tree takes_tree (view head.now.info.now) ≡ true }
{
    if head.kind.has_v2() {
        return read_tree(alloc, head.info);
    }
    Ok(Vec::new(alloc))
}

/// The first refusal of the sides, if the v1 side has one.
#[tactic(auto, using(crate::proofs::BothSides::merged, crate::proofs::BothSides::first_alone))]
fn first_of_two(one: Refusal, tree: Result<Vec<TreeFile>, Refusal>) -> Refusal
    ensures alone { OnOk tree (result ≡ one) }
    ensures earlier { IfErr tree (λ other. result ≡ earlier_refusal one other) }
    ensures first { (list others : Option Condition) → IsFirst list one → OnOk tree (others ≡ None) →
        IfErr tree (IsFirst others) → IsFirst (earliest list others) result }
{
    match tree {
        Ok(_) => one,
        Err(other) => earlier(one, other),
    }
}

/// The one of the lesser number; want of memory, if one is that.
fn earlier(one: Refusal, other: Refusal) -> Refusal
    ensures { result ≡ earlier_refusal one other }
{
    let (first, second) = (number_of(&one), number_of(&other));
    if first == MEMORY || second == MEMORY {
        return Refusal::Memory;
    }
    if first <= second { one } else { other }
}
