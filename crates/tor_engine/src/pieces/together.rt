//! The pieces of a unit hashed together: if the unit is wholly there it is read as one, so that a file is not opened
//! for each of its pieces, and several pieces are hashed side by side.
ghost use Rattle.std.specs.Prelude.{◌≡◌, ◌++◌, ◌<◌, ◌∷◌, [], true, ℕ, List, None, Some, IfErr, IfOk, MatchResult};
ghost use Rattle.std.specs.Prelude.{false, length, map, replicate, slice_index_or};
ghost use Rattle.tor_merkle.specs.Feeding.{Feeding};
ghost use Rattle.tor_merkle.specs.Layer.{piece_roots};
ghost use Rattle.tor_plan.specs.Pieces.{pieces_of_unit};
ghost use Rattle.tor_plan.specs.PlanFacts.{IsPlan};
ghost use Rattle.tor_plan.specs.declared.units.Part.{Part};
ghost use Rattle.tor_source.specs.Source.{SourceFacts};
ghost use Rattle.tor_tree.specs.Kinds.{has_v2};
ghost use Rattle.tor_sums.specs.Contents.{contents_in};
ghost use Rattle.tor_sums.specs.Fault.{IsFault};
ghost use Rattle.tor_sums.specs.steps.Each.{OweEach};
ghost use Rattle.tor_sums.specs.steps.Given.{IsGivenRead, lengths_of_sizes};
ghost use Rattle.tor_sums.specs.steps.Owing.{Owes};
ghost use Rattle.tor_engine.specs.steps.Pieces.{AreTold, IsUnitToHash, unit_pieces_fault};
ghost use Rattle.tor_engine.specs.steps.Unsummed.{FindsPiece, IsTogether, found_of};

use crate::pieces::has_long_zeros;
use crate::pieces::piece_hash::{FoundPiece, found_of};
use crate::pieces::piece_work::Known;
use crate::pieces::present::is_there;
use std::alloc::{AllocError, Global};
use tor_merkle::{FedTree, Hash};
use tor_plan::{Plan, PlanUnit};
use tor_sums::{EngineError, FileBytes, OwingSums, tree_of_unit, unit_length};
use tor_tree::Kind;
use tor_v1::laws::length_of_sums;

/// Whether the pieces of a unit are hashed together: all their bytes are there, and `can_be_together`.
pub(crate) fn is_together(plan: &Plan, known: &Known, unit: &PlanUnit) -> bool
    requires planned { IsPlan plan.now }
    requires unit { IsUnitToHash plan.now unit.now }
    ensures { result ≡ true → IsTogether plan.now known.now.lengths.items unit.now }
{
    if !can_be_together(plan, unit) {
        return false;
    }
    is_there(&known.lengths, unit)
}

/// Whether the pieces of a unit can be hashed together if all are there. In a kind with trees its file has to be longer
/// than a piece. In another no piece may be padding alone: the SHA-1 of such a piece is known without hashing it.
fn can_be_together(plan: &Plan, unit: &PlanUnit) -> bool
    requires { IsUnitToHash plan.now unit.now }
    ensures { result ≡ true → has_v2 plan.now.kind ≡ true → (part : Part) → unit.now.parts ≡ part ∷ [] →
        plan.now.piece_length < slice_index_or plan.now.lengths part.file 0 }
{
    if !plan.kind().has_v2() {
        return !has_long_zeros(unit, plan.piece_length());
    }
    let Some(part) = unit.parts.as_slice().first() else {
        return false;
    };
    plan.piece_length() < plan.lengths()[part.file as usize]
}

/// What is found of the pieces of a unit that are hashed together. The worker owes them their SHA-1s.
pub(crate) fn find_together<S: FileBytes>(
    alloc: Global,
    source: &S,
    plan: &Plan,
    known: &Known,
    unit: &PlanUnit,
    worker: &mut OwingSums,
) -> Result<Vec<FoundPiece>, EngineError<S::Fault>>
    requires planned { IsPlan plan.now }
    requires unit { IsUnitToHash plan.now unit.now }
    requires together { IsTogether plan.now known.now.lengths.items unit.now }
    requires owing { (owed : List ℕ) × Owes plan.now owed worker.old }
    ensures owing { (owed : List ℕ) → Owes plan.now owed worker.old → IfOk result (λ found. (own : List ℕ)
        × OweEach (FindsPiece (S.is_steady source.now) plan.now known.now.lengths.items)
        (pieces_of_unit plan.now.piece_length unit.now) found.items own
        × Owes plan.now (owed ++ own) worker.new) }
    ensures fault { (facts : SourceFacts S.Fault) → S.is_steady source.now facts →
        AreTold known.now.lengths.items (contents_in facts (length plan.now.lengths)) →
        MatchResult result
        (λ _. unit_pieces_fault facts plan.now (contents_in facts (length plan.now.lengths)) unit.now ≡ None)
        (IsFault (unit_pieces_fault facts plan.now (contents_in facts (length plan.now.lengths)) unit.now)) }
    ensures gave { IfErr result (IsGivenRead (S.answers source.now) (lengths_of_sizes known.now.lengths.items)) }
{
    length_of_sums();
    let tree = match tree_of_unit(alloc, source, plan, unit, worker) {
        Ok(tree) => tree,
        Err(error) => return Err(error),
    };
    let count = unit_length(unit).div_ceil(plan.piece_length());
    let found = pieces_of_tree(alloc, plan.kind(), count as usize, tree)?;
    Ok(found)
}

/// What is found of each of so many pieces that were read: in a kind with trees it has a hash of the tree's layer.
fn pieces_of_tree(
    alloc: Global,
    kind: Kind,
    count: usize,
    tree: Option<FedTree>,
) -> Result<Vec<FoundPiece>, AllocError>
    ensures trees { has_v2 kind ≡ true → (fed : Feeding) → tree ≡ Some fed → IfOk result (λ found.
        found.items ≡ map (λ root. found_of kind (Some root)) (piece_roots fed.bytes fed.piece_length)) }
    ensures bare { has_v2 kind ≡ false → IfOk result (λ found. found.items ≡ replicate count (found_of kind None)) }
{
    if !kind.has_v2() {
        return Ok(vec![in alloc; found_of(kind, None); count]?);
    }
    match tree {
        Some(tree) => pieces_of_roots(alloc, kind, &tree.piece_roots()),
        None => Ok(Vec::new(alloc)),
    }
}

/// What is found of pieces that have these hashes.
fn pieces_of_roots(alloc: Global, kind: Kind, roots: &[Hash]) -> Result<Vec<FoundPiece>, AllocError>
    ensures { IfOk result (λ found. found.items ≡ map (λ root. found_of kind (Some root)) roots.now) }
{
    let mut found = Vec::with_capacity(alloc, roots.len())?;
    'roots: for root in roots {
        found.push(found_of(kind, Some(*root)))?;
    }
    Ok(found)
}
