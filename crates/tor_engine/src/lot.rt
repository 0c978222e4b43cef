//! Some units of a plan hashed, which stand one after another.
ghost use Rattle.std.specs.Prelude.{◌≡◌, ◌≤◌, ◌++◌, None, IfErr, IfOk, List, MatchResult, OnOk, length, map, ℕ};
ghost use Rattle.std.specs.List.{flat_map};
ghost use Rattle.tor_source.specs.Source.{SourceFacts};
ghost use Rattle.tor_sums.specs.Contents.{contents_in};
ghost use Rattle.tor_sums.specs.Fault.{FailsWithin, IsFault, units_fault, wanted_units_fault};
ghost use Rattle.tor_sums.specs.Given.{IsGivenRead};
ghost use Rattle.tor_sums.specs.How.{IsHow};
ghost use Rattle.tor_engine.specs.Rows.{AreInFiles, AreSameAt, HasBytesAt, IsRowOf, row_in, units_between};
ghost use Rattle.tor_sums.specs.UnitSums.{node_in};
ghost use Rattle.tor_engine.specs.steps.RowSums.{IsRowOfSums};

use crate::sum_work::SumWork;
use crate::workers::units::hash_units;
use std::alloc::{AllocError, Global};
use std::thread::Threads;
use tor_merkle::Hash;
use tor_plan::laws::units_are_few;
use tor_plan::{Forest, Plan, PlanUnit};
use tor_source::Source;
use tor_sums::{EngineError, How, UnitSums, pieces_of_units};
use tor_tree::Kind;

/// The hashes of pieces, one after another.
#[derive(Debug, Drop)]
pub struct PieceRow {
    /// The Merkle hash of each: the root of a file of at most one piece (BEP 52, "pieces root"), else the node that
    /// covers a whole piece (BEP 52, "piece layers"); none in V1.
    pub hashes: Vec<Hash>,
    /// The SHA-1 of each, 20 bytes a piece (BEP 3, "info dictionary": `pieces`); none in V2.
    pub pieces: Vec<u8>,
}

/// What the pieces hash to of the units from the number `from` on, and before the number `to`: file i of the plan is
/// file i of the source. If the source has at these units the bytes of contents of the plan's lengths, whatever it has
/// elsewhere, the row is that of these contents. The first fault in the order of these units is answered, whatever the
/// `How`: no length is asked, and a file that ends before a byte that is wanted of it is answered as changed. So it is
/// unless a byte of these units fails past the end of its file: of such a byte either answer is right.
pub fn hash_lot<S: Source, R: Threads + Sync>(
    rt: &R,
    alloc: Global,
    source: &S,
    plan: &Plan,
    from: usize,
    to: usize,
    how: How,
) -> Result<PieceRow, EngineError<S::Fault>>
    requires how { IsHow how }
    requires ordered { from ≤ to }
    requires within { to ≤ length plan.now.units }
    ensures summed { (facts : SourceFacts S.Fault) (contents : List (List ℕ)) → S.is_steady source.now facts →
        map length contents ≡ plan.now.lengths →
        AreSameAt contents (contents_in facts (length plan.now.lengths)) (units_between from to plan.now.units) →
        MatchResult result
        (λ row. IsRowOf plan.now contents (units_between from to plan.now.units) row.hashes.items row.pieces.items
        × (units_fault facts (units_between from to plan.now.units) ≡ None))
        (IsFault (units_fault facts (units_between from to plan.now.units))) }
    ensures wanted { (facts : SourceFacts S.Fault) → S.is_steady source.now facts →
        FailsWithin facts (units_between from to plan.now.units) → MatchResult result
        (λ _. wanted_units_fault facts (units_between from to plan.now.units) ≡ None)
        (IsFault (wanted_units_fault facts (units_between from to plan.now.units))) }
    ensures whole { IfOk result (λ row. (contents : List (List ℕ)) × (map length contents ≡ plan.now.lengths)
        × IsRowOf plan.now contents (units_between from to plan.now.units) row.hashes.items row.pieces.items) }
    ensures there { (facts : SourceFacts S.Fault) → S.is_steady source.now facts →
        OnOk result (HasBytesAt facts (units_between from to plan.now.units)) }
    ensures of_lot { (lengths : List ℕ) → AreInFiles lengths (units_between from to plan.now.units) →
        IfErr result (IsGivenRead (S.answers source.now) lengths) }
    ensures gave { IfErr result (IsGivenRead (S.answers source.now) plan.now.lengths) }
{
    units_are_few();
    let units = units_between(plan.units(), from, to);
    let work = SumWork {
        alloc,
        source,
        plan,
        units,
    };
    // No root is asked for: a file's tree may have units in other lots.
    let no_trees = Forest {
        trees: Vec::new(alloc),
    };
    let (sums, _) = match hash_units(rt, &work, units, &no_trees, how) {
        Ok(hashed) => hashed,
        Err(error) => return Err(error),
    };
    let row = row_of(alloc, plan.kind(), &sums)?;
    Ok(row)
}

/// The units from one number on, and before another.
pub(crate) fn units_between(units: &[PlanUnit], from: usize, to: usize) -> &[PlanUnit]
    requires ordered { from ≤ to }
    requires within { to ≤ length units.now }
    ensures { result.now ≡ units_between from to units.now }
{
    let (_, later) = units.split_at(from);
    let (own, _) = later.split_at(to - from);
    own
}

/// What units sum up to, as the hashes of their pieces.
fn row_of(alloc: Global, kind: Kind, units: &[UnitSums]) -> Result<PieceRow, AllocError>
    ensures { IfOk result (IsRowOfSums kind units.now) }
{
    let hashes = if kind.has_v2() {
        hashes_of(alloc, units)?
    } else {
        Vec::new(alloc)
    };
    let pieces = pieces_of_units(alloc, units)?;
    Ok(PieceRow { hashes, pieces })
}

/// The Merkle hash of each piece of units.
fn hashes_of(alloc: Global, units: &[UnitSums]) -> Result<Vec<Hash>, AllocError>
    ensures { IfOk result (λ hashes. hashes.items ≡ flat_map row_in (map node_in units.now)) }
{
    let mut hashes = Vec::new(alloc);
    'units: for unit in units {
        push_row(&mut hashes, unit)?;
    }
    Ok(hashes)
}

/// Puts the hashes of the pieces of a unit after others.
fn push_row(hashes: &mut Vec<Hash>, unit: &UnitSums) -> Result<(), AllocError>
    ensures { OnOk result (hashes.new.items ≡ hashes.old.items ++ row_in (node_in unit.now)) }
{
    if unit.layer.is_empty() {
        hashes.push(unit.hash)?;
    } else {
        hashes.extend_from_slice(&unit.layer)?;
    }
    Ok(())
}
