//! One lot of a plan hashed.
ghost use Rattle.std.specs.Prelude.{◌≡◌, ◌<◌, ℕ, None, IfErr, IfOk, List, MatchResult, OnOk, length, map};
ghost use Rattle.tor_source.specs.Source.{SourceFacts};
ghost use Rattle.tor_sums.specs.Contents.{contents_in};
ghost use Rattle.tor_sums.specs.Fault.{FailsWithin, IsFault, units_fault, wanted_units_fault};
ghost use Rattle.tor_sums.specs.Given.{IsGivenRead};
ghost use Rattle.tor_sums.specs.How.{IsHow};
ghost use Rattle.tor_engine.specs.Rows.{AreInFiles, AreSameAt, HasBytesAt, IsRowOf};
ghost use Rattle.tor_parts.specs.Dealing.{dealt};

use crate::dealing::deal;
use std::alloc::Global;
use std::thread::Threads;
use tor_engine::{EngineError, How, PieceRow, hash_lot};
use tor_plan::Plan;
use tor_source::Source;

/// What the pieces of one of so many lots of a plan hash to, as [`hash_lot`] of its units. Lots are counted from 0.
pub fn hash_dealt<S: Source, R: Threads + Sync>(
    rt: &R,
    alloc: Global,
    source: &S,
    plan: &Plan,
    lots: u32,
    lot: u32,
    how: How,
) -> Result<PieceRow, EngineError<S::Fault>>
    requires how { IsHow how }
    requires within { lot < lots }
    ensures summed { (facts : SourceFacts S.Fault) (contents : List (List ℕ)) → S.is_steady source.now facts →
        map length contents ≡ plan.now.lengths →
        AreSameAt contents (contents_in facts (length plan.now.lengths)) (dealt lots lot plan.now.units) →
        MatchResult result
        (λ row. IsRowOf plan.now contents (dealt lots lot plan.now.units) row.hashes.items row.pieces.items
        × (units_fault facts (dealt lots lot plan.now.units) ≡ None))
        (IsFault (units_fault facts (dealt lots lot plan.now.units))) }
    ensures wanted { (facts : SourceFacts S.Fault) → S.is_steady source.now facts →
        FailsWithin facts (dealt lots lot plan.now.units) → MatchResult result
        (λ _. wanted_units_fault facts (dealt lots lot plan.now.units) ≡ None)
        (IsFault (wanted_units_fault facts (dealt lots lot plan.now.units))) }
    ensures whole { IfOk result (λ row. (contents : List (List ℕ)) × (map length contents ≡ plan.now.lengths)
        × IsRowOf plan.now contents (dealt lots lot plan.now.units) row.hashes.items row.pieces.items) }
    ensures there { (facts : SourceFacts S.Fault) → S.is_steady source.now facts →
        OnOk result (HasBytesAt facts (dealt lots lot plan.now.units)) }
    ensures of_lot { (lengths : List ℕ) → AreInFiles lengths (dealt lots lot plan.now.units) →
        IfErr result (IsGivenRead (S.answers source.now) lengths) }
    ensures gave { IfErr result (IsGivenRead (S.answers source.now) plan.now.lengths) }
{
    let (from, to) = deal(plan, lots, lot);
    hash_lot(rt, alloc, source, plan, from, to, how)
}
