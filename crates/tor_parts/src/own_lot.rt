//! One lot of a plan hashed, and the lengths of its own files asked before and after.
ghost use Rattle.std.specs.Prelude.{◌≡◌, ◌<◌, IfErr, IfOk, List, MatchResult, None, OnOk, length, map, ℕ};
ghost use Rattle.tor_engine.specs.Rows.{AreInFiles, AreSameAt, HasBytesAt, IsRowOf};
ghost use Rattle.tor_parts.specs.Dealing.{dealt};
ghost use Rattle.tor_parts.specs.OwnFiles.{HasToldOf, IsGivenOwn, IsOfFiles, files_of, own_fault};
ghost use Rattle.tor_source.specs.Source.{SourceFacts};
ghost use Rattle.tor_sums.specs.Contents.{contents_in};
ghost use Rattle.tor_sums.specs.Fault.{IsFault};
ghost use Rattle.tor_sums.specs.How.{IsHow};

use crate::dealing::deal;
use crate::hashing::hash_dealt;
use crate::own_counts::units_between;
use crate::own_files::expect_own;
use std::alloc::Global;
use std::thread::Threads;
use tor_engine::{EngineError, How, PieceRow};
use tor_plan::{Plan, PlanUnit};
use tor_source::Source;

/// What the pieces of one of so many lots of a plan hash to, as [`hash_dealt`], with the lengths asked before and after
/// of the files of which it has bytes, and of no others. A file that is not as long as the plan says, or is missing, is
/// answered before a byte is read; one that is not so afterwards was changed. Whatever a steady source has, the first
/// fault of these files is answered. Lots are counted from 0.
pub fn hash_own<S: Source, R: Threads + Sync>(
    rt: &R,
    alloc: Global,
    source: &S,
    plan: &Plan,
    lots: u32,
    lot: u32,
    how: How,
) -> Result<PieceRow, EngineError<S::Fault>>
    requires how { IsHow how }
    requires within { lot < lots }
    ensures summed { (facts : SourceFacts S.Fault) (contents : List (List ℕ)) → S.is_steady source.now facts →
        map length contents ≡ plan.now.lengths →
        AreSameAt contents (contents_in facts (length plan.now.lengths)) (dealt lots lot plan.now.units) →
        IfOk result (λ row.
        IsRowOf plan.now contents (dealt lots lot plan.now.units) row.hashes.items row.pieces.items) }
    ensures fault { (facts : SourceFacts S.Fault) → S.is_steady source.now facts → MatchResult result
        (λ _. own_fault facts plan.now.lengths (dealt lots lot plan.now.units) ≡ None)
        (IsFault (own_fault facts plan.now.lengths (dealt lots lot plan.now.units))) }
    ensures whole { IfOk result (λ row. (contents : List (List ℕ)) × (map length contents ≡ plan.now.lengths)
        × IsRowOf plan.now contents (dealt lots lot plan.now.units) row.hashes.items row.pieces.items) }
    ensures there { (facts : SourceFacts S.Fault) → S.is_steady source.now facts →
        OnOk result (HasBytesAt facts (dealt lots lot plan.now.units)) }
    ensures told { IfOk result (λ _.
        HasToldOf (S.answers source.now) plan.now.lengths (files_of (dealt lots lot plan.now.units))) }
    ensures of_lot { IfErr result (IsOfFiles (files_of (dealt lots lot plan.now.units))) }
    ensures gave { IfErr result (IsGivenOwn (S.answers source.now) plan.now.lengths) }
{
    let units = units_of_lot(plan, lots, lot);
    match expect_own(source, plan.lengths(), units) {
        Ok(()) => {}
        Err(error) => return Err(error),
    }
    let row = match hash_dealt(rt, alloc, source, plan, lots, lot, how) {
        Ok(row) => row,
        Err(error) => return Err(error),
    };
    match expect_own(source, plan.lengths(), units) {
        Ok(()) => Ok(row),
        // It was there before.
        Err(EngineError::Missing { file }) => Err(EngineError::Changed { file }),
        Err(error) => Err(error),
    }
}

/// The units of one of so many lots of a plan. Lots are counted from 0.
pub fn units_of_lot(plan: &Plan, lots: u32, lot: u32) -> &[PlanUnit]
    requires { lot < lots }
    ensures units { result.now ≡ dealt lots lot plan.now.units }
    ensures in_files { AreInFiles plan.now.lengths result.now }
{
    let (from, to) = deal(plan, lots, lot);
    units_between(plan, from, to)
}
