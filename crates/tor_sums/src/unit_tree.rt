//! One unit read, and its tree.
ghost use Rattle.std.specs.Prelude.{◌≡◌, ◌++◌, [], ℕ, All, List, None, IfErr, IfOk, MatchResult};
ghost use Rattle.std.specs.List.{AllByRecursion};
ghost use Rattle.tor_plan.specs.PlanFacts.{IsPlan};
ghost use Rattle.tor_plan.specs.WithinEntries.{IsInFile};
ghost use Rattle.tor_source.specs.Source.{SourceFacts};
ghost use Rattle.tor_sums.specs.Fault.{IsFault, PartFailsWithin, unit_fault, wanted_unit_fault};
ghost use Rattle.tor_sums.specs.steps.Given.{IsGivenRead};
ghost use Rattle.tor_sums.specs.steps.Reads.{HasParts};
ghost use Rattle.tor_sums.specs.steps.Run.{IsUnitOf, ReadsUnit, TakesUnit};
ghost use Rattle.tor_sums.specs.steps.Owing.{Owes};
ghost use Rattle.tor_sums.specs.steps.Worker.{IsFresh, IsTreed};

use crate::errors::EngineError;
use crate::file_bytes::FileBytes;
use crate::owing::OwingSums;
use crate::reading::read_part;
use crate::unit_sums::unit_length;
use crate::worker::WorkerSums;
use std::alloc::Global;
use tor_merkle::FedTree;
use tor_plan::{Plan, PlanUnit};

/// Reads a unit, and gives its tree, none in V1. Its pieces go on with those of the units before.
pub(crate) fn read_unit<S: FileBytes>(
    alloc: Global,
    source: &S,
    plan: &Plan,
    unit: &PlanUnit,
    sums: &mut WorkerSums,
) -> Result<Option<FedTree>, EngineError<S::Fault>>
    requires planned { IsPlan plan.now }
    requires unit { IsUnitOf plan.now unit.now }
    requires fresh { (before : List ℕ) × IsFresh plan.now before sums.old }
    ensures read { (before : List ℕ) → IsFresh plan.now before sums.old →
        IfOk result (ReadsUnit (S.is_steady source.now) plan.now unit.now before sums.new) }
    ensures treed { IfOk result (λ _. IsTreed plan.now sums.new) }
    ensures fault { (facts : SourceFacts S.Fault) → S.is_steady source.now facts → HasParts facts unit.now.parts →
        MatchResult result (λ _. unit_fault facts unit.now ≡ None) (IsFault (unit_fault facts unit.now)) }
    ensures wanted { (facts : SourceFacts S.Fault) → S.is_steady source.now facts →
        AllByRecursion (PartFailsWithin facts) unit.now.parts → MatchResult result
        (λ _. wanted_unit_fault facts unit.now ≡ None) (IsFault (wanted_unit_fault facts unit.now)) }
    ensures gave { (lengths : List ℕ) → All (IsInFile lengths) unit.now.parts →
        IfErr result (IsGivenRead (S.answers source.now) lengths) }
{
    let mut zeros = unit.zeros;
    let parts = unit.parts.as_slice();
    'each: for part in parts {
        sums.feed_zeros(zeros)?;
        match read_part(source, part, sums) {
            Ok(()) => {}
            Err(error) => return Err(error),
        }
        zeros = part.zeros;
    }
    // The tree ends with the last bytes: it has none of the zeros after them.
    let tree = sums.end_tree(alloc, plan)?;
    sums.feed_zeros(zeros)?;
    Ok(tree)
}

/// Reads one unit, and gives its tree, none in V1. The worker owes it the SHA-1s of its pieces.
pub fn tree_of_unit<S: FileBytes>(
    alloc: Global,
    source: &S,
    plan: &Plan,
    unit: &PlanUnit,
    worker: &mut OwingSums,
) -> Result<Option<FedTree>, EngineError<S::Fault>>
    requires planned { IsPlan plan.now }
    requires unit { IsUnitOf plan.now unit.now }
    requires owing { (owed : List ℕ) × Owes plan.now owed worker.old }
    ensures owing { (owed : List ℕ) → Owes plan.now owed worker.old → IfOk result (λ tree. (own : List ℕ)
        × TakesUnit (S.is_steady source.now) plan.now unit.now tree own × Owes plan.now (owed ++ own) worker.new) }
    ensures fault { (facts : SourceFacts S.Fault) → S.is_steady source.now facts → HasParts facts unit.now.parts →
        MatchResult result (λ _. unit_fault facts unit.now ≡ None) (IsFault (unit_fault facts unit.now)) }
    ensures wanted { (facts : SourceFacts S.Fault) → S.is_steady source.now facts →
        AllByRecursion (PartFailsWithin facts) unit.now.parts → MatchResult result
        (λ _. wanted_unit_fault facts unit.now ≡ None) (IsFault (wanted_unit_fault facts unit.now)) }
    ensures gave { (lengths : List ℕ) → All (IsInFile lengths) unit.now.parts →
        IfErr result (IsGivenRead (S.answers source.now) lengths) }
{
    let tree = match read_unit(alloc, source, plan, unit, &mut worker.sums) {
        Ok(tree) => tree,
        Err(error) => return Err(error),
    };
    let count = unit_length(unit);
    worker.end_unit(alloc, plan, count)?;
    Ok(tree)
}
