//! What a worker does with each of its units.
ghost use Rattle.std.specs.Prelude.{◌≡◌, ◌++◌, ◌∷◌, [], ℕ, None, List, Option, IfErr, IfOk, MatchResult, map};
ghost use Rattle.tor_plan.specs.declared.units.PlanUnit.{PlanUnit};
ghost use Rattle.tor_source.specs.Source.{SourceFacts};
ghost use Rattle.tor_sums.specs.Fault.{IsFault};
ghost use Rattle.tor_sums.specs.declared.errors.EngineError.{EngineError};
ghost use Rattle.tor_sums.specs.declared.errors.EngineError.TheVariants.{Resources};
ghost use Rattle.tor_sums.specs.declared.owing.OwingSums.{OwingSums};
ghost use Rattle.tor_sums.specs.steps.Each.{SumUpEach};
ghost use Rattle.tor_engine.specs.steps.Taken.{pair_in};

use std::alloc::{AllocError, Global};
use std::fmt::Debug;
use tor_merkle::Hash;
use tor_plan::PlanUnit;
use tor_sums::{EngineError, OwingSums};

/// What a worker does with each of its units: `SumWork` (`sum_work.rt`) hashes it for the sums of files, `PieceWork`
/// (`piece_work.rt`) hashes those of its pieces that are there, as one if all are, and `ReadableWork`
/// (`readable_work.rt`) those that can be read.
pub(crate) trait UnitWork {
    /// The fault of the source.
    type Fault: Debug + Drop;

    /// What one unit sums up to, once it is complete.
    type Sums: Drop;

    /// A worker can begin.
    ghost may_begin: { Self → Type 0 };

    /// The unit can be hashed.
    ghost may_hash: { Self → PlanUnit → Type 0 };

    /// The source is steady by these facts, and what the work builds on holds of it.
    ghost is_steady: { Self → SourceFacts Self.Fault → Type 0 };

    /// The first fault of a unit.
    ghost fault: { Self → SourceFacts Self.Fault → PlanUnit → Option (EngineError Self.Fault) };

    /// The unit sums up to this.
    ghost sums_up: { Self → PlanUnit → Self.Sums → Type 0 };

    /// These units were hashed one after the other, and sum up to these once they are complete: the worker has what
    /// they lack.
    ghost stands: { Self → List PlanUnit → List Self.Sums → OwingSums → Type 0 };

    /// The number of the unit that sums up to this.
    ghost number_in: { Self → Self.Sums → ℕ };

    /// Its hash in the tree of its file.
    ghost hash_in: { Self → Self.Sums → List ℕ };

    /// The error may be answered: if it is a fault of the source, the source gave it.
    ghost gave: { Self → EngineError Self.Fault → Type 0 };

    /// Where the memory comes from.
    fn alloc(&self) -> Global;

    /// What a worker begins with.
    fn begin(&self) -> Result<OwingSums, AllocError>
        requires { may_begin self.now }
        ensures { IfOk result (stands self.now [] []) };

    /// What one unit sums up to once it is complete, which has this number.
    fn hash(
        &self,
        number: u64,
        unit: &PlanUnit,
        worker: &mut OwingSums,
    ) -> Result<Self::Sums, EngineError<Self::Fault>>
        requires begin { may_begin self.now }
        requires unit { may_hash self.now unit.now }
        requires stands { (units : List PlanUnit) × (before : List Self.Sums)
            × stands self.now units before worker.old }
        ensures stands { (units : List PlanUnit) (before : List Self.Sums) →
            stands self.now units before worker.old → IfOk result (λ sums.
            stands self.now (units ++ unit.now ∷ []) (before ++ sums ∷ []) worker.new) }
        ensures number { IfOk result (λ sums. number_in self.now sums ≡ number) }
        ensures fault { (facts : SourceFacts Self.Fault) → is_steady self.now facts →
            MatchResult result (λ _. fault self.now facts unit.now ≡ None) (IsFault (fault self.now facts unit.now)) }
        ensures gave { IfErr result (gave self.now) };

    /// Completes what the units sum up to that the worker hashed. It takes no memory.
    fn complete(&self, worker: OwingSums, sums: &mut Vec<Self::Sums>)
        requires begin { may_begin self.now }
        requires stands { (units : List PlanUnit) × stands self.now units sums.old.items worker }
        ensures summed { (units : List PlanUnit) → stands self.now units sums.old.items worker →
            SumUpEach (sums_up self.now) units sums.new.items }
        ensures same { map (pair_in (number_in self.now) (hash_in self.now)) sums.new.items
            ≡ map (pair_in (number_in self.now) (hash_in self.now)) sums.old.items };

    /// The number of the unit that sums up to this.
    fn number_of(&self, sums: &Self::Sums) -> u64
        ensures { result ≡ number_in self.now sums.now };

    /// Its hash in the tree of its file.
    fn hash_of(&self, sums: &Self::Sums) -> Hash
        ensures { result ≡ hash_in self.now sums.now };

    /// Want of resources may be answered.
    ghost may_refuse: { (work : Self) → gave work Resources };
}
