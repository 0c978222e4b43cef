//! Units hashed for the sums of files.
ghost use Rattle.std.specs.Prelude.{ℕ, Contains, List};
ghost use Rattle.tor_plan.specs.PlanFacts.{IsPlan};
ghost use Rattle.tor_sums.specs.Fault.{FailsWithin, wanted_unit_fault};
ghost use Rattle.tor_sums.specs.steps.Given.{IsGivenRead};
ghost use Rattle.tor_sums.specs.steps.Each.{OweEach};
ghost use Rattle.tor_sums.specs.steps.Owing.{Owes};
ghost use Rattle.tor_sums.specs.steps.Run.{IsUnitToSum, OwesUnit, SumsUpUnit};
ghost use Rattle.tor_engine.specs.Rows.{AreInFiles};

use crate::workers::unit_work::UnitWork;
use std::alloc::{AllocError, Global};
use tor_merkle::Hash;
use tor_plan::{Plan, PlanUnit};
use tor_sums::{EngineError, FileBytes, OwingSums, UnitSums, pay, sum_unit};

/// Hashes some units of a plan.
#[derive(Drop)]
pub(crate) struct SumWork<'a, S> {
    pub(crate) alloc: Global,
    pub(crate) source: &'a S,
    pub(crate) plan: &'a Plan,
    pub(crate) units: &'a [PlanUnit],
}

impl<'a, S: FileBytes> UnitWork for SumWork<'a, S> {
    type Fault = S::Fault;

    type Sums = UnitSums;

    ghost may_begin = { λ work. IsPlan work.plan.now };

    ghost may_hash = { λ work unit. IsUnitToSum work.plan.now unit × Contains work.units.now unit };

    ghost is_steady = { λ work facts. S.is_steady work.source.now facts × FailsWithin facts work.units.now };

    ghost fault = { λ _ facts unit. wanted_unit_fault facts unit };

    ghost sums_up = { λ work unit sums. SumsUpUnit (S.is_steady work.source.now) work.plan.now unit sums };

    ghost stands = { λ work units sums worker. (owed : List ℕ) × Owes work.plan.now owed worker
        × OweEach (OwesUnit (S.is_steady work.source.now) work.plan.now) units sums owed };

    ghost number_in = { λ _ sums. sums.unit };

    ghost hash_in = { λ _ sums. sums.hash };

    // Whatever lengths the files have, as long as these units are in them.
    ghost gave = { λ work error. (lengths : List ℕ) → AreInFiles lengths work.units.now →
        IsGivenRead (S.answers work.source.now) lengths error };

    ghost may_refuse = { λ _ _ _. tt };

    fn alloc(&self) -> Global {
        self.alloc
    }

    fn begin(&self) -> Result<OwingSums, AllocError> {
        OwingSums::new(self.alloc, self.plan)
    }

    fn hash(
        &self,
        number: u64,
        unit: &PlanUnit,
        worker: &mut OwingSums,
    ) -> Result<UnitSums, EngineError<S::Fault>> {
        sum_unit(self.alloc, self.source, self.plan, number, unit, worker)
    }

    fn complete(&self, worker: OwingSums, sums: &mut Vec<UnitSums>) {
        let owed = worker.finish(self.alloc);
        pay(sums.as_mut_slice(), &owed);
    }

    fn number_of(&self, sums: &UnitSums) -> u64 {
        sums.unit
    }

    fn hash_of(&self, sums: &UnitSums) -> Hash {
        sums.hash
    }
}
