//! A worker that owes the sums of the pieces of its units until many can be hashed together.
ghost use Rattle.std.specs.Prelude.{◌≡◌, ◌%◌, ◌^◌, ◌<◌, ◌++◌, [], true, ℕ, List, IfOk, OnOk, length};
ghost use Rattle.tor_plan.specs.PlanFacts.{IsPlan, PlanFacts};
ghost use Rattle.tor_sums.specs.steps.Owing.{sums_of};
ghost use Rattle.tor_sums.specs.steps.Worker.{IsFresh, IsTreed};

use crate::worker::WorkerSums;
use std::alloc::{AllocError, Global};
use tor_plan::Plan;
use tor_source::zeros;
use tor_v1::laws::length_of_sums;

/// What the units of a worker hash to, and the sums of pieces that it owes them, in the order in which they were read.
/// While each ends at a piece's end, their pieces are those of the joined units, whatever file they are of. The first
/// that does not ends these pieces; from then on each unit ends its own.
#[derive(Drop)]
pub struct OwingSums {
    pub sums: WorkerSums,
    // The sums of pieces that were ended.
    ended: Vec<u8>,
}

impl OwingSums {
    ghost use Rattle.tor_sums.specs.steps.Owing.{Owes, OwesWith};

    /// Of no unit.
    pub fn new(alloc: Global, plan: &Plan) -> Result<OwingSums, AllocError>
        requires { IsPlan plan.now }
        ensures owes { IfOk result (Owes plan.now []) }
        ensures fresh { IfOk result (λ worker. IsFresh plan.now [] worker.sums) }
    {
        let sums = WorkerSums::new(alloc, plan)?;
        Ok(OwingSums {
            sums,
            ended: Vec::new(alloc),
        })
    }

    /// Ends a unit that was read, of so many bytes and zeros. No memory is asked for later for its pieces.
    pub(crate) fn end_unit(
        &mut self,
        alloc: Global,
        plan: &Plan,
        count: u64,
    ) -> Result<(), AllocError>
        requires planned { IsPlan plan.now }
        requires treed { IsTreed plan.now self.old.sums }
        ensures { (owed joined : List ℕ) → OwesWith plan.now owed joined self.old → length joined ≡ count →
            OnOk result (Owes plan.now (owed ++ sums_of plan.now joined) self.new) }
    {
        if goes_on(plan, count) && self.ended.is_empty() {
            return self.sums.reserve();
        }
        let own = self.sums.end_pieces(alloc, plan)?;
        self.ended.extend_from_slice(&own)?;
        Ok(())
    }

    /// Hashes what waits, and gives all sums that are owed, one after another. Then none is owed, and the next units
    /// are read into the same room.
    pub fn settle(&mut self, alloc: Global, plan: &Plan) -> Result<Vec<u8>, AllocError>
        requires planned { IsPlan plan.now }
        requires owing { (owed : List ℕ) × Owes plan.now owed self.old }
        ensures sums { (owed : List ℕ) → Owes plan.now owed self.old → IfOk result (λ sums. sums.items ≡ owed) }
        ensures next { OnOk result (Owes plan.now [] self.new) }
    {
        // No byte of a unit waits for a tree: this one is of none.
        self.sums.end_tree(alloc, plan)?;
        let last = self.sums.end_pieces(alloc, plan)?;
        let mut all = Vec::with_capacity(alloc, self.ended.len())?;
        all.extend_from_slice(&self.ended)?;
        all.extend_from_slice(&last)?;
        self.ended.clear();
        Ok(all)
    }

    /// Hashes what waits, and gives all sums that are owed, one after another. It takes no memory.
    pub fn finish(self, alloc: Global) -> Vec<u8>
        requires { (plan : PlanFacts) × (owed : List ℕ) × Owes plan owed self }
        ensures { (plan : PlanFacts) (owed : List ℕ) → IsPlan plan → Owes plan owed self → result.items ≡ owed }
    {
        let OwingSums { sums, ended } = self;
        if ended.is_empty() {
            sums.finish(alloc)
        } else {
            ended
        }
    }
}

/// Whether the pieces of a unit of so many bytes and zeros go on with those of the next one: it ends at a piece's end.
fn goes_on(plan: &Plan, count: u64) -> bool
    requires { IsPlan plan.now }
    ensures { result ≡ true → count % plan.now.piece_length ≡ 0 }
{
    plan.kind().has_v1() && count % plan.piece_length() == 0
}

/// Room for the sums of the pieces of a unit of so many bytes and zeros.
pub(crate) fn room_for_sums(alloc: Global, plan: &Plan, count: u64) -> Result<Vec<u8>, AllocError>
    requires planned { IsPlan plan.now }
    requires small { count < 2 ^ 41 }
    ensures { (joined : List ℕ) → length joined ≡ count →
        IfOk result (λ room. length room.items ≡ length (sums_of plan.now joined)) }
{
    length_of_sums();
    let pieces = if plan.kind().has_v1() {
        count.div_ceil(plan.piece_length())
    } else {
        0
    };
    zeros(alloc, 20 * pieces as usize)
}
