//! The units of a plan hashed, by whatever workers.
ghost use Rattle.std.specs.Prelude.{◌≤◌, ◌^◌, All, length};
ghost use Rattle.tor_engine.specs.steps.Hashed.{AreHashed};
ghost use Rattle.tor_plan.specs.Forest.{AreRuns};

use crate::workers::on_board::hash_on_board;
use crate::workers::roots::{hashes_of, roots_of_trees};
use crate::workers::turn::hash_by_halves;
use crate::workers::unit_work::UnitWork;
use std::thread::Threads;
use tor_merkle::Hash;
use tor_plan::{Forest, PlanUnit};
use tor_sums::{EngineError, How};

/// What each of the units sums up to, and the roots of the trees over them. The first fault in the order of the units
/// is answered, whatever the `How`, or want of resources, which comes before all.
pub(crate) fn hash_units<W: UnitWork + Sync, R: Threads + Sync>(
    rt: &R,
    work: &W,
    units: &[PlanUnit],
    forest: &Forest,
    how: How,
) -> Result<(Vec<W::Sums>, Vec<Option<Hash>>), EngineError<W::Fault>>
where
    W::Sums: Send,
    W::Fault: Send,
    requires begin { W.may_begin work.now }
    requires units { All (W.may_hash work.now) units.now }
    requires few { length units.now ≤ 2 ^ 62 }
    requires runs { AreRuns (length units.now) 0 forest.now.trees.items }
    ensures { AreHashed (W.hash_in work.now) (W.sums_up work.now) (W.is_steady work.now) (W.fault work.now)
        (W.gave work.now) units.now forest.now.trees.items result }
{
    match how {
        How::One => hash_on_board(rt, work, units, forest, 1),
        How::Board(workers) => hash_on_board(rt, work, units, forest, workers),
        How::Halves(workers) => {
            let sums = match hash_by_halves(rt, work, units, workers) {
                Ok(sums) => sums,
                Err(error) => return Err(error),
            };
            let hashes = hashes_of(work, &sums)?;
            let roots = roots_of_trees(work.alloc(), &forest.trees, &hashes)?;
            Ok((sums, roots))
        }
    }
}
