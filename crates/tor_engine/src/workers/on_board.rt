//! Units hashed by workers that share a board.
ghost use Rattle.std.specs.Prelude.{◌≡◌, ◌≤◌, ◌^◌, All, IsPermutation, length, map};
ghost use Rattle.std.specs.List.{range_with_len};
ghost use Rattle.tor_engine.specs.steps.Hashed.{AreHashed};
ghost use Rattle.tor_plan.specs.Forest.{AreRuns};
ghost use Rattle.tor_sums.specs.steps.Places.{AreNumbers};

use crate::workers::halves::by_halves;
use crate::workers::shared_seat::SharedSeat;
use crate::workers::unit_work::UnitWork;
use std::thread::Threads;
use tor_board::Board;
use tor_merkle::Hash;
use tor_plan::{Forest, PlanUnit};
use tor_sums::{EngineError, put_in_order};

/// What each of the units sums up to, and the roots of the trees over them. So many workers claim them at one board;
/// want of resources is answered before all, else the fault of the least unit that failed, whatever came first in time.
pub(crate) fn hash_on_board<W: UnitWork + Sync, R: Threads + Sync>(
    rt: &R,
    work: &W,
    units: &[PlanUnit],
    forest: &Forest,
    workers: u32,
) -> Result<(Vec<W::Sums>, Vec<Option<Hash>>), EngineError<W::Fault>>
where
    W::Sums: Send,
    W::Fault: Send,
    requires begin { W.may_begin work.now }
    requires units { All (W.may_hash work.now) units.now }
    requires few { length units.now ≤ 2 ^ 62 }
    requires runs { AreRuns (length units.now) 0 forest.now.trees.items }
    ensures { AreHashed (W.hash_in work.now) (W.sums_up work.now) (W.is_steady work.now) (W.fault work.now)
        (W.gave work.now) units.now forest.now.trees.items result }
{
    let (board, seat) = Board::open(work.alloc(), forest, units.len() as u64)?;
    // The seat is halved, and not the units: each worker claims from all of them.
    let seated = by_halves(
        rt,
        SharedSeat {
            work,
            units,
            board: &board,
            seat,
        },
        workers,
    );
    let (seat, result) = (seated.seat, seated.result);
    let closed = board.close(seat);
    match result {
        Ok(sums) => {
            let sums = in_order(work, sums);
            Ok((sums, closed.roots))
        }
        Err(failure) => Err(failure.into_error()),
    }
}

/// The sums in the order of the numbers of their units.
fn in_order<W: UnitWork>(work: &W, sums: Vec<W::Sums>) -> Vec<W::Sums>
    ensures same { IsPermutation sums.items result.items }
    ensures placed { AreNumbers (map (W.number_in work.now) sums.items) →
        map (W.number_in work.now) result.items ≡ range_with_len 0 (length sums.items) }
{
    put_in_order(sums, |one| work.number_of(one))
}
