//! Units that several workers claim at one board, each with a seat of its own.
ghost use Rattle.std.specs.Prelude.{◌≡◌, [], All, length};
ghost use Rattle.tor_board.specs.Desks.{fresh, keeping};
ghost use Rattle.tor_board.specs.Seats.{IsSeatOf, knows, unit_count};
ghost use Rattle.tor_engine.specs.steps.Taken.{AnswersSeat, IsIdle, without_tops};

use crate::workers::failure::{Failure, UnitFailure, both_joined};
use crate::workers::halves::Divisible;
use crate::workers::taking::take_units;
use crate::workers::unit_work::UnitWork;
use crate::workers::worker_share::Share;
use tor_board::{Board, Seat};
use tor_plan::PlanUnit;

/// A seat from which units are claimed, by one worker, or by several of which each has a part of its room.
#[derive(Drop)]
pub(crate) struct SharedSeat<'a, W> {
    pub(crate) work: &'a W,
    pub(crate) units: &'a [PlanUnit],
    pub(crate) board: &'a Board,
    pub(crate) seat: Seat,
}

/// The seat when its workers have ended, and what the units that they took sum up to, or why one stopped.
#[derive(Drop)]
pub(crate) struct Seated<'a, T, F> {
    pub(crate) board: &'a Board,
    pub(crate) seat: Seat,
    pub(crate) result: Result<Vec<T>, Failure<F>>,
}

impl<'a, W: UnitWork + Sync> Divisible for SharedSeat<'a, W>
where
    W::Sums: Send,
    W::Fault: Send,
{
    type Answer = Seated<'a, W::Sums, W::Fault>;

    ghost may_answer = { λ share. W.may_begin share.work.now × All (W.may_hash share.work.now) share.units.now
        × IsSeatOf share.board.now share.seat × (unit_count share.board.now ≡ length share.units.now)
        × IsIdle (knows share.seat) × ((knows share.seat).given ≡ []) };

    ghost is_answer = { λ share seated. (seated.board.now ≡ share.board.now) × IsSeatOf share.board.now seated.seat
        × AnswersSeat (W.number_in share.work.now) (W.hash_in share.work.now) (W.sums_up share.work.now)
        (W.is_steady share.work.now) (W.fault share.work.now) (W.gave share.work.now) share.units.now
        (knows share.seat) (knows seated.seat) seated.result };

    ghost halves = { λ whole one other. (one.work.now ≡ whole.work.now) × (other.work.now ≡ whole.work.now)
        × (one.units.now ≡ whole.units.now) × (other.units.now ≡ whole.units.now)
        × (one.board.now ≡ whole.board.now) × (other.board.now ≡ whole.board.now)
        × (knows one.seat ≡ keeping (knows whole.seat)) × (knows other.seat ≡ fresh (knows whole.seat))
        × ((knows whole.seat).given ≡ []) };

    fn halve(self) -> Result<(Self, Self), Self> {
        let SharedSeat {
            work,
            units,
            board,
            seat,
        } = self;
        match board.split(seat) {
            Ok((one, other)) => Ok((
                SharedSeat {
                    work,
                    units,
                    board,
                    seat: one,
                },
                SharedSeat {
                    work,
                    units,
                    board,
                    seat: other,
                },
            )),
            Err((seat, _)) => Err(SharedSeat {
                work,
                units,
                board,
                seat,
            }),
        }
    }

    fn answer(self) -> Seated<'a, W::Sums, W::Fault> {
        let SharedSeat {
            work,
            units,
            board,
            mut seat,
        } = self;
        let share = take_units(work, units, board, &mut seat);
        Seated {
            board,
            seat,
            result: without_tops(share),
        }
    }

    fn join(
        one: Seated<'a, W::Sums, W::Fault>,
        other: Seated<'a, W::Sums, W::Fault>,
    ) -> Seated<'a, W::Sums, W::Fault> {
        let board = one.board;
        Seated {
            board,
            seat: board.join(one.seat, other.seat),
            result: both_joined(one.result, other.result),
        }
    }
}

/// What the units that a worker took sum up to. The board has the roots, so that the tops are of no more use.
fn without_tops<T: Drop, F: Drop>(
    share: Result<Share<T>, UnitFailure<F>>,
) -> Result<Vec<T>, Failure<F>>
    ensures { result ≡ without_tops share }
{
    match share {
        Ok(share) => Ok(share.units),
        Err(failure) => Err(Failure::of(failure)),
    }
}
