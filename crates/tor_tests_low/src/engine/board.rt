//! Workers that share a board.
ghost use Rattle.std.specs.Prelude.{◌≡◌, [], length};
ghost use Rattle.std.specs.Thread.{IsSync};
ghost use Rattle.tor_board.specs.Seats.{IsSeatOf, forest_of, knows, unit_count};
ghost use Rattle.tor_source.specs.Answers.{any_answers};

use crate::board::shared::{end, gets_none};
use crate::engine::faults::{FaultAt, failing};
use crate::engine::shared::{comes_to, is_fault, plan_of};
use crate::engine::workers::{
    ALONE, Alone, FEW, Gathering, MANY, Meeting, Row, meet, reads_that_meet,
};
use std::process::Abort;
use std::sync::atomic::AtomicU64;
use std::sync::atomic::Ordering::SeqCst;
use std::thread::{Threads, join};
use tor_board::{Board, Closed, Seat};
use tor_engine::{EngineError, How, Share, work};
use tor_plan::Plan;
use tor_plan::laws::{trees_are_runs, units_are_few};
use tor_source::{FailSource, Source};
use tor_tree::Kind;

/// Of eight units of one block.
const LENGTH: u64 = 8 * 16384;

/// The first read waits until a read of each other unit has begun. If the units are dealt out beforehand, some wait
/// behind the first.
const ROWS: &[Row] = &[
    (How::One, 8, FEW, ALONE),
    (How::Halves(2), 8, FEW, ALONE),
    (How::Board(1), 8, FEW, ALONE),
    (How::Board(2), 8, MANY, "none"),
    (How::Board(5), 8, MANY, "none"),
];

const OF_EIGHT: Gathering = Gathering {
    length: LENGTH,
    end: 1,
    over_pieces: false,
    rows: ROWS,
};

const PIECES_OF_EIGHT: Gathering = Gathering {
    length: LENGTH,
    end: 1,
    over_pieces: true,
    rows: ROWS,
};

#[test]
fn board_shares(rt: HostRuntime) {
    assert!(rt; meet(&rt, &OF_EIGHT) && meet(&rt, &PIECES_OF_EIGHT));
}

/// What one worker did.
type Told = Result<Share, (u64, EngineError<Alone>)>;

/// And its seat.
type Worked = (Seat, Told);

/// One worker of a caller's thread.
fn work_on<R: AllocGlobal>(
    rt: &R,
    source: &Meeting,
    plan: &Plan,
    board: &Board,
    seat: Seat,
) -> Worked
    requires { (unit_count board.now ≡ length plan.now.units)
        × (forest_of board.now ≡ plan.now.trees) × IsSeatOf board.now seat × ((knows seat).held ≡ [])
        × ((knows seat).failed ≡ []) }
    ensures { IsSeatOf board.now result.0 }
{
    let mut seat = seat;
    let share = work(rt.alloc(), source, plan, board, &mut seat);
    (seat, share)
}

/// Two workers on threads of a caller's.
fn work_by_two<R: AllocGlobal + Abort + Threads + Sync>(
    rt: &R,
    source: &Meeting,
    plan: &Plan,
    board: &Board,
    seat: Seat,
) -> (Worked, Worked)
    requires { (unit_count board.now ≡ length plan.now.units)
        × (forest_of board.now ≡ plan.now.trees) × IsSeatOf board.now seat × ((knows seat).held ≡ [])
        × ((knows seat).failed ≡ []) }
    ensures { IsSeatOf board.now result.0.0 × IsSeatOf board.now result.1.0 }
{
    let Ok((one, other)) = board.split(seat) else {
        panic!(rt; "one seat")
    };
    join(
        rt,
        move || -> Worked
            requires { IsSync R.row × (unit_count board.now ≡ length plan.now.units)
                × (forest_of board.now ≡ plan.now.trees) × IsSeatOf board.now one × ((knows one).held ≡ [])
                × ((knows one).failed ≡ []) }
            ensures { IsSeatOf board.entry.now result.0 }
        { work_on(rt, source, plan, board, one) },
        move || -> Worked
            requires { IsSync R.row × (unit_count board.now ≡ length plan.now.units)
                × (forest_of board.now ≡ plan.now.trees) × IsSeatOf board.now other × ((knows other).held ≡ [])
                × ((knows other).failed ≡ []) }
            ensures { IsSeatOf board.entry.now result.0 }
        { work_on(rt, source, plan, board, other) },
    )
}

/// How often a unit is in a share.
fn times(share: &Share, unit: u64) -> u64 {
    let mut times: u64 = 0;
    for sums in &share.units {
        if sums.unit == unit {
            times = times.saturating_add(1);
        }
    }
    times
}

/// Whether each of the units is in one of these shares.
fn has_each_once(one: &Share, other: &Share) -> bool {
    for unit in 0..8 {
        if times(one, unit).saturating_add(times(other, unit)) != 1 {
            return false;
        }
    }
    true
}

/// Whether the board has one root, and one of these shares tells it alone.
fn tells_root(one: &Share, other: &Share, closed: &Closed) -> bool {
    match (
        one.tops.as_slice(),
        other.tops.as_slice(),
        closed.roots.as_slice(),
    ) {
        ([top], [], [root]) | ([], [top], [root]) => *root == Some(top.1),
        _ => false,
    }
}

/// Whether the two did all units, each once, and one of them was told the root.
fn are_shares(one: &Told, other: &Told, closed: &Closed) -> bool {
    match (one, other) {
        (Ok(one), Ok(other)) => has_each_once(one, other) && tells_root(one, other, closed),
        _ => false,
    }
}

/// Whether they are so of the units of a plan.
fn is_shared_by_two<R: AllocGlobal + Abort + Threads + Sync>(
    rt: &R,
    source: &Meeting,
    plan: &Plan,
) -> bool {
    trees_are_runs();
    units_are_few();
    let Ok((board, seat)) = Board::open(rt.alloc(), plan.forest(), plan.units().len() as u64) else {
        return false;
    };
    let ((first, one), (second, other)) = work_by_two(rt, source, plan, &board, seat);
    let seat = board.join(first, second);
    let closed = end(rt, board, seat);
    are_shares(&one, &other, &closed)
}

/// A file of eight units, of which the fourth fails at once, and the first once the fourth has failed.
#[derive(Drop)]
struct Late {
    failed: AtomicU64,
}

impl Source for Late {
    type Fault = u64;

    ghost is_steady = { λ _ _. ⊥ };

    ghost answers = { λ _. any_answers };

    fn length(&self, _file: u64) -> Result<Option<u64>, u64> {
        Ok(Some(LENGTH))
    }

    fn read_at(&self, _file: u64, start: u64, buffer: &mut [u8]) -> Result<usize, u64> {
        if start == 3 * 16384 {
            self.failed.fetch_add(1, SeqCst);
            return Err(9);
        }
        if start > 0 {
            return Ok(buffer.len());
        }
        if comes_to(&self.failed, 1, MANY) {
            return Err(5);
        }
        Err(7)
    }
}

const BY_SEVERAL: &[How] = &[How::Halves(8), How::Board(2), How::Board(8)];

/// Whether the fault of the first unit is answered, and the fourth failed once.
fn is_least<R: AllocGlobal + Abort + Threads + Sync>(rt: &R, plan: &Plan, how: How) -> bool {
    let source = Late {
        failed: AtomicU64::new(0),
    };
    let wanted = "Read { file: 0, start: Some(0), fault: 5 }";
    is_fault(rt, &source, plan, how, wanted) && source.failed.load(SeqCst) == 1
}

/// Whether the fault of the fourth is told.
fn is_of_fourth(told: &Result<Share, (u64, EngineError<u64>)>) -> bool {
    matches!(
        told,
        Err((
            3,
            EngineError::Read {
                file: 0,
                start: Some(49157),
                fault: 5,
            },
        ))
    )
}

/// Whether a worker tells the fault of the fourth unit, and the board that this one failed.
fn tells_the_fourth<R: AllocGlobal + Abort>(rt: &R, source: &FailSource, plan: &Plan) -> bool {
    trees_are_runs();
    units_are_few();
    let Ok((board, mut seat)) = Board::open(rt.alloc(), plan.forest(), plan.units().len() as u64)
    else {
        return false;
    };
    let is_told = is_of_fourth(&work(rt.alloc(), source, plan, &board, &mut seat));
    let is_done = gets_none(&board, &mut seat);
    let closed = end(rt, board, seat);
    is_told && is_done && closed.least_failed == Some(3)
}

/// Of ten units the seventh fails, and the fourth.
const TWICE: &[FaultAt] = &[(0, Some(114688), 9), (0, Some(49157), 5)];

/// Whether two threads of a caller share the eight units, and read each byte once.
fn share_by_two<R: AllocGlobal + Abort + Threads + Sync>(rt: &R, plan: &Plan) -> bool {
    let source = reads_that_meet(LENGTH, 1, 8, MANY);
    is_shared_by_two(rt, &source, plan) && source.bytes.load(SeqCst) == LENGTH
}

fn is_each_least<R: AllocGlobal + Abort + Threads + Sync>(rt: &R, plan: &Plan) -> bool {
    for how in BY_SEVERAL {
        if !is_least(rt, plan, *how) {
            return false;
        }
    }
    true
}

/// Whether both hold of the plan of eight units.
fn hold_of_eight<R: AllocGlobal + Abort + Threads + Sync>(rt: &R) -> bool {
    match plan_of(rt, &[LENGTH], Kind::V2, 16384, 1) {
        Ok(plan) => share_by_two(rt, &plan) && is_each_least(rt, &plan),
        Err(_) => false,
    }
}

fn is_fourth_told<R: AllocGlobal + Abort>(rt: &R, plan: &Plan) -> bool {
    match failing(rt.alloc(), &[163840], TWICE) {
        Ok(source) => tells_the_fourth(rt, &source, plan),
        Err(_) => false,
    }
}

/// Whether a worker tells the fourth of ten units, which it failed.
fn holds_of_ten<R: AllocGlobal + Abort>(rt: &R) -> bool {
    match plan_of(rt, &[163840], Kind::V2, 16384, 1) {
        Ok(plan) => is_fourth_told(rt, &plan),
        Err(_) => false,
    }
}

#[test]
fn callers_share_a_board_and_are_told_the_least_unit_that_fails(rt: HostRuntime) {
    assert!(rt; hold_of_eight(&rt) && holds_of_ten(&rt));
}
