//! Rows: what each give tells, by the order of the gives; failures, rooms, and a board that is closed at once.
ghost use Rattle.std.specs.Prelude.{◌≡◌};
ghost use Rattle.tor_board.specs.Seats.{IsSeatOf, knows};
ghost use Rattle.tor_board.specs.Desks.{holding};

use crate::board::shared::{
    Outcome, all_tops, end, gets_none, halves, joined, one_tree, tops, unit_hash, work, worked,
};
use std::process::Abort;
use tor_board::{Board, Closed, Given, Job, Seat, SplitError};
use tor_merkle::{Hash, pair, zero};

/// The root over five units.
fn root_of_five() -> Hash {
    let left = pair(
        &pair(&unit_hash(0), &unit_hash(1)),
        &pair(&unit_hash(2), &unit_hash(3)),
    );
    pair(&left, &pair(&pair(&unit_hash(4), &zero(0)), &zero(1)))
}

/// Whether that give told a top.
fn tells_top(told: &[(u64, Given)], index: usize) -> bool {
    match told.get(index) {
        Some(one) => one.1.top.is_some(),
        None => false,
    }
}

/// Whether a board of one tree ended so.
fn is_closed_as(closed: &Closed, least_failed: Option<u64>, root: &Option<Hash>) -> bool {
    closed.least_failed == least_failed
        && closed.roots.len() == 1
        && closed.roots.first() == Some(root)
}

/// Whether five units tell their root by the fifth give.
fn are_five_in_order(done: &Outcome) -> bool {
    joined(&done.told, &[0, 1, 0, 2, 1])
        && all_tops(&done.told) == 1
        && tops(&done.told, 0, &root_of_five()) == 1
        && tells_top(&done.told, 4)
        && is_closed_as(&done.closed, None, &Some(root_of_five()))
}

/// Whether they do on a board of theirs.
fn is_in_order<R: AllocGlobal + Abort>(rt: &R) -> bool {
    let (board, seat) = one_tree(rt, 5, 0);
    are_five_in_order(&worked(rt, board, seat, 6))
}

/// Whether a board that is closed at once has no root.
fn is_closed_at_once<R: AllocGlobal + Abort>(rt: &R) -> bool {
    let (board, seat) = one_tree(rt, 5, 0);
    is_closed_as(&end(rt, board, seat), None, &None)
}

#[test]
fn five_units_in_order(rt: HostRuntime) {
    assert!(rt; is_in_order(&rt) && is_closed_at_once(&rt));
}

/// A unit, which has to be there.
fn claimed<R: Abort>(rt: &R, board: &Board, seat: &mut Seat) -> Job
    requires { IsSeatOf board.now seat.old }
    ensures board { IsSeatOf board.now seat.new }
    ensures held { knows seat.new ≡ holding (knows seat.old) result.number }
{
    match board.claim(seat) {
        Some(job) => job,
        None => panic!(rt; "no unit"),
    }
}

/// What the gives of five units tell, the last claimed given first.
fn give_backwards<R: Abort>(rt: &R, board: &Board, seat: &mut Seat) -> [Given; 5]
    requires { IsSeatOf board.now seat.old }
    ensures { IsSeatOf board.now seat.new }
{
    let a = claimed(rt, board, seat);
    let b = claimed(rt, board, seat);
    let c = claimed(rt, board, seat);
    let d = claimed(rt, board, seat);
    let e = claimed(rt, board, seat);
    let last = board.give(seat, e, unit_hash(4));
    let fourth = board.give(seat, d, unit_hash(3));
    let third = board.give(seat, c, unit_hash(2));
    let second = board.give(seat, b, unit_hash(1));
    let first = board.give(seat, a, unit_hash(0));
    [last, fourth, third, second, first]
}

/// Whether five units that are given so tell their root by the last give.
fn are_backwards(given: &[Given; 5], closed: &Closed) -> bool {
    let [last, fourth, third, second, first] = given;
    last.joined == 0
        && fourth.joined == 0
        && third.joined == 1
        && second.joined == 0
        && first.joined == 3
        && first.top == Some((0, root_of_five()))
        && last.top.is_none()
        && fourth.top.is_none()
        && third.top.is_none()
        && second.top.is_none()
        && is_closed_as(closed, None, &Some(root_of_five()))
}

#[test]
fn five_units_backwards(rt: HostRuntime) {
    let (board, mut seat) = one_tree(&rt, 5, 0);
    let given = give_backwards(&rt, &board, &mut seat);
    let closed = end(&rt, board, seat);
    assert!(rt; are_backwards(&given, &closed));
}

/// Of four units the second fails, and then the fourth; the others are given.
fn fail_two<R: Abort>(rt: &R, board: &Board, one: &mut Seat, other: &mut Seat)
    requires { IsSeatOf board.now one.old × IsSeatOf board.now other.old }
    ensures { IsSeatOf board.now one.new × IsSeatOf board.now other.new }
{
    let a = claimed(rt, board, one);
    let b = claimed(rt, board, one);
    let c = claimed(rt, board, other);
    let d = claimed(rt, board, other);
    board.fail(one, b);
    board.fail(other, d);
    let _first = board.give(one, a, unit_hash(0));
    let _third = board.give(other, c, unit_hash(2));
}

/// Of three seats two fail units, after which no seat gets one.
fn fail_by_three<R: Abort>(rt: &R, board: &Board, seat: Seat) -> Seat
    requires { IsSeatOf board.now seat }
    ensures { IsSeatOf board.now result }
{
    let (mut one, seat) = halves(rt, board, seat);
    let (mut other, mut third) = halves(rt, board, seat);
    fail_two(rt, board, &mut one, &mut other);
    assert!(rt; gets_none(board, &mut one));
    assert!(rt; gets_none(board, &mut third));
    board.join(board.join(one, other), third)
}

#[test]
fn the_least_failed_unit_is_told(rt: HostRuntime) {
    let (board, seat) = one_tree(&rt, 5, 0);
    let seat = fail_by_three(&rt, &board, seat);
    assert!(rt; is_closed_as(&end(&rt, board, seat), Some(1), &None));
}

/// Splits off a seat of each of these rooms, and then one more, which has to be refused: the seat handed back then, and
/// the others as one.
fn split_off<R: Abort>(rt: &R, board: &Board, seat: Seat, rooms: &[u32]) -> (Seat, Seat)
    requires { IsSeatOf board.now seat }
    ensures { IsSeatOf board.now result.0 × IsSeatOf board.now result.1 }
{
    let (mut seat, mut others) = halves(rt, board, seat);
    assert!(rt; Board::room(&others) == 128);
    'rooms: for room in rooms {
        let (old, new) = halves(rt, board, seat);
        assert!(rt; Board::room(&new) == *room);
        seat = old;
        others = board.join(others, new);
    }
    let Err((last, SplitError::TooManySeats)) = board.split(seat) else {
        panic!(rt; "a ninth seat")
    };
    assert!(rt; Board::room(&last) == 1);
    (last, others)
}

/// Whether the seat that was handed back goes on.
fn goes_on<R: AllocGlobal + Abort>(rt: &R, board: Board, last: Seat, others: Seat) -> bool
    requires { IsSeatOf board last × IsSeatOf board others }
{
    let mut last = last;
    let told = work(rt, &board, &mut last, 6);
    let whole = board.join(last, others);
    let closed = end(rt, board, whole);
    joined(&told, &[0, 1, 0, 2, 1]) && is_closed_as(&closed, None, &Some(root_of_five()))
}

#[test]
fn a_seat_is_split_eight_times(rt: HostRuntime) {
    let (board, seat) = one_tree(&rt, 5, 0);
    let (last, others) = split_off(&rt, &board, seat, &[64, 32, 16, 8, 4, 2, 1]);
    assert!(rt; goes_on(&rt, board, last, others));
}
