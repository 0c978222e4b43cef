//! Four callers' threads share a board.
ghost use Rattle.std.specs.Thread.{IsSync};
ghost use Rattle.tor_board.specs.Seats.{IsSeatOf};

use crate::board::shared::{all_tops, end, halves, has_root, root_over, tops, two_trees, work};
use std::process::Abort;
use std::thread::{Threads, join};
use tor_board::{Board, Closed, Given, Seat};

/// Two seats work at once, until no unit is left: the joined seat, and what all gives told.
fn share<R: AllocGlobal + Abort + Threads + Sync>(
    rt: &R,
    board: &Board,
    seat: Seat,
) -> (Seat, Vec<(u64, Given)>)
    requires { IsSeatOf board.now seat }
    ensures { IsSeatOf board.now result.0 }
{
    let (one, other) = halves(rt, board, seat);
    let (first, second) = join(
        rt,
        move || -> (Seat, Vec<(u64, Given)>)
            requires { IsSync R.row × IsSeatOf board.now one }
            ensures { IsSeatOf board.entry.now result.0 }
        { work_on(rt, board, one) },
        move || -> (Seat, Vec<(u64, Given)>)
            requires { IsSync R.row × IsSeatOf board.now other }
            ensures { IsSeatOf board.entry.now result.0 }
        { work_on(rt, board, other) },
    );
    together(rt, board, first, second)
}

/// One seat works.
fn work_on<R: AllocGlobal + Abort>(rt: &R, board: &Board, seat: Seat) -> (Seat, Vec<(u64, Given)>)
    requires { IsSeatOf board.now seat }
    ensures { IsSeatOf board.now result.0 }
{
    let mut seat = seat;
    let told = work(rt, board, &mut seat, 65);
    (seat, told)
}

/// The seats and what was told, put together.
fn together<R: Abort>(
    rt: &R,
    board: &Board,
    one: (Seat, Vec<(u64, Given)>),
    other: (Seat, Vec<(u64, Given)>),
) -> (Seat, Vec<(u64, Given)>)
    requires { IsSeatOf board.now one.0 × IsSeatOf board.now other.0 }
    ensures { IsSeatOf board.now result.0 }
{
    let (seat, mut told) = one;
    let (second, more) = other;
    for given in more {
        told.push(given).expect(rt, "memory");
    }
    (board.join(seat, second), told)
}

/// Four seats work at once.
fn share_by_four<R: AllocGlobal + Abort + Threads + Sync>(
    rt: &R,
    board: &Board,
    seat: Seat,
) -> (Seat, Vec<(u64, Given)>)
    requires { IsSeatOf board.now seat }
    ensures { IsSeatOf board.now result.0 }
{
    let (one, other) = halves(rt, board, seat);
    let (first, second) = join(
        rt,
        move || -> (Seat, Vec<(u64, Given)>)
            requires { IsSync R.row × IsSeatOf board.now one }
            ensures { IsSeatOf board.entry.now result.0 }
        { share(rt, board, one) },
        move || -> (Seat, Vec<(u64, Given)>)
            requires { IsSync R.row × IsSeatOf board.now other }
            ensures { IsSeatOf board.entry.now result.0 }
        { share(rt, board, other) },
    );
    together(rt, board, first, second)
}

/// How often a unit was given.
fn times(told: &[(u64, Given)], unit: u64) -> u32 {
    let mut count: u32 = 0;
    for one in told {
        if one.0 == unit {
            count = count.saturating_add(1);
        }
    }
    count
}

/// Whether each of 64 units was given once.
fn is_each_given_once(told: &[(u64, Given)]) -> bool {
    for unit in 0..64 {
        if times(told, unit) != 1 {
            return false;
        }
    }
    told.len() == 64
}

/// Whether the roots of two trees of 20 and 44 units were told once, and the board has them.
fn are_roots_told<R: AllocGlobal + Abort>(rt: &R, told: &[(u64, Given)], closed: &Closed) -> bool {
    let one = root_over(rt, 0, 20, 0);
    let two = root_over(rt, 20, 44, 1);
    all_tops(told) == 2
        && tops(told, 0, &one) == 1
        && tops(told, 1, &two) == 1
        && has_root(closed, 0, &one)
        && has_root(closed, 1, &two)
}

#[test]
fn callers_share(rt: HostRuntime) {
    let (board, seat) = two_trees(&rt, 0, 20, 44);
    let (seat, told) = share_by_four(&rt, &board, seat);
    let closed = end(&rt, board, seat);
    assert!(rt; is_each_given_once(&told));
    assert!(rt; are_roots_told(&rt, &told, &closed));
}
