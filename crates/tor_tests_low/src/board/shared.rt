//! What the tests share: boards, work on them, and their end.
ghost use Rattle.std.specs.Prelude.{◌+◌, ◌*◌, ◌<◌, ◌≤◌};
ghost use Rattle.tor_board.specs.Seats.{IsSeatOf};

use std::process::Abort;
use tor_board::{Board, Closed, Given, Seat};
use tor_merkle::{Hash, layer_root, leaf};
use tor_plan::{Forest, Run};

/// The hash that a unit is given with.
pub(crate) fn unit_hash(unit: u64) -> Hash {
    leaf(&unit.to_be_bytes())
}

/// A board of so many units, all of one tree.
pub(crate) fn one_tree<R: AllocGlobal + Abort>(rt: &R, count: u64, level: u32) -> (Board, Seat)
    requires { (2 ≤ count) × (count ≤ 128) × (level ≤ 2) }
    ensures { IsSeatOf result.0 result.1 }
{
    let alloc = rt.alloc();
    let run = Run {
        first: 0,
        count,
        level,
    };
    let trees = vec![in alloc; run].expect(rt, "memory");
    Board::open(alloc, &Forest { trees }, count).expect(rt, "memory")
}

/// A board of two trees, before each of which stand so many units of no tree. Units of the second have level 1.
pub(crate) fn two_trees<R: AllocGlobal + Abort>(
    rt: &R,
    alone: u64,
    one: u64,
    two: u64,
) -> (Board, Seat)
    requires { (alone ≤ 128) × (2 ≤ one) × (one ≤ 128) × (2 ≤ two) × (two ≤ 128) }
    ensures { IsSeatOf result.0 result.1 }
{
    let alloc = rt.alloc();
    let first = Run {
        first: alone,
        count: one,
        level: 0,
    };
    let second = Run {
        first: 2 * alone + one,
        count: two,
        level: 1,
    };
    let trees = vec![in alloc; first, second].expect(rt, "memory");
    Board::open(alloc, &Forest { trees }, 2 * alone + one + two).expect(rt, "memory")
}

/// A board of two trees that are handed in in falling order: three units of level 1 from the fifth on, and two of
/// level 0 from the second on.
pub(crate) fn falling_trees<R: AllocGlobal + Abort>(rt: &R) -> (Board, Seat)
    ensures { IsSeatOf result.0 result.1 }
{
    let alloc = rt.alloc();
    let last = Run {
        first: 4,
        count: 3,
        level: 1,
    };
    let first = Run {
        first: 1,
        count: 2,
        level: 0,
    };
    let trees = vec![in alloc; last, first].expect(rt, "memory");
    Board::open(alloc, &Forest { trees }, 7).expect(rt, "memory")
}

/// Two seats of one, which has to have room for them.
pub(crate) fn halves<R: Abort>(rt: &R, board: &Board, seat: Seat) -> (Seat, Seat)
    requires { IsSeatOf board.now seat }
    ensures { IsSeatOf board.now result.0 × IsSeatOf board.now result.1 }
{
    match board.split(seat) {
        Ok(seats) => seats,
        Err(_) => panic!(rt; "no room for two seats"),
    }
}

/// Whether a claim gets no unit.
pub(crate) fn gets_none(board: &Board, seat: &mut Seat) -> bool
    requires { IsSeatOf board.now seat.old }
    ensures { IsSeatOf board.now seat.new }
{
    match board.claim(seat) {
        None => true,
        Some(job) => {
            board.fail(seat, job);
            false
        }
    }
}

/// Claims at most so many units and gives each at once: which they were, and what each give told.
pub(crate) fn work<R: AllocGlobal + Abort>(
    rt: &R,
    board: &Board,
    seat: &mut Seat,
    most: u64,
) -> Vec<(u64, Given)>
    requires { IsSeatOf board.now seat.old }
    ensures { IsSeatOf board.now seat.new }
{
    let mut told = Vec::new(rt.alloc());
    'units: for _ in 0..most {
        let Some(job) = board.claim(seat) else {
            return told;
        };
        let unit = job.number();
        let given = board.give(seat, job, unit_hash(unit));
        told.push((unit, given)).expect(rt, "memory");
    }
    told
}

/// Ends a board, whose seats have to be one again.
pub(crate) fn end<R: Abort>(rt: &R, board: Board, seat: Seat) -> Closed
    requires { IsSeatOf board seat }
{
    if Board::room(&seat) != 256 {
        panic!(rt; "not all seats");
    }
    board.close(seat)
}

/// A board that was worked: what each give told, and how the board ended.
#[derive(Drop)]
pub(crate) struct Outcome {
    pub(crate) told: Vec<(u64, Given)>,
    pub(crate) closed: Closed,
}

/// Works through at most so many units by one seat, and ends the board.
pub(crate) fn worked<R: AllocGlobal + Abort>(rt: &R, board: Board, seat: Seat, most: u64) -> Outcome
    requires { IsSeatOf board seat }
{
    let mut seat = seat;
    let told = work(rt, &board, &mut seat, most);
    let closed = end(rt, board, seat);
    Outcome { told, closed }
}

/// Whether that give came second to so many nodes.
fn is_joined(told: &[(u64, Given)], index: usize, joined: u32) -> bool {
    match told.get(index) {
        Some(one) => one.1.joined == joined,
        None => false,
    }
}

/// Whether the gives came second to so many nodes, in this order.
pub(crate) fn joined(told: &[(u64, Given)], wanted: &[u32]) -> bool {
    for (index, joined) in wanted.iter().enumerate() {
        if !is_joined(told, index, *joined) {
            return false;
        }
    }
    told.len() == wanted.len()
}

/// How often a give told this top.
pub(crate) fn tops(told: &[(u64, Given)], tree: u64, root: &Hash) -> u32 {
    let mut count: u32 = 0;
    for one in told {
        if one.1.top == Some((tree, *root)) {
            count = count.saturating_add(1);
        }
    }
    count
}

/// At how many nodes all gives came second.
pub(crate) fn joined_in_all(told: &[(u64, Given)]) -> u32 {
    let mut sum: u32 = 0;
    for one in told {
        sum = sum.saturating_add(one.1.joined);
    }
    sum
}

/// Whether that tree of a closed board has this root.
pub(crate) fn has_root(closed: &Closed, tree: usize, root: &Hash) -> bool {
    let wanted = Some(*root);
    closed.roots.get(tree) == Some(&wanted)
}

/// How often a give told any.
pub(crate) fn all_tops(told: &[(u64, Given)]) -> u32 {
    let mut count: u32 = 0;
    for one in told {
        if one.1.top.is_some() {
            count = count.saturating_add(1);
        }
    }
    count
}

/// The root over the hashes of so many units, from one on.
pub(crate) fn root_over<R: AllocGlobal + Abort>(rt: &R, first: u64, count: u64, level: u32) -> Hash
    requires { (first ≤ 128) × (count ≤ 128) × (level ≤ 2) }
{
    let mut hashes = Vec::new(rt.alloc());
    'units: for unit in first..first + count {
        hashes.push(unit_hash(unit)).expect(rt, "memory");
    }
    if hashes.is_empty() || hashes.len() > 128 {
        panic!(rt; "no tree");
    }
    layer_root(&hashes, level)
}
