//! Trees of other counts and levels, two trees in either order, units of no tree.

use crate::board::shared::{
    Outcome, all_tops, falling_trees, has_root, joined, joined_in_all, one_tree, root_over, tops,
    two_trees, unit_hash, worked,
};
use std::process::Abort;
use tor_merkle::{Hash, pair, zero};

/// Whether three units of level 1 have the root that BEP 52 says.
fn are_three_above_level_0(done: &Outcome) -> bool {
    let root = pair(
        &pair(&unit_hash(0), &unit_hash(1)),
        &pair(&unit_hash(2), &zero(1)),
    );
    joined(&done.told, &[0, 1, 1])
        && tops(&done.told, 0, &root) == 1
        && has_root(&done.closed, 0, &root)
}

fn is_above_level_0<R: AllocGlobal + Abort>(rt: &R) -> bool {
    let (board, seat) = one_tree(rt, 3, 1);
    are_three_above_level_0(&worked(rt, board, seat, 3))
}

/// Whether trees of two and of three units have, before each of which stands a unit of none.
fn are_two_trees(done: &Outcome) -> bool {
    let one = pair(&unit_hash(1), &unit_hash(2));
    let two = pair(
        &pair(&unit_hash(4), &unit_hash(5)),
        &pair(&unit_hash(6), &zero(1)),
    );
    joined(&done.told, &[0, 0, 1, 0, 0, 1, 1])
        && all_tops(&done.told) == 2
        && tops(&done.told, 0, &one) == 1
        && tops(&done.told, 1, &two) == 1
        && has_root(&done.closed, 0, &one)
        && has_root(&done.closed, 1, &two)
}

fn has_two_trees<R: AllocGlobal + Abort>(rt: &R) -> bool {
    let (board, seat) = two_trees(rt, 1, 2, 3);
    are_two_trees(&worked(rt, board, seat, 7))
}

/// Whether trees of three and of two units, handed in in falling order, have these tops and roots in that order.
fn are_falling_trees(done: &Outcome, last: &Hash, first: &Hash) -> bool {
    joined(&done.told, &[0, 0, 1, 0, 0, 1, 1])
        && all_tops(&done.told) == 2
        && tops(&done.told, 0, last) == 1
        && tops(&done.told, 1, first) == 1
        && has_root(&done.closed, 0, last)
        && has_root(&done.closed, 1, first)
}

fn has_falling_trees<R: AllocGlobal + Abort>(rt: &R) -> bool {
    let (board, seat) = falling_trees(rt);
    are_falling_trees(
        &worked(rt, board, seat, 7),
        &root_over(rt, 4, 3, 1),
        &root_over(rt, 1, 2, 0),
    )
}

#[test]
fn trees_in_falling_order(rt: HostRuntime) {
    assert!(rt; has_falling_trees(&rt));
}

/// Whether the gives of so many units of one tree came second once less than there are units, and one told the root.
fn are_complete(done: &Outcome, count: u64, root: &Hash) -> bool {
    joined_in_all(&done.told) as u64 == count.saturating_sub(1)
        && all_tops(&done.told) == 1
        && tops(&done.told, 0, root) == 1
        && has_root(&done.closed, 0, root)
}

/// Whether they are of a board of so many.
fn is_complete<R: AllocGlobal + Abort>(rt: &R, count: u64) -> bool {
    if count < 2 || count > 128 {
        return false;
    }
    let (board, seat) = one_tree(rt, count, 0);
    are_complete(
        &worked(rt, board, seat, count),
        count,
        &root_over(rt, 0, count, 0),
    )
}

/// Of 64 units, and one less or more.
const COUNTS: &[u64] = &[63, 64, 65];

fn are_complete_trees<R: AllocGlobal + Abort>(rt: &R) -> bool {
    for count in COUNTS {
        if !is_complete(rt, *count) {
            return false;
        }
    }
    true
}

#[test]
fn trees_of_other_counts_and_levels(rt: HostRuntime) {
    assert!(rt; is_above_level_0(&rt) && has_two_trees(&rt));
    assert!(rt; are_complete_trees(&rt));
}
