//! Neighbouring nodes of a tree, eight at a time.

ghost use Rattle.std.specs.Prelude.{◌≡◌, ℕ, ◌+◌, ◌*◌, ◌^◌, ◌<◌, ◌≤◌, [], length, slice_index_or};
ghost use Rattle.tor_merkle.specs.Subtree.{node_of, zero_subtree};
ghost use Rattle.tor_merkle.specs.steps.Node.{node};

use crate::hash::{Hash, node_bytes, zero};
use tor_hashes::node_hashes;

/// The first eight nodes of the level `above` over hashes, roots of subtrees of `2^level` leaves; past their end stand
/// zero subtrees.
pub(crate) fn first_eight(hashes: &[Hash], level: u32, above: u32) -> [Hash; 8]
    requires low { level + above ≤ 36 }
    requires wide { length hashes.now ≤ 8 * 2 ^ above }
    ensures eight { length result ≡ 8 }
    ensures nodes { (i : ℕ) → i < 8 → slice_index_or result i [] ≡ node level hashes.now above i }
{
    if above == 0 {
        return widened(hashes, level);
    }
    let half = 8 * (1 << (above - 1));
    if hashes.len() <= half {
        let left = first_eight(hashes, level, above - 1);
        return nodes_over(&left, &[zero(level + above - 1); 8]);
    }
    let (front, back) = hashes.split_at(half);
    let left = first_eight(front, level, above - 1);
    let right = first_eight(back, level, above - 1);
    nodes_over(&left, &right)
}

// At most eight hashes, followed by zero subtrees.
fn widened(hashes: &[Hash], level: u32) -> [Hash; 8]
    requires low { level ≤ 36 }
    requires few { length hashes.now ≤ 8 }
    ensures eight { length result ≡ 8 }
    ensures hashes { (i : ℕ) → i < 8 → slice_index_or result i [] ≡ slice_index_or hashes.now i (zero_subtree level) }
{
    if let Some(eight) = hashes.as_array::<8>() {
        return *eight;
    }
    let mut eight = [zero(level); 8];
    eight[..hashes.len()].copy_from_slice(hashes);
    eight
}

// The nodes over eight hashes and the eight after them.
fn nodes_over(left: &[Hash; 8], right: &[Hash; 8]) -> [Hash; 8]
    ensures eight { length result ≡ 8 }
    ensures first { (i : ℕ) → i < 4 → slice_index_or result i []
        ≡ node_of (slice_index_or left.now (2 * i) []) (slice_index_or left.now (2 * i + 1) []) }
    ensures last { (i : ℕ) → i < 4 → slice_index_or result (4 + i) []
        ≡ node_of (slice_index_or right.now (2 * i) []) (slice_index_or right.now (2 * i + 1) []) }
{
    let texts = [
        node_bytes(&left[0], &left[1]),
        node_bytes(&left[2], &left[3]),
        node_bytes(&left[4], &left[5]),
        node_bytes(&left[6], &left[7]),
        node_bytes(&right[0], &right[1]),
        node_bytes(&right[2], &right[3]),
        node_bytes(&right[4], &right[5]),
        node_bytes(&right[6], &right[7]),
    ];
    node_hashes(texts.as_flattened())
}
