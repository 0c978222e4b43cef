//! Whether a hash stands at an index of a tree, as its siblings say (BEP 52, "piece layers").

ghost use Rattle.std.specs.Prelude.{◌≡◌, ◌+◌, ◌^◌, ◌<◌, ◌≤◌, length};
ghost use Rattle.std.specs.List.{list_all, range_with_len};
ghost use Rattle.tor_merkle.specs.Proof.{is_past_end, is_proof, is_zero_past_end, proof_root};
ghost use Rattle.tor_merkle.specs.Subtree.{height};

use crate::digits::height_of;
use crate::hash::{Hash, pair, zero};
use crate::proof::{Proof, sibling_index};

/// Whether `hash` stands at `index` of the `count` hashes, roots of subtrees of `2^level` leaves each, over which
/// `root` is the root: the proof has a sibling for each level of their tree, those past the end are zero subtrees, and
/// they lead to the root.
pub fn verify(root: &Hash, count: u64, level: u32, index: u64, hash: &Hash, proof: &Proof) -> bool
    requires low { level + height count ≤ 36 }
    ensures { result ≡ is_proof root.now count level index hash.now proof.now.siblings.items }
{
    if index >= count {
        return false;
    }
    if proof.siblings.len() != height_of(count) as usize {
        return false;
    }
    has_zeros_past_end(count, level, index, &proof.siblings)
        && root_from(index, hash, &proof.siblings) == *root
}

// Whether each sibling that covers only indices from `count` on is the zero subtree of its level.
fn has_zeros_past_end(count: u64, level: u32, index: u64, siblings: &[Hash]) -> bool
    requires low { level + length siblings.now ≤ 36 }
    requires within { index < 2 ^ 36 }
    ensures { result ≡ list_all (is_zero_past_end level count index siblings.now)
        (range_with_len 0 (length siblings.now)) }
{
    let mut above = 0;
    'siblings: for sibling in siblings {
        if is_past_end(count, index, above) && *sibling != zero(level + above) {
            return false;
        }
        above += 1;
    }
    true
}

// Whether the sibling at a level covers only indices from `count` on.
fn is_past_end(count: u64, index: u64, level: u32) -> bool
    requires within { index < 2 ^ 36 }
    requires low { level ≤ 36 }
    ensures { result ≡ is_past_end count index level }
{
    sibling_index(index, level) * (1 << level) >= count
}

// The root that a hash and its siblings name.
fn root_from(index: u64, hash: &Hash, siblings: &[Hash]) -> Hash
    ensures { result ≡ proof_root hash.now index siblings.now }
{
    let mut node = *hash;
    let mut node_index = index;
    'siblings: for sibling in siblings {
        node = if node_index % 2 == 0 {
            pair(&node, sibling)
        } else {
            pair(sibling, &node)
        };
        node_index /= 2;
    }
    node
}
