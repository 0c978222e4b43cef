//! Two different hashes for one index of a tree: what their proofs are worth.

ghost use Rattle.std.specs.Prelude.{◌≡◌, ◌≢◌, ℕ, ◌%◌, ◌==◌, List, ◌++◌, IsTrue, length, if◌then◌else◌};
ghost use Rattle.sha2.specs.Sha256.{sha256};
ghost use Rattle.tor_merkle.specs.Proof.{is_proof};

use crate::hash::{Hash, leaf, node_bytes};
use crate::proof::Proof;

/// Two different texts of 64 bytes with one SHA-256, if two different hashes have accepted proofs for one index under
/// one root. Of other hashes or proofs the texts say nothing.
pub fn collide(
    index: u64,
    hash: &Hash,
    proof: &Proof,
    other: &Hash,
    other_proof: &Proof,
) -> ([u8; 64], [u8; 64])
    ensures { (root : List ℕ) → (count level : ℕ)
        → IsTrue (is_proof root count level index hash.now proof.now.siblings.items)
        → IsTrue (is_proof root count level index other.now other_proof.now.siblings.items)
        → hash.now ≢ other.now
        → (result.0 ≢ result.1) × (sha256 result.0 ≡ sha256 result.1) }
{
    let mut node = *hash;
    let mut other_node = *other;
    let mut node_index = index;
    'levels: for (sibling, other_sibling) in proof.siblings.iter().zip(&other_proof.siblings) {
        let text = children(node_index, &node, sibling);
        let other_text = children(node_index, &other_node, other_sibling);
        node = leaf(&text);
        other_node = leaf(&other_text);
        if node == other_node {
            return (text, other_text);
        }
        node_index /= 2;
    }
    ([0; 64], [0; 64])
}

// The 64 bytes of a hash and its sibling, at an even index the hash first.
fn children(index: u64, hash: &Hash, sibling: &Hash) -> [u8; 64]
    ensures text { result ≡ (if index % 2 == 0 then hash.now ++ sibling.now else sibling.now ++ hash.now) }
    ensures lengths { (length hash.now ≡ 32) × (length sibling.now ≡ 32) }
{
    if index % 2 == 0 {
        node_bytes(hash, sibling)
    } else {
        node_bytes(sibling, hash)
    }
}
