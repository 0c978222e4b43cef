//! Proofs that a hash stands at an index of a tree.
ghost use Rattle.std.specs.Prelude.{◌≡◌, ◌≢◌, ◌+◌, ◌≤◌, ℕ, IsTrue, List};
ghost use Rattle.sha2.specs.Sha256.{sha256};
ghost use Rattle.tor_merkle.specs.Proof.{is_proof};
ghost use Rattle.tor_merkle.specs.Subtree.{height};

use tor_merkle::{Hash, Proof, collide, verify};

/// Whether a hash stands at an index of so many of a level, over which this is the root (BEP 52, "piece layers").
pub fn is_proved(
    root: &Hash,
    count: u64,
    level: u32,
    index: u64,
    hash: &Hash,
    proof: &Proof,
) -> bool
    requires low { level + height count ≤ 36 }
    ensures { result ≡ is_proof root.now count level index hash.now proof.now.siblings.items }
{
    verify(root, count, level, index, hash, proof)
}

/// Two different texts with one SHA-256, if two different hashes have proofs for one index under one root.
pub fn collision(
    index: u64,
    hash: &Hash,
    proof: &Proof,
    other: &Hash,
    other_proof: &Proof,
) -> ([u8; 64], [u8; 64])
    ensures { (root : List ℕ) → (count level : ℕ)
        → IsTrue (is_proof root count level index hash.now proof.now.siblings.items)
        → IsTrue (is_proof root count level index other.now other_proof.now.siblings.items)
        → hash.now ≢ other.now
        → (result.0 ≢ result.1) × (sha256 result.0 ≡ sha256 result.1) }
{
    collide(index, hash, proof, other, other_proof)
}
