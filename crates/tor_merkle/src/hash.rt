//! Hashes of blocks, of inner nodes, and of subtrees past the end of a content.

ghost use Rattle.std.specs.Prelude.{◌≡◌, ◌≤◌, ◌++◌, length};
ghost use Rattle.sha2.specs.Sha256.{sha256};
ghost use Rattle.tor_merkle.specs.Subtree.{node_of, zero_subtree};

use sha2::{Digest, Sha256};

/// A SHA-256 hash: 32 bytes (FIPS 180-4, "SHA-256").
pub type Hash = [u8; 32];

/// The leaf of a block: its SHA-256 (BEP 52, "pieces root").
pub fn leaf(block: &[u8]) -> Hash
    ensures { result ≡ sha256 block.now }
{
    Sha256::digest(block)
}

/// The node over two children: the SHA-256 of their 64 bytes.
#[tactic(auto, unfolding(crate::specs::Subtree::node_of))]
pub fn pair(left: &Hash, right: &Hash) -> Hash
    ensures { result ≡ node_of left.now right.now }
{
    let mut hasher = Sha256::new();
    hasher.update(left.as_slice());
    hasher.update(right.as_slice());
    hasher.finalize()
}

/// The 64 bytes of two children, which [`pair`] hashes.
pub(crate) fn node_bytes(left: &Hash, right: &Hash) -> [u8; 64]
    ensures bytes { result ≡ left.now ++ right.now }
    ensures long { length result ≡ 64 }
{
    let mut text = [0; 64];
    text[..32].copy_from_slice(left.as_slice());
    text[32..].copy_from_slice(right.as_slice());
    text
}

/// The root of `2^level` leaves past the end of a content, each of which is 32 zero bytes (BEP 52, "pieces root").
#[tactic(auto, unfolding(crate::specs::Subtree::zero_leaf, crate::specs::Subtree::zero_subtree))]
pub fn zero(level: u32) -> Hash
    requires { level ≤ 36 }
    ensures { result ≡ zero_subtree level }
{
    let mut hash = [0; 32];
    for _below in 0..level {
        hash = pair(&hash, &hash);
    }
    hash
}
