//! The SHA-256 of eight blocks of 16,384 bytes.

ghost use Rattle.std.specs.Prelude.{◌≡◌, ℕ, ◌*◌, ◌<◌, ◌≤◌, List, [], drop, take, length, slice_index_or};
ghost use Rattle.sha2.specs.Sha256.{hash_after, initial_hash_256, padding, sha256};
ghost use Rattle.tor_hashes.specs.steps.Lanes.{eight_of, window, AreWordsOf};

use crate::sha256_block::{after_block, after_blocks};
use crate::sha256_digest::digests;
use crate::words::{Words, same};

pub(crate) const BLOCK_LENGTH: usize = 16384;

// The words of the padding of 16,384 bytes, which is a block of its own (FIPS 180-4, 5.1.1): a one, zeros, and
// the length in bits.
fn padding_words() -> [Words; 16]
    ensures { (j : ℕ) → j < 8 → AreWordsOf (padding 16384) (window j result) }
{
    let one = same(0x80000000);
    let zero = same(0);
    let length = same(BLOCK_LENGTH as u32 * 8);
    [
        one, zero, zero, zero, zero, zero, zero, zero, zero, zero, zero, zero, zero, zero, zero,
        length,
    ]
}

// The digests of blocks of 16,384 bytes, which have these hash values before their padding.
pub(crate) fn block_digests(hash: [Words; 8]) -> [[u8; 32]; 8]
    ensures { (j : ℕ) (bytes : List ℕ) → j < 8 → 16384 ≤ length bytes
        → eight_of j hash ≡ hash_after initial_hash_256 bytes 256
        → slice_index_or result j [] ≡ sha256 (take 16384 bytes) }
{
    let last = after_block(padding_words(), hash);
    digests(&last)
}

/// The SHA-256 of each of eight blocks of 16,384 bytes that lie one after another (FIPS 180-4).
pub fn block_hashes(blocks: &[u8]) -> [[u8; 32]; 8]
    requires { length blocks.now ≡ 8 * 16384 }
    ensures { (i : ℕ) → i < 8 → slice_index_or result i [] ≡ sha256 (take 16384 (drop (16384 * i) blocks.now)) }
{
    let hash = after_blocks(blocks, BLOCK_LENGTH, 8, BLOCK_LENGTH / 64);
    block_digests(hash)
}
