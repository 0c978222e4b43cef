//! The SHA-256 of the last blocks of a content, the last of which may be shorter than 16,384 bytes.

ghost use Rattle.std.specs.Prelude.{◌≡◌, ℕ, ◌*◌, ◌<◌, ◌≤◌, [], drop, take, length, slice_index_or};
ghost use Rattle.sha2.specs.Sha256.{hash_after, initial_hash_256, sha256};
ghost use Rattle.tor_hashes.specs.steps.Lanes.{eight_of};

use crate::blocks::{BLOCK_LENGTH, block_digests};
use crate::message_end::ended_hash;
use crate::sha256_block::{after_blocks, next_blocks};
use crate::words::Words;

/// The SHA-256 of each of at most eight blocks that lie one after another (FIPS 180-4), of 16,384 bytes but for the
/// last, which may be shorter. Hashes that follow are of no block.
pub fn last_block_hashes(blocks: &[u8]) -> [[u8; 32]; 8]
    requires { length blocks.now ≤ 8 * 16384 }
    ensures eight { length result ≡ 8 }
    ensures hashes { (i : ℕ) → 16384 * i < length blocks.now →
        slice_index_or result i [] ≡ sha256 (take 16384 (drop (16384 * i) blocks.now)) }
{
    let last = blocks.len().saturating_sub(1) / BLOCK_LENGTH;
    let (_, block) = blocks.split_at(BLOCK_LENGTH * last);
    let done = block.len() / 64;
    let hash = after_blocks(blocks, BLOCK_LENGTH, last + 1, done);
    let mut hashes = earlier_hashes(blocks, last, hash, done);
    hashes[last] = ended_hash(hash, last, block);
    hashes
}

// The SHA-256 of each of so many whole blocks, which have these hash values after `done` blocks of the standard's.
fn earlier_hashes(blocks: &[u8], count: usize, hash: [Words; 8], done: usize) -> [[u8; 32]; 8]
    requires few { count < 8 }
    requires whole { 16384 * count ≤ length blocks.now }
    requires done { done ≤ 256 }
    requires hash { (j : ℕ) → j < count →
        eight_of j hash ≡ hash_after initial_hash_256 (drop (16384 * j) blocks.now) done }
    ensures { (i : ℕ) → i < count →
        slice_index_or result i [] ≡ sha256 (take 16384 (drop (16384 * i) blocks.now)) }
{
    if count == 0 {
        return [[0; 32]; 8];
    }
    let hash = next_blocks(blocks, BLOCK_LENGTH, count, hash, done, BLOCK_LENGTH / 64);
    block_digests(hash)
}
