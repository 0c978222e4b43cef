//! The SHA-1 of eight pieces of one length, a multiple of 64.

ghost use Rattle.std.specs.Prelude.{◌≡◌, ℕ, ◌*◌, ◌%◌, ◌^◌, ◌<◌, ◌≤◌, [], drop, take, length, slice_index_or};
ghost use Rattle.sha1.specs.Sha1.{padding, sha1};
ghost use Rattle.tor_hashes.specs.steps.Lanes.{window, AreWordsOf};

use crate::sha1_block::{after_block, after_blocks};
use crate::sha1_digest::digests;
use crate::words::{Words, same};

// The words of the padding of `size` bytes, which is a block of its own (FIPS 180-4, 5.1.1): a one, zeros, and the
// length in bits.
fn padding_words(size: usize) -> [Words; 16]
    requires whole { size % 64 ≡ 0 }
    requires most { size ≤ 2 ^ 28 }
    ensures { (j : ℕ) → j < 8 → AreWordsOf (padding size) (window j result) }
{
    let one = same(0x80000000);
    let zero = same(0);
    let length = same(size as u32 * 8);
    [
        one, zero, zero, zero, zero, zero, zero, zero, zero, zero, zero, zero, zero, zero, zero,
        length,
    ]
}

/// The SHA-1 of each of eight messages of `size` bytes, a multiple of 64 and at most 2^28, that lie one after another.
pub fn piece_hashes(pieces: &[u8], size: usize) -> [[u8; 20]; 8]
    requires whole { size % 64 ≡ 0 }
    requires most { size ≤ 2 ^ 28 }
    requires length { length pieces.now ≡ 8 * size }
    ensures { (i : ℕ) → i < 8 → slice_index_or result i [] ≡ sha1 (take size (drop (size * i) pieces.now)) }
{
    let hash = after_blocks(pieces, size, size / 64);
    let last = after_block(padding_words(size), hash);
    digests(&last)
}
