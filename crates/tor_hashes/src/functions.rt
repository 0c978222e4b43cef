//! The functions on words that SHA-1 and SHA-256 share (FIPS 180-4, 4.1.1 and 4.1.2).

ghost use Rattle.std.specs.Prelude.{◌≡◌, ℕ, ◌<◌, slice_index};
ghost use Rattle.sha1.specs.Sha1.{ch, maj};

use crate::words::{Words, and, not, xor};

// Each bit of `x` chooses between those of `y` and `z`.
#[inline(always)]
pub(crate) fn ch(x: Words, y: Words, z: Words) -> Words
    ensures { (j : ℕ) → j < 8 → slice_index result j ≡ ch (slice_index x j) (slice_index y j) (slice_index z j) }
{
    xor(and(x, y), and(not(x), z))
}

// The bit that two of three have at the least.
#[inline(always)]
pub(crate) fn maj(x: Words, y: Words, z: Words) -> Words
    ensures { (j : ℕ) → j < 8 → slice_index result j ≡ maj (slice_index x j) (slice_index y j) (slice_index z j) }
{
    xor(xor(and(x, y), and(x, z)), and(y, z))
}
