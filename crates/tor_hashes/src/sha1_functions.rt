//! The functions and the constants of the rounds of SHA-1 (FIPS 180-4, 4.1.1 and 4.2.1).

ghost use Rattle.std.specs.Prelude.{◌≡◌, ℕ, ◌<◌, slice_index};
ghost use Rattle.sha1.specs.Sha1.{parity, round_constant, round_fn};

use crate::functions::{ch, maj};
use crate::sha1_constants::{K0, K20, K40, K60};
use crate::words::{Words, xor};

// The sum of three bits, without a carry.
#[inline(always)]
fn parity(x: Words, y: Words, z: Words) -> Words
    ensures { (j : ℕ) → j < 8 → slice_index result j ≡ parity (slice_index x j) (slice_index y j) (slice_index z j) }
{
    xor(xor(x, y), z)
}

// f of round t.
#[inline(always)]
pub(crate) fn function(t: usize, x: Words, y: Words, z: Words) -> Words
    ensures { (j : ℕ) → j < 8
        → slice_index result j ≡ round_fn t (slice_index x j) (slice_index y j) (slice_index z j) }
{
    if t < 20 {
        ch(x, y, z)
    } else if t < 40 {
        parity(x, y, z)
    } else if t < 60 {
        maj(x, y, z)
    } else {
        parity(x, y, z)
    }
}

// K of round t.
#[inline(always)]
pub(crate) fn constant(t: usize) -> u32
    ensures { result ≡ round_constant t }
{
    if t < 20 {
        K0
    } else if t < 40 {
        K20
    } else if t < 60 {
        K40
    } else {
        K60
    }
}
