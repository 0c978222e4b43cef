//! The functions of SHA-256 on one word (FIPS 180-4, 4.1.2).

ghost use Rattle.std.specs.Prelude.{◌≡◌, ℕ, ◌<◌, slice_index};
ghost use Rattle.sha2.specs.Sha256.{big_sigma0, big_sigma1, small_sigma0, small_sigma1};

use crate::words::{Words, rotated_right, shifted_right, xor};

// Of the working variable a.
#[inline(always)]
pub(crate) fn big_sigma0(x: Words) -> Words
    ensures { (j : ℕ) → j < 8 → slice_index result j ≡ big_sigma0 (slice_index x j) }
{
    xor(
        xor(rotated_right(x, 2), rotated_right(x, 13)),
        rotated_right(x, 22),
    )
}

// Of the working variable e.
#[inline(always)]
pub(crate) fn big_sigma1(x: Words) -> Words
    ensures { (j : ℕ) → j < 8 → slice_index result j ≡ big_sigma1 (slice_index x j) }
{
    xor(
        xor(rotated_right(x, 6), rotated_right(x, 11)),
        rotated_right(x, 25),
    )
}

// Of the word of the schedule fifteen words before.
#[inline(always)]
pub(crate) fn small_sigma0(x: Words) -> Words
    ensures { (j : ℕ) → j < 8 → slice_index result j ≡ small_sigma0 (slice_index x j) }
{
    xor(
        xor(rotated_right(x, 7), rotated_right(x, 18)),
        shifted_right(x, 3),
    )
}

// Of the word of the schedule two words before.
#[inline(always)]
pub(crate) fn small_sigma1(x: Words) -> Words
    ensures { (j : ℕ) → j < 8 → slice_index result j ≡ small_sigma1 (slice_index x j) }
{
    xor(
        xor(rotated_right(x, 17), rotated_right(x, 19)),
        shifted_right(x, 10),
    )
}
