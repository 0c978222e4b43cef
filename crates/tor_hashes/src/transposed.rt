//! Eight vectors of eight words transposed: word j of vector k becomes word k of vector j.
//!
//! Vectors exchange words two by two: first those four apart, a half of each; then those two apart, a pair of each
//! half; then neighbours, a word of each pair. Each time one binary digit of a word's lane becomes that of its vector.

ghost use Rattle.std.specs.Prelude.{◌≡◌, ℕ, ◌<◌};
ghost use Rattle.tor_hashes.specs.steps.Lanes.{word_of};
ghost use Rattle.tor_hashes.specs.steps.Shuffles.{halves_of, pairs_of, singles_of};

use crate::words::Words;

// Exchanges the second half of the first vector for the first half of the second.
#[inline(always)]
fn halves(x: Words, y: Words) -> (Words, Words)
    ensures { result ≡ halves_of x y }
{
    (
        x.shuffle(y, [0, 1, 2, 3, 8, 9, 10, 11]),
        x.shuffle(y, [4, 5, 6, 7, 12, 13, 14, 15]),
    )
}

// Exchanges in each half the second pair of the first vector for the first pair of the second.
#[inline(always)]
fn pairs(x: Words, y: Words) -> (Words, Words)
    ensures { result ≡ pairs_of x y }
{
    (
        x.shuffle(y, [0, 1, 8, 9, 4, 5, 12, 13]),
        x.shuffle(y, [2, 3, 10, 11, 6, 7, 14, 15]),
    )
}

// Exchanges in each pair the second word of the first vector for the first word of the second.
#[inline(always)]
fn singles(x: Words, y: Words) -> (Words, Words)
    ensures { result ≡ singles_of x y }
{
    (
        x.shuffle(y, [0, 8, 2, 10, 4, 12, 6, 14]),
        x.shuffle(y, [1, 9, 3, 11, 5, 13, 7, 15]),
    )
}

// Word j of vector k becomes word k of vector j.
#[inline(always)]
pub(crate) fn transposed(vectors: [Words; 8]) -> [Words; 8]
    ensures { (j k : ℕ) → j < 8 → k < 8 → word_of j result k ≡ word_of k vectors j }
{
    let [a, b, c, d, e, f, g, h] = vectors;
    let (a, e) = halves(a, e);
    let (b, f) = halves(b, f);
    let (c, g) = halves(c, g);
    let (d, h) = halves(d, h);
    let (a, c) = pairs(a, c);
    let (b, d) = pairs(b, d);
    let (e, g) = pairs(e, g);
    let (f, h) = pairs(f, h);
    let (a, b) = singles(a, b);
    let (c, d) = singles(c, d);
    let (e, f) = singles(e, f);
    let (g, h) = singles(g, h);
    [a, b, c, d, e, f, g, h]
}
