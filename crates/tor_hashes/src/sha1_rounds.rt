//! The 80 rounds of SHA-1 on a block of each of eight messages (FIPS 180-4, 6.1.2, steps 1 to 3).
//!
//! Of the schedule W the last sixteen words are kept: W of t is at index t % 16.

ghost use Rattle.std.specs.Prelude.{◌≡◌, ℕ, ◌+◌, ◌%◌, ◌<◌, ◌≤◌, List, slice_index, slice_set};
ghost use Rattle.sha1.specs.Sha1.{round, rounds, schedule, window_word, IsRoundsAt, IsWindow};
ghost use Rattle.tor_hashes.specs.steps.Lanes.{five_of, window};

use crate::sha1_functions::{constant, function};
use crate::words::{Words, add, rotated_left, same, xor};

// One round on the working variables, with a value of f, a word of K and one of W.
#[inline(always)]
fn round(v: [Words; 5], f: Words, k: u32, word: Words) -> [Words; 5]
    ensures { (j : ℕ) → j < 8
        → five_of j result ≡ round (five_of j v) (slice_index f j) k (slice_index word j) }
{
    let [a, b, c, d, e] = v;
    let sum1 = add(rotated_left(a, 5), f);
    let sum2 = add(sum1, e);
    let sum3 = add(sum2, same(k));
    [add(sum3, word), a, rotated_left(b, 30), c, d]
}

// W of t, for t from 16 on, at the index of W of t - 16.
#[inline(always)]
fn next_word(w: &mut [Words; 16], t: usize) -> Words
    requires { t < 80 }
    ensures value { (j : ℕ) → j < 8 → slice_index result j ≡ window_word (window j w.old) t }
    ensures window { w.new ≡ slice_set w.old (t % 16) result }
{
    let sum1 = xor(w[(t + 13) % 16], w[(t + 8) % 16]);
    let sum2 = xor(sum1, w[(t + 2) % 16]);
    let word = rotated_left(xor(sum2, w[t % 16]), 1);
    w[t % 16] = word;
    word
}

// Round t, for t below 16.
#[inline(always)]
fn first_round(w: &[Words; 16], v: [Words; 5], t: usize) -> [Words; 5]
    requires { t < 16 }
    ensures { (j : ℕ) (b h : List ℕ) → j < 8 → IsWindow (window j w.now) (schedule b 64) 16
        → five_of j v ≡ rounds h (schedule b 64) t → five_of j result ≡ rounds h (schedule b 64) (t + 1) }
{
    let f = function(t, v[1], v[2], v[3]);
    round(v, f, constant(t), w[t])
}

// Four rounds from t on, with words of the block.
#[inline(always)]
fn four_first_rounds(w: &[Words; 16], v: [Words; 5], t: usize) -> [Words; 5]
    requires { t + 4 ≤ 16 }
    ensures { (j : ℕ) (b h : List ℕ) → j < 8 → IsWindow (window j w.now) (schedule b 64) 16
        → five_of j v ≡ rounds h (schedule b 64) t → five_of j result ≡ rounds h (schedule b 64) (t + 4) }
{
    let v = first_round(w, v, t);
    let v = first_round(w, v, t + 1);
    let v = first_round(w, v, t + 2);
    first_round(w, v, t + 3)
}

// The rounds with the words of the block.
#[inline(always)]
pub(crate) fn first_rounds(w: &[Words; 16], v: [Words; 5]) -> [Words; 5]
    ensures { (j : ℕ) (b h : List ℕ) → j < 8 → IsWindow (window j w.now) (schedule b 64) 16
        → five_of j v ≡ rounds h (schedule b 64) 0 → five_of j result ≡ rounds h (schedule b 64) 16 }
{
    let v = four_first_rounds(w, v, 0);
    let v = four_first_rounds(w, v, 4);
    let v = four_first_rounds(w, v, 8);
    four_first_rounds(w, v, 12)
}

// Round t, for t from 16 on.
#[inline(always)]
fn next_round(w: &mut [Words; 16], v: [Words; 5], t: usize) -> [Words; 5]
    requires least { 16 ≤ t }
    requires most { t < 80 }
    ensures { (j : ℕ) (b h : List ℕ) → j < 8 → IsRoundsAt b h (window j w.old) (five_of j v) t
        → IsRoundsAt b h (window j w.new) (five_of j result) (t + 1) }
{
    let word = next_word(w, t);
    let f = function(t, v[1], v[2], v[3]);
    round(v, f, constant(t), word)
}

// Four rounds from t on, with words that follow.
#[inline(always)]
fn four_next_rounds(w: &mut [Words; 16], v: [Words; 5], t: usize) -> [Words; 5]
    requires least { 16 ≤ t }
    requires most { t + 4 ≤ 80 }
    ensures { (j : ℕ) (b h : List ℕ) → j < 8 → IsRoundsAt b h (window j w.old) (five_of j v) t
        → IsRoundsAt b h (window j w.new) (five_of j result) (t + 4) }
{
    let v = next_round(w, v, t);
    let v = next_round(w, v, t + 1);
    let v = next_round(w, v, t + 2);
    next_round(w, v, t + 3)
}

// Sixteen rounds from T on, with words that follow from those before them.
pub(crate) fn next_rounds<const T: usize>(w: &mut [Words; 16], v: [Words; 5]) -> [Words; 5]
    requires least { 16 ≤ T }
    requires most { T + 16 ≤ 80 }
    ensures { (j : ℕ) (b h : List ℕ) → j < 8 → IsRoundsAt b h (window j w.old) (five_of j v) T
        → IsRoundsAt b h (window j w.new) (five_of j result) (T + 16) }
{
    let v = four_next_rounds(w, v, T);
    let v = four_next_rounds(w, v, T + 4);
    let v = four_next_rounds(w, v, T + 8);
    four_next_rounds(w, v, T + 12)
}
