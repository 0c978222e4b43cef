//! The 64 rounds of SHA-256 on a block of each of eight messages (FIPS 180-4, 6.2.2, steps 1 to 3).
//!
//! Of the schedule W the last sixteen words are kept: W of t is at index t % 16.

ghost use Rattle.std.specs.Prelude.{◌≡◌, ℕ, ◌+◌, ◌*◌, ◌%◌, ◌<◌, ◌≤◌, List, slice_index, slice_set};
ghost use Rattle.sha2.specs.Sha256.{round, rounds, schedule, window_word, IsRoundsAt, IsWindow};
ghost use Rattle.tor_hashes.specs.steps.Lanes.{eight_of, window};

use crate::functions::{ch, maj};
use crate::sha256_constants::K;
use crate::sha256_functions::{big_sigma0, big_sigma1, small_sigma0, small_sigma1};
use crate::words::{Words, add, same};

// One round on the working variables, with a word of K and one of W.
#[inline(always)]
pub(crate) fn round(v: [Words; 8], k: u32, word: Words) -> [Words; 8]
    ensures { (j : ℕ) → j < 8 → eight_of j result ≡ round (eight_of j v) k (slice_index word j) }
{
    let [a, b, c, d, e, f, g, h] = v;
    let sum1 = add(h, big_sigma1(e));
    let sum2 = add(sum1, ch(e, f, g));
    let sum3 = add(sum2, same(k));
    let temp1 = add(sum3, word);
    let temp2 = add(big_sigma0(a), maj(a, b, c));
    [add(temp1, temp2), a, b, c, add(d, temp1), e, f, g]
}

// W of t, for t from 16 on, at the index of W of t - 16.
#[inline(always)]
fn next_word(w: &mut [Words; 16], t: usize) -> Words
    requires { t < 64 }
    ensures value { (j : ℕ) → j < 8 → slice_index result j ≡ window_word (window j w.old) t }
    ensures window { w.new ≡ slice_set w.old (t % 16) result }
{
    let sum1 = add(small_sigma1(w[(t + 14) % 16]), w[(t + 9) % 16]);
    let sum2 = add(sum1, small_sigma0(w[(t + 1) % 16]));
    let word = add(sum2, w[t % 16]);
    w[t % 16] = word;
    word
}

// Round t, for t below 16.
#[inline(always)]
fn first_round(w: &[Words; 16], v: [Words; 8], t: usize) -> [Words; 8]
    requires { t < 16 }
    ensures { (j : ℕ) (b h : List ℕ) → j < 8 → IsWindow (window j w.now) (schedule b 48) 16
        → eight_of j v ≡ rounds h (schedule b 48) t → eight_of j result ≡ rounds h (schedule b 48) (t + 1) }
{
    round(v, K[t], w[t])
}

// Four rounds from t on, with words of the block.
#[inline(always)]
fn four_first_rounds(w: &[Words; 16], v: [Words; 8], t: usize) -> [Words; 8]
    requires { t + 4 ≤ 16 }
    ensures { (j : ℕ) (b h : List ℕ) → j < 8 → IsWindow (window j w.now) (schedule b 48) 16
        → eight_of j v ≡ rounds h (schedule b 48) t → eight_of j result ≡ rounds h (schedule b 48) (t + 4) }
{
    let v = first_round(w, v, t);
    let v = first_round(w, v, t + 1);
    let v = first_round(w, v, t + 2);
    first_round(w, v, t + 3)
}

// The rounds with the words of the block.
#[inline(always)]
pub(crate) fn first_rounds(w: &[Words; 16], v: [Words; 8]) -> [Words; 8]
    ensures { (j : ℕ) (b h : List ℕ) → j < 8 → IsWindow (window j w.now) (schedule b 48) 16
        → eight_of j v ≡ rounds h (schedule b 48) 0 → eight_of j result ≡ rounds h (schedule b 48) 16 }
{
    let v = four_first_rounds(w, v, 0);
    let v = four_first_rounds(w, v, 4);
    let v = four_first_rounds(w, v, 8);
    four_first_rounds(w, v, 12)
}

// Round t, for t from 16 on.
#[inline(always)]
fn next_round(w: &mut [Words; 16], v: [Words; 8], t: usize) -> [Words; 8]
    requires least { 16 ≤ t }
    requires most { t < 64 }
    ensures { (j : ℕ) (b h : List ℕ) → j < 8 → IsRoundsAt b h (window j w.old) (eight_of j v) t
        → IsRoundsAt b h (window j w.new) (eight_of j result) (t + 1) }
{
    let word = next_word(w, t);
    round(v, K[t], word)
}

// Four rounds from t on, with words that follow.
#[inline(always)]
fn four_next_rounds(w: &mut [Words; 16], v: [Words; 8], t: usize) -> [Words; 8]
    requires least { 16 ≤ t }
    requires most { t + 4 ≤ 64 }
    ensures { (j : ℕ) (b h : List ℕ) → j < 8 → IsRoundsAt b h (window j w.old) (eight_of j v) t
        → IsRoundsAt b h (window j w.new) (eight_of j result) (t + 4) }
{
    let v = next_round(w, v, t);
    let v = next_round(w, v, t + 1);
    let v = next_round(w, v, t + 2);
    next_round(w, v, t + 3)
}

// Sixteen rounds from T on, with words that follow from those before them.
pub(crate) fn next_rounds<const T: usize>(w: &mut [Words; 16], v: [Words; 8]) -> [Words; 8]
    requires least { 16 ≤ T }
    requires most { T + 16 ≤ 64 }
    ensures { (j : ℕ) (b h : List ℕ) → j < 8 → IsRoundsAt b h (window j w.old) (eight_of j v) T
        → IsRoundsAt b h (window j w.new) (eight_of j result) (T + 16) }
{
    let v = four_next_rounds(w, v, T);
    let v = four_next_rounds(w, v, T + 4);
    let v = four_next_rounds(w, v, T + 8);
    four_next_rounds(w, v, T + 12)
}
