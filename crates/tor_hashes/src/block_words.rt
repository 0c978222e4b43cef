//! Reading the big-endian words of a block (FIPS 180-4, 5.2.1) of each of at most eight messages that lie one after
//! another.
//!
//! Half a block of each message is read after the other, eight words in a vector, and then the vectors are transposed:
//! so what is read together lies together, however far apart the messages lie. If there are fewer messages than lanes,
//! the lanes that have none read the first message, and nobody asks for what they give.

ghost use Rattle.std.specs.Prelude.{◌≡◌, ℕ, ◌+◌, ◌-◌, ◌*◌, ◌^◌, ◌<◌, ◌≤◌, length, slice_index};
ghost use Rattle.sha2.specs.Sha256.{word_at};
ghost use Rattle.tor_hashes.specs.steps.Lanes.{window, word_of, block_of, AreWordsOf};

use crate::transposed::transposed;
use crate::words::Words;

// The word at byte `at`.
#[inline(always)]
fn word(bytes: &[u8], at: usize) -> u32
    requires { at + 4 ≤ length bytes.now }
    ensures { result ≡ word_at bytes.now at }
{
    u32::from_be_bytes([bytes[at], bytes[at + 1], bytes[at + 2], bytes[at + 3]])
}

// Eight words one after another, from byte `at` on.
#[inline(always)]
fn eight_words(bytes: &[u8], at: usize) -> Words
    requires { at + 32 ≤ length bytes.now }
    ensures { (k : ℕ) → k < 8 → slice_index result k ≡ word_at bytes.now (at + 4 * k) }
{
    Words::from_array([
        word(bytes, at),
        word(bytes, at + 4),
        word(bytes, at + 8),
        word(bytes, at + 12),
        word(bytes, at + 16),
        word(bytes, at + 20),
        word(bytes, at + 24),
        word(bytes, at + 28),
    ])
}

// Where the message of a lane begins; if the lane has none, where the first does.
#[inline(always)]
fn start(size: usize, messages: usize, lane: usize) -> usize
    requires some { 1 ≤ messages }
    requires fits { size * (messages - 1) < 2 ^ 64 }
    ensures message { lane < messages → result ≡ size * lane }
    ensures within { result ≤ size * (messages - 1) }
{
    if lane < messages { size * lane } else { 0 }
}

// Eight words of each message, from byte `at` on. A message has `size` bytes, but for the last, which may have fewer.
#[inline(always)]
fn eight_of_each(bytes: &[u8], size: usize, messages: usize, at: usize) -> [Words; 8]
    requires some { 1 ≤ messages }
    requires inside { size * (messages - 1) + at + 32 ≤ length bytes.now }
    ensures { (j k : ℕ) → j < 8 → j < messages → k < 8 →
        word_of j result k ≡ word_at bytes.now (size * j + at + 4 * k) }
{
    transposed([
        eight_words(bytes, start(size, messages, 0) + at),
        eight_words(bytes, start(size, messages, 1) + at),
        eight_words(bytes, start(size, messages, 2) + at),
        eight_words(bytes, start(size, messages, 3) + at),
        eight_words(bytes, start(size, messages, 4) + at),
        eight_words(bytes, start(size, messages, 5) + at),
        eight_words(bytes, start(size, messages, 6) + at),
        eight_words(bytes, start(size, messages, 7) + at),
    ])
}

// The sixteen words of the block at byte `at` of each message.
#[inline(always)]
pub(crate) fn words_of_blocks(bytes: &[u8], size: usize, messages: usize, at: usize) -> [Words; 16]
    requires some { 1 ≤ messages }
    requires inside { size * (messages - 1) + at + 64 ≤ length bytes.now }
    ensures { (j : ℕ) → j < 8 → j < messages → AreWordsOf (block_of bytes.now size at j) (window j result) }
{
    let [a, b, c, d, e, f, g, h] = eight_of_each(bytes, size, messages, at);
    let [i, j, k, l, m, n, o, p] = eight_of_each(bytes, size, messages, at + 32);
    [a, b, c, d, e, f, g, h, i, j, k, l, m, n, o, p]
}
