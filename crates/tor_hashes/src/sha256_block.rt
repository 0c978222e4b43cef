//! The hash values of SHA-256 of eight messages, block after block (FIPS 180-4, 6.2.2).

ghost use Rattle.std.specs.Prelude.{◌≡◌, ℕ, ◌+◌, ◌-◌, ◌*◌, ◌<◌, ◌≤◌, List, drop, length};
ghost use Rattle.sha2.specs.Sha256.{add_state, compress, hash_after, initial_hash_256};
ghost use Rattle.tor_hashes.specs.steps.Lanes.{eight_of, window, AreWordsOf};

use crate::block_words::words_of_blocks;
use crate::sha256_constants::INITIAL;
use crate::sha256_rounds::{first_rounds, next_rounds};
use crate::words::{Words, add, same};

// The initial hash value, of each message.
fn initial() -> [Words; 8]
    ensures { (j : ℕ) → j < 8 → eight_of j result ≡ initial_hash_256 }
{
    [
        same(INITIAL[0]),
        same(INITIAL[1]),
        same(INITIAL[2]),
        same(INITIAL[3]),
        same(INITIAL[4]),
        same(INITIAL[5]),
        same(INITIAL[6]),
        same(INITIAL[7]),
    ]
}

// The next hash value: the working variables after the rounds, added to the hash value before them (step 4).
#[inline(always)]
pub(crate) fn added(hash: [Words; 8], v: [Words; 8]) -> [Words; 8]
    ensures { (j : ℕ) → j < 8 → eight_of j result ≡ add_state (eight_of j hash) (eight_of j v) }
{
    let [h0, h1, h2, h3, h4, h5, h6, h7] = hash;
    let [a, b, c, d, e, f, g, h] = v;
    [
        add(h0, a),
        add(h1, b),
        add(h2, c),
        add(h3, d),
        add(h4, e),
        add(h5, f),
        add(h6, g),
        add(h7, h),
    ]
}

// The hash values after a block of each message, of which `words` are the words.
#[inline(always)]
pub(crate) fn after_block(words: [Words; 16], hash: [Words; 8]) -> [Words; 8]
    ensures { (j : ℕ) (b : List ℕ) → j < 8 → AreWordsOf b (window j words)
        → eight_of j result ≡ compress (eight_of j hash) b }
{
    let mut w = words;
    let v = first_rounds(&w, hash);
    let v = next_rounds::<16>(&mut w, v);
    let v = next_rounds::<32>(&mut w, v);
    let v = next_rounds::<48>(&mut w, v);
    added(hash, v)
}

// The hash values after the first `count` blocks of each of so many messages, at most eight, that lie one after
// another. A message has `size` bytes, but for the last, which may have fewer.
pub(crate) fn after_blocks(bytes: &[u8], size: usize, messages: usize, count: usize) -> [Words; 8]
    requires some { 1 ≤ messages }
    requires inside { size * (messages - 1) + 64 * count ≤ length bytes.now }
    ensures { (j : ℕ) → j < 8 → j < messages
        → eight_of j result ≡ hash_after initial_hash_256 (drop (size * j) bytes.now) count }
{
    next_blocks(bytes, size, messages, initial(), 0, count)
}

// The hash values after `count` blocks of those that have them after the first `done`, whatever the others have.
pub(crate) fn next_blocks(
    bytes: &[u8],
    size: usize,
    messages: usize,
    hash: [Words; 8],
    done: usize,
    count: usize,
) -> [Words; 8]
    requires some { 1 ≤ messages }
    requires inside { size * (messages - 1) + 64 * count ≤ length bytes.now }
    requires done { done ≤ count }
    ensures { (initial : List ℕ) (j : ℕ) → j < 8 → j < messages
        → eight_of j hash ≡ hash_after initial (drop (size * j) bytes.now) done
        → eight_of j result ≡ hash_after initial (drop (size * j) bytes.now) count }
{
    let mut hash = hash;
    'blocks: for i in done..count {
        let words = words_of_blocks(bytes, size, messages, 64 * i);
        let next = after_block(words, hash);
        hash = next;
    }
    hash
}
