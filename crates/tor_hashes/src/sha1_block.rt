//! The hash values of SHA-1 of eight messages, block after block (FIPS 180-4, 6.1.2).

ghost use Rattle.std.specs.Prelude.{◌≡◌, ℕ, ◌*◌, ◌<◌, ◌≤◌, List, drop, length};
ghost use Rattle.sha1.specs.Sha1.{add_state, compress, hash_after, initial_hash};
ghost use Rattle.tor_hashes.specs.steps.Lanes.{five_of, window, AreWordsOf};

use crate::block_words::words_of_blocks;
use crate::sha1_constants::INITIAL;
use crate::sha1_rounds::{first_rounds, next_rounds};
use crate::words::{Words, add, same};

// The initial hash value, of each message.
fn initial() -> [Words; 5]
    ensures { (j : ℕ) → j < 8 → five_of j result ≡ initial_hash }
{
    [
        same(INITIAL[0]),
        same(INITIAL[1]),
        same(INITIAL[2]),
        same(INITIAL[3]),
        same(INITIAL[4]),
    ]
}

// The next hash value: the working variables after the rounds, added to the hash value before them (step 4).
#[inline(always)]
fn added(hash: [Words; 5], v: [Words; 5]) -> [Words; 5]
    ensures { (j : ℕ) → j < 8 → five_of j result ≡ add_state (five_of j hash) (five_of j v) }
{
    let [h0, h1, h2, h3, h4] = hash;
    let [a, b, c, d, e] = v;
    [add(h0, a), add(h1, b), add(h2, c), add(h3, d), add(h4, e)]
}

// The hash values after a block of each message, of which `words` are the words.
#[inline(always)]
pub(crate) fn after_block(words: [Words; 16], hash: [Words; 5]) -> [Words; 5]
    ensures { (j : ℕ) (b : List ℕ) → j < 8 → AreWordsOf b (window j words)
        → five_of j result ≡ compress (five_of j hash) b }
{
    let mut w = words;
    let v = first_rounds(&w, hash);
    let v = next_rounds::<16>(&mut w, v);
    let v = next_rounds::<32>(&mut w, v);
    let v = next_rounds::<48>(&mut w, v);
    let v = next_rounds::<64>(&mut w, v);
    added(hash, v)
}

// The hash values after the first `count` blocks of each message. A message has `size` bytes.
pub(crate) fn after_blocks(bytes: &[u8], size: usize, count: usize) -> [Words; 5]
    requires inside { 64 * count ≤ size }
    requires length { 8 * size ≤ length bytes.now }
    ensures { (j : ℕ) → j < 8 → five_of j result ≡ hash_after (drop (size * j) bytes.now) count }
{
    let mut hash = initial();
    'blocks: for i in 0..count {
        let words = words_of_blocks(bytes, size, 8, 64 * i);
        let next = after_block(words, hash);
        hash = next;
    }
    hash
}
