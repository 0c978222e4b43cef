//! The SHA-256 of eight messages of 64 bytes, as the nodes of a tree are.

ghost use Rattle.std.specs.Prelude.{◌≡◌, ℕ, ◌+◌, ◌*◌, ◌<◌, ◌≤◌, List, [], drop, take, length, slice_index_or};
ghost use Rattle.sha2.specs.Sha256.{compress, padding, rounds, schedule, sha256};
ghost use Rattle.tor_hashes.specs.steps.Lanes.{eight_of};

use crate::node_padding::PADDING;
use crate::sha256_block::{added, after_blocks};
use crate::sha256_constants::K;
use crate::sha256_digest::digests;
use crate::sha256_rounds::round;
use crate::words::{Words, same};

// Round t of the padding.
#[inline(always)]
fn padding_round(v: [Words; 8], t: usize) -> [Words; 8]
    requires { t < 64 }
    ensures { (j : ℕ) (h : List ℕ) → j < 8 → eight_of j v ≡ rounds h (schedule (padding 64) 48) t
        → eight_of j result ≡ rounds h (schedule (padding 64) 48) (t + 1) }
{
    round(v, K[t], same(PADDING[t]))
}

// Four rounds of it from t on.
#[inline(always)]
fn four_padding_rounds(v: [Words; 8], t: usize) -> [Words; 8]
    requires { t + 4 ≤ 64 }
    ensures { (j : ℕ) (h : List ℕ) → j < 8 → eight_of j v ≡ rounds h (schedule (padding 64) 48) t
        → eight_of j result ≡ rounds h (schedule (padding 64) 48) (t + 4) }
{
    let v = padding_round(v, t);
    let v = padding_round(v, t + 1);
    let v = padding_round(v, t + 2);
    padding_round(v, t + 3)
}

// Sixteen rounds from T on.
fn padding_rounds<const T: usize>(v: [Words; 8]) -> [Words; 8]
    requires { T + 16 ≤ 64 }
    ensures { (j : ℕ) (h : List ℕ) → j < 8 → eight_of j v ≡ rounds h (schedule (padding 64) 48) T
        → eight_of j result ≡ rounds h (schedule (padding 64) 48) (T + 16) }
{
    let v = four_padding_rounds(v, T);
    let v = four_padding_rounds(v, T + 4);
    let v = four_padding_rounds(v, T + 8);
    four_padding_rounds(v, T + 12)
}

// The hash values after the padding.
#[inline(always)]
fn after_padding(hash: [Words; 8]) -> [Words; 8]
    ensures { (j : ℕ) → j < 8 → eight_of j result ≡ compress (eight_of j hash) (padding 64) }
{
    let v = padding_rounds::<0>(hash);
    let v = padding_rounds::<16>(v);
    let v = padding_rounds::<32>(v);
    let v = padding_rounds::<48>(v);
    added(hash, v)
}

/// The SHA-256 of each of eight messages of 64 bytes, as the nodes of a tree are, that lie one after another.
pub fn node_hashes(nodes: &[u8]) -> [[u8; 32]; 8]
    requires { length nodes.now ≡ 512 }
    ensures { (i : ℕ) → i < 8 → slice_index_or result i [] ≡ sha256 (take 64 (drop (64 * i) nodes.now)) }
{
    let hash = after_blocks(nodes, 64, 8, 1);
    let last = after_padding(hash);
    digests(&last)
}
