//! The digests of SHA-256 of eight messages: the big-endian words of each hash value (FIPS 180-4, 6.2.2).

ghost use Rattle.std.specs.Prelude.{◌≡◌, ℕ, ◌<◌, [], slice_index_or};
ghost use Rattle.sha2.specs.Sha256.{digest_bytes};
ghost use Rattle.tor_hashes.specs.steps.Lanes.{eight_of};

use crate::words::Words;

fn digest_of(words: &[u32; 8]) -> [u8; 32]
    ensures { result ≡ digest_bytes words.now 8 }
{
    let mut bytes = [0; 32];
    'words: for i in 0..8 {
        bytes[4 * i..4 * i + 4].copy_from_slice(&words[i].to_be_bytes());
    }
    bytes
}

// The digest of message j.
pub(crate) fn digest(hash: &[Words; 8], j: usize) -> [u8; 32]
    requires { j < 8 }
    ensures { result ≡ digest_bytes (eight_of j hash.now) 8 }
{
    let words = [
        hash[0].to_array()[j],
        hash[1].to_array()[j],
        hash[2].to_array()[j],
        hash[3].to_array()[j],
        hash[4].to_array()[j],
        hash[5].to_array()[j],
        hash[6].to_array()[j],
        hash[7].to_array()[j],
    ];
    digest_of(&words)
}

// The digest of each message.
pub(crate) fn digests(hash: &[Words; 8]) -> [[u8; 32]; 8]
    ensures { (j : ℕ) → j < 8 → slice_index_or result j [] ≡ digest_bytes (eight_of j hash.now) 8 }
{
    [
        digest(hash, 0),
        digest(hash, 1),
        digest(hash, 2),
        digest(hash, 3),
        digest(hash, 4),
        digest(hash, 5),
        digest(hash, 6),
        digest(hash, 7),
    ]
}
