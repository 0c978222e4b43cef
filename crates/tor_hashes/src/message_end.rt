//! The end of a message of at most 16,384 bytes: what is left after its whole blocks, and its padding (FIPS 180-4,
//! 5.1.1).

ghost use Rattle.std.specs.Prelude.{◌≡◌, ◌+◌, ◌/◌, ◌%◌, ◌<◌, ◌≤◌, ◌++◌, length, take};
ghost use Rattle.sha2.specs.Sha256.{hash_after, initial_hash_256, padding, sha256};
ghost use Rattle.tor_hashes.specs.steps.Lanes.{eight_of};

use crate::sha256_block::next_blocks;
use crate::sha256_digest::digest;
use crate::words::Words;

// How many bytes the end of a message of `count` bytes has.
fn end_length(count: usize) -> usize
    requires { count ≤ 16384 }
    ensures length { result ≡ count % 64 + length (padding count) }
    ensures whole { result % 64 ≡ 0 }
    ensures most { result ≤ 128 }
{
    (count % 64 + 8) / 64 * 64 + 64
}

// The padding of a message of `count` bytes: a one, zeros, and the length in bits.
fn put_padding(place: &mut [u8], count: usize)
    requires count { count ≤ 16384 }
    requires length { length place.old ≡ length (padding count) }
    ensures { place.new ≡ padding count }
{
    let (zeros, bits) = place.split_at_mut(place.len() - 8);
    zeros.fill(0);
    zeros[0] = 0x80;
    bits.copy_from_slice(&(count as u64 * 8).to_be_bytes());
}

// The end of a message of `count` bytes, of which these are left, at the front of a place.
fn put_end(place: &mut [u8], rest: &[u8], count: usize)
    requires place { length place.old ≡ 128 }
    requires rest { length rest.now ≡ count % 64 }
    requires count { count ≤ 16384 }
    ensures length { length place.new ≡ 128 }
    ensures begins { take (count % 64 + length (padding count)) place.new ≡ rest.now ++ padding count }
{
    let (end, _) = place.split_at_mut(end_length(count));
    let (front, padding) = end.split_at_mut(rest.len());
    front.copy_from_slice(rest);
    put_padding(padding, count);
}

// The SHA-256 of the message of a lane, which has this hash value after its whole blocks.
pub(crate) fn ended_hash(hash: [Words; 8], lane: usize, message: &[u8]) -> [u8; 32]
    requires lane { lane < 8 }
    requires few { length message.now ≤ 16384 }
    requires hash { eight_of lane hash ≡ hash_after initial_hash_256 message.now (length message.now / 64) }
    ensures { result ≡ sha256 message.now }
{
    let count = message.len();
    let (_, rest) = message.split_at(count / 64 * 64);
    let mut end = [0; 128];
    put_end(&mut end, rest, count);
    // Messages of no byte each: every lane reads the same.
    let ended = next_blocks(&end, 0, 8, hash, 0, end_length(count) / 64);
    digest(&ended, lane)
}
