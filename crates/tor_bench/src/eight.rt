//! Hashing eight messages at once, and one after another by the kit's crates.
use crate::clock::{micros_since, now};
use sha1::Sha1;
use sha2::{Digest, Sha256};
use std::io::Result;
use tor_hashes::{block_hashes, node_hashes, piece_hashes};
use tor_merkle::{layer_root, pair};
use tor_source::zeros;

const BLOCK: usize = 16384;

const NODE: usize = 64;

/// Eight pieces are hashed again and again.
const PIECE: usize = 1 << 18;

const EIGHT_BLOCKS: usize = 8 * BLOCK;

const EIGHT_NODES: usize = 8 * NODE;

const EIGHT_PIECES: usize = 8 * PIECE;

/// How a part of the bytes is hashed.
#[derive(Clone, Copy)]
enum Way {
    Sha1,
    Sha256,
    /// As eight messages.
    Eight,
    /// As many calls of `pair` as the tree over the bytes, as hashes, has nodes.
    Pairs,
    /// The tree itself.
    Layer,
}

/// What is timed: its name, how each part is hashed, and how long a part is.
const WAYS: &[(&str, Way, usize)] = &[
    ("blocks", Way::Sha256, BLOCK),
    ("eight-blocks", Way::Eight, EIGHT_BLOCKS),
    ("nodes", Way::Sha256, NODE),
    ("eight-nodes", Way::Eight, EIGHT_NODES),
    ("pieces", Way::Sha1, PIECE),
    ("eight-pieces", Way::Eight, EIGHT_PIECES),
    ("layers", Way::Pairs, EIGHT_PIECES),
    ("eight-layers", Way::Layer, EIGHT_PIECES),
];

/// Prints for each way the microseconds that so many times eight pieces of bytes take.
pub fn hashed(rt: &HostRuntime, count: usize) -> Result<()> {
    let bytes = zeros(rt.alloc(), EIGHT_PIECES)?;
    each_timed(rt, &bytes, count)
}

fn each_timed(rt: &HostRuntime, bytes: &[u8], count: usize) -> Result<()> {
    'ways: for (name, way, size) in WAYS {
        timed(rt, bytes, count, name, *way, *size)?;
    }
    Ok(())
}

fn timed(
    rt: &HostRuntime,
    bytes: &[u8],
    count: usize,
    name: &str,
    way: Way,
    size: usize,
) -> Result<()> {
    let start = now(rt);
    let seen = hashed_often(bytes, count, way, size);
    let taken = micros_since(rt, start);
    println!(rt; "{name} {taken} {seen}")
}

fn hashed_often(bytes: &[u8], count: usize, way: Way, size: usize) -> u8 {
    let mut seen = 0;
    'times: for _ in 0..count {
        'parts: for part in bytes.chunks_exact(size.max(1)) {
            seen ^= hashed_by(way, part);
        }
    }
    seen
}

/// The first byte of the hash of a part, so that none is left out.
fn hashed_by(way: Way, part: &[u8]) -> u8 {
    match way {
        Way::Sha1 => sha1(part),
        Way::Sha256 => sha256(part),
        Way::Eight => eight(part),
        Way::Pairs => pairs(part),
        Way::Layer => layer(part),
    }
}

fn sha1(part: &[u8]) -> u8 {
    let [first, ..]: [u8; 20] = Sha1::digest(part);
    first
}

fn sha256(part: &[u8]) -> u8 {
    let [first, ..]: [u8; 32] = Sha256::digest(part);
    first
}

fn eight(part: &[u8]) -> u8 {
    if part.len() == EIGHT_BLOCKS {
        let [[first, ..], ..] = block_hashes(part);
        return first;
    }
    if part.len() == EIGHT_NODES {
        let [[first, ..], ..] = node_hashes(part);
        return first;
    }
    if part.len() == EIGHT_PIECES {
        let [[first, ..], ..] = piece_hashes(part, PIECE);
        return first;
    }
    0
}

fn pairs(part: &[u8]) -> u8 {
    let (hashes, _) = part.as_chunks::<32>();
    let mut seen = 0;
    'hashes: for hash in hashes {
        let [first, ..] = pair(hash, hash);
        seen ^= first;
    }
    seen
}

fn layer(part: &[u8]) -> u8 {
    let (hashes, _) = part.as_chunks::<32>();
    if hashes.is_empty() || hashes.len() > 1 << 20 {
        return 0;
    }
    let [first, ..] = layer_root(hashes, 0);
    first
}
