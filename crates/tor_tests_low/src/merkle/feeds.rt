//! Contents that are fed in parts, against the plain program. What a feed of a whole content tells, `tor make` writes
//! (tests/hashing.py).

use crate::shared::content;
use std::alloc::{AllocError, Global};
use tor_merkle::{Feed, Hash, is_piece_length, whole};

// Root and layer of a content; none of no byte.
type Sums = Option<(Hash, Vec<Hash>)>;

fn whole_of(alloc: Global, bytes: &[u8], piece_length: u64) -> Result<Sums, AllocError> {
    if bytes.len() > 1 << 50 || !is_piece_length(piece_length) {
        return Err(AllocError);
    }
    whole(alloc, bytes, piece_length)
}

// Root and layer of bytes that are fed in parts of `part` bytes.
fn fed_of(alloc: Global, bytes: &[u8], piece_length: u64, part: usize) -> Result<Sums, AllocError> {
    if bytes.len() > 1 << 50 || part == 0 || part > 1 << 50 || !is_piece_length(piece_length) {
        return Err(AllocError);
    }
    let mut feed = Feed::new(alloc, piece_length);
    let mut start = 0;
    'parts: while start < bytes.len() {
        let end = bytes.len().min(start + part);
        feed.feed(&bytes[start..end])?;
        start = end;
    }
    Ok(feed.finish())
}

// Root and layer of bytes that end a feed of none.
fn ended_of(alloc: Global, bytes: &[u8], piece_length: u64) -> Result<Sums, AllocError> {
    if bytes.len() > 1 << 50 || !is_piece_length(piece_length) {
        return Err(AllocError);
    }
    Ok(Feed::new(alloc, piece_length).end_with(bytes)?.finish())
}

fn are_same(sums: &Sums, others: &Sums) -> bool {
    match (sums, others) {
        (Some(sums), Some(others)) => {
            sums.0 == others.0 && sums.1.as_slice() == others.1.as_slice()
        }
        (None, None) => true,
        _ => false,
    }
}

fn is_same(sums: &Sums, other: Result<Sums, AllocError>) -> bool {
    match other {
        Ok(other) => are_same(sums, &other),
        Err(_) => false,
    }
}

// Whether feeds in parts of so many bytes tell these sums, and in parts of none a feed that the bytes end.
fn agree_in(alloc: Global, bytes: &[u8], piece_length: u64, parts: &[usize], sums: &Sums) -> bool {
    for part in parts {
        let other = match part {
            0 => ended_of(alloc, bytes, piece_length),
            _ => fed_of(alloc, bytes, piece_length, *part),
        };
        if !is_same(sums, other) {
            return false;
        }
    }
    true
}

// Whether they tell what the plain program tells.
fn agree_over(alloc: Global, bytes: &[u8], piece_length: u64, parts: &[usize]) -> bool {
    match whole_of(alloc, bytes, piece_length) {
        Ok(sums) => agree_in(alloc, bytes, piece_length, parts, &sums),
        Err(_) => false,
    }
}

// The length of a content, that of a piece, and those of the parts.
type Row = (usize, u64, &'static [usize]);

// Whether they do of a content.
fn agree(alloc: Global, row: &Row) -> bool {
    match content(alloc, row.0) {
        Ok(bytes) => agree_over(alloc, &bytes, row.1, row.2),
        Err(_) => false,
    }
}

// At one time, in parts of six blocks and some bytes, and as an end.
const EACH: &[usize] = &[1 << 20, 100_000, 0];

const ROWS: &[Row] = &[
    (0, 16_384, &[1]),
    (1, 16_384, &[1]),
    (3, 16_384, EACH),
    (16_384, 16_384, &[1, 16_383, 16_384]),
    (16_385, 16_384, &[1, 16_383, 16_385]),
    (32_768, 32_768, &[10_000]),
    (40_000, 16_384, EACH),
    (49_152, 16_384, &[16_384, 16_385, 49_152]),
    (49_152, 32_768, EACH),
    (49_157, 16_384, EACH),
    (81_920, 16_384, EACH),
    (81_920, 32_768, &[4_096, 20_000, 81_920]),
    (81_920, 1 << 30, &[50_000]),
    (100_000, 65_536, &[33_333]),
    (1_638_400, 65_536, &[33_333, 77_777, 1_638_400]),
    // A byte fewer than so many blocks, those blocks, and a byte more: of 7, 8, 9, 16 and 17 blocks. Beside each the
    // length of a piece: a block, four, or sixteen. Eight whole blocks are hashed at once.
    (114_687, 16_384, EACH),
    (114_688, 65_536, EACH),
    (114_689, 262_144, EACH),
    (131_071, 65_536, EACH),
    (131_072, 16_384, EACH),
    (131_073, 65_536, EACH),
    (147_455, 16_384, EACH),
    (147_456, 262_144, EACH),
    (147_457, 65_536, EACH),
    (262_143, 262_144, EACH),
    (262_144, 65_536, EACH),
    (262_145, 16_384, EACH),
    (278_527, 65_536, EACH),
    (278_528, 16_384, EACH),
    (278_529, 262_144, EACH),
    // 1,038 pieces.
    (17_000_000, 16_384, EACH),
];

#[test]
fn feeds_in_parts_and_in_runs_what_lies_in_memory(rt: HostRuntime) {
    for row in ROWS {
        assert!(rt; agree(rt.alloc(), row));
    }
}
