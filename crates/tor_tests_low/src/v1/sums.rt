//! The SHA-1 of the pieces of a content that is fed in parts. Hashes in hexadecimal were computed by another program
//! (Python's hashlib). Those of whole contents are what `tor make` writes and `tor recheck` finds (tests/hashing.py).
ghost use Rattle.std.specs.Prelude.{◌<◌};

use crate::shared::{are, content};
use std::alloc::{AllocError, Global};
use tor_v1::PieceSums;

/// A part of a content: bytes, or a count of zeros.
enum Part {
    Bytes(&'static [u8]),
    Zeros(u64),
}

// That more zeros come than a piece may have, as in no row, is told as want of memory.
fn feed_part(sums: &mut PieceSums, part: &Part) -> Result<(), AllocError> {
    match part {
        Part::Bytes(bytes) => sums.feed(bytes),
        Part::Zeros(count) if *count <= 1 << 30 => sums.feed_zeros(*count),
        Part::Zeros(_) => Err(AllocError),
    }
}

fn feed_parts(sums: &mut PieceSums, parts: &[Part]) -> Result<(), AllocError> {
    for part in parts {
        feed_part(sums, part)?;
    }
    Ok(())
}

fn sums_of_parts(alloc: Global, piece_length: u64, parts: &[Part]) -> Result<Vec<u8>, AllocError> {
    if piece_length < 1 || piece_length > 1 << 30 {
        return Err(AllocError);
    }
    let mut sums = PieceSums::new(alloc, piece_length);
    feed_parts(&mut sums, parts)?;
    Ok(sums.finish())
}

const ABC: &[u8] = b"\
\xa9\x99\x3e\x36\x47\x06\x81\x6a\xba\x3e\x25\x71\x78\x50\xc2\x6c\x9c\xd0\xd8\x9d";

const JOINED: &[u8] = b"\
\xcb\x25\xce\xe0\xc9\xee\x3f\xc5\x74\x13\xe4\x72\xac\xdb\x19\x13\x86\xed\xb6\x12\
\x84\xa5\x16\x84\x1b\xa7\x7a\x5b\x46\x48\xde\x2c\xd0\xdf\xcb\x30\xea\x46\xdb\xb4";

const SEVEN: &[u8] = b"\
\xa9\x99\x3e\x36\x47\x06\x81\x6a\xba\x3e\x25\x71\x78\x50\xc2\x6c\x9c\xd0\xd8\x9d\
\x58\x9c\x22\x33\x5a\x38\x1f\x12\x2d\x12\x92\x25\xf5\xc0\xba\x30\x56\xed\x58\x11\
\x54\xfd\x17\x11\x20\x9f\xb1\xc0\x78\x10\x92\x37\x41\x32\xc6\x6e\x79\xe2\x24\x1b";

const ZEROS: &[u8] = b"\
\xe0\xb8\x4b\x83\x4a\x7a\xdb\x40\x10\x7f\xa7\x83\xa0\x08\xfd\x5e\x69\x9d\xd9\x38\
\xe0\xb8\x4b\x83\x4a\x7a\xdb\x40\x10\x7f\xa7\x83\xa0\x08\xfd\x5e\x69\x9d\xd9\x38\
\xe0\xb8\x4b\x83\x4a\x7a\xdb\x40\x10\x7f\xa7\x83\xa0\x08\xfd\x5e\x69\x9d\xd9\x38\
\xf9\x07\xb7\xbf\x31\x8b\x79\xfd\x6b\x9d\xa5\x89\x64\x6f\x8b\x1d\xac\x77\xd0\xc8";

// The length of a piece, the parts of a content, and the joined hashes.
type Row = (u64, &'static [Part], &'static [u8]);

fn have_sums(alloc: Global) -> bool {
    for row in PARTS {
        if !are(sums_of_parts(alloc, row.0, row.1), row.2) {
            return false;
        }
    }
    true
}

// Of each length of a piece: a byte fewer than so many pieces, those pieces, and a byte more, of 7, 8, 9, 16 and 17.
const OF_64: &[usize] = &[
    447, 448, 449, 511, 512, 513, 575, 576, 577, 1_023, 1_024, 1_025, 1_087, 1_088, 1_089,
];

const OF_16384: &[usize] = &[
    114_687, 114_688, 114_689, 131_071, 131_072, 131_073, 147_455, 147_456, 147_457, 262_143,
    262_144, 262_145, 278_527, 278_528, 278_529,
];

const OF_100: &[usize] = &[
    699, 700, 701, 799, 800, 801, 899, 900, 901, 1_599, 1_600, 1_601, 1_699, 1_700, 1_701,
];

fn feed_in_parts(sums: &mut PieceSums, bytes: &[u8], part: usize) -> Result<(), AllocError>
    requires { 0 < part }
{
    for part in bytes.chunks(part) {
        sums.feed(part)?;
    }
    Ok(())
}

// The sums of bytes that are fed in parts of so many.
fn sums_of(
    alloc: Global,
    piece_length: u64,
    bytes: &[u8],
    part: usize,
) -> Result<Vec<u8>, AllocError> {
    if piece_length < 1 || piece_length > 1 << 30 || part == 0 {
        return Err(AllocError);
    }
    let mut sums = PieceSums::new(alloc, piece_length);
    feed_in_parts(&mut sums, bytes, part)?;
    Ok(sums.finish())
}

// Whether bytes that are fed in parts of so many have these sums.
fn has_sums_of_parts(
    alloc: Global,
    piece_length: u64,
    bytes: &[u8],
    part: usize,
    wanted: &[u8],
) -> bool {
    are(sums_of(alloc, piece_length, bytes, part), wanted)
}

// Whether bytes have the same sums fed at one time, in parts of less than a piece, and in parts of nine pieces without
// the last byte, after which a piece is begun.
fn are_same(alloc: Global, piece_length: u64, bytes: &[u8]) -> bool {
    if piece_length < 2 || piece_length > 1 << 20 {
        return false;
    }
    let short = piece_length as usize - 1;
    match sums_of(alloc, piece_length, bytes, 1 << 20) {
        Ok(sums) => {
            has_sums_of_parts(alloc, piece_length, bytes, short, &sums)
                && has_sums_of_parts(alloc, piece_length, bytes, 9 * short + 8, &sums)
        }
        Err(_) => false,
    }
}

// Whether a content has.
fn agrees(alloc: Global, piece_length: u64, length: usize) -> bool {
    match content(alloc, length) {
        Ok(bytes) => are_same(alloc, piece_length, &bytes),
        Err(_) => false,
    }
}

fn agree(alloc: Global, piece_length: u64, lengths: &[usize]) -> bool {
    for length in lengths {
        if !agrees(alloc, piece_length, *length) {
            return false;
        }
    }
    true
}

const PARTS: &[Row] = &[
    (16384, &[], b""),
    (16384, &[Part::Bytes(b""), Part::Zeros(0)], b""),
    (16384, &[Part::Bytes(b"abc")], ABC),
    (
        16384,
        &[Part::Bytes(b"ab"), Part::Zeros(16382), Part::Bytes(b"c")],
        JOINED,
    ),
    (
        16384,
        &[
            Part::Bytes(b"a"),
            Part::Bytes(b"b"),
            Part::Zeros(1),
            Part::Zeros(16381),
            Part::Bytes(b""),
            Part::Bytes(b"c"),
        ],
        JOINED,
    ),
    (
        16384,
        &[
            Part::Bytes(b"ab\0\0\0"),
            Part::Zeros(16378),
            Part::Bytes(b"\0c"),
        ],
        JOINED,
    ),
    (3, &[Part::Bytes(b"abcdefg")], SEVEN),
    (
        3,
        &[Part::Bytes(b"ab"), Part::Bytes(b"cde"), Part::Bytes(b"fg")],
        SEVEN,
    ),
    (30000, &[Part::Zeros(100_000)], ZEROS),
];

// The length of a piece, and the lengths of contents. Eight whole pieces are hashed at once.
const RUNS: &[(u64, &[usize])] = &[(64, OF_64), (16_384, OF_16384), (100, OF_100)];

fn all_agree(alloc: Global) -> bool {
    for row in RUNS {
        if !agree(alloc, row.0, row.1) {
            return false;
        }
    }
    true
}

#[test]
fn sums_pieces_in_parts_and_in_runs(rt: HostRuntime) {
    assert!(rt; have_sums(rt.alloc()) && all_agree(rt.alloc()));
}
