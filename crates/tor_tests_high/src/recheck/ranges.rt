//! Which bytes of a file are in pieces whose bits are not set, if there are fewer bits than pieces, as a recheck never
//! has. A piece without a bit has none that is set. Others are tried on the built program (`tests/found.py`).
use crate::recheck::bits::bits_of;
use crate::recheck::rechecks::{PADDED, torrent_of};
use std::alloc::{AllocError, Global};
use tor_check::Torrent;
use tor_view::{Bits, FilePieces, files_in_pieces};

/// What is told of a file: its first piece, how many it has, its length, and the bytes of it that are in pieces whose
/// bits are not set, one range at most.
type Told = (u64, u64, u64, Option<(u64, u64)>);

/// A torrent in parts, how many bits there are, which are all set, and what is told of each file.
type Row = (&'static [&'static [u8]], u32, &'static [Told]);

/// In version 1 `abc`, an empty file and `de`, in pieces of two bytes: the second has bytes of the first file and of
/// the last.
const CROSSING: &[&[u8]] = &[
    b"d4:infod5:filesld6:lengthi3e4:pathl1:aeed6:lengthi0e4:pathl1:beed6:lengthi2e4:pathl1:ceee4:name1:f\
12:piece lengthi2e6:pieces60:",
    b"\xda\x23\x61\x4e\x02\x46\x9a\x0d\x7c\x7b\xd1\xbd\xab\x5c\x9c\x47\x4b\x19\x04\xdc",
    b"\x03\x47\x78\x19\x8a\x04\x5c\x1e\xd8\x0b\xe2\x71\xcd\xd0\x29\xb7\x68\x74\xf6\xfc",
    b"\x58\xe6\xb3\xa4\x14\xa1\xe0\x90\xdf\xc6\x02\x9a\xdd\x0f\x35\x55\xcc\xba\x12\x7f",
    b"ee",
];

const ROWS: &[Row] = &[
    (
        CROSSING,
        1,
        &[
            (0, 2, 3, Some((2, 3))),
            (1, 0, 0, None),
            (1, 2, 2, Some((0, 2))),
        ],
    ),
    (
        CROSSING,
        0,
        &[
            (0, 2, 3, Some((0, 3))),
            (1, 0, 0, None),
            (1, 2, 2, Some((0, 2))),
        ],
    ),
    (PADDED, 1, &[(17, 1, 1, Some((0, 1)))]),
];

fn is_range(alloc: Global, file: &FilePieces, bits: &Bits, range: Option<(u64, u64)>) -> bool {
    let Ok(ranges) = file.bad_ranges(alloc, bits) else {
        return false;
    };
    match ranges.as_slice() {
        [] => range.is_none(),
        [only] => range == Some((only.from, only.to)),
        _ => false,
    }
}

fn is_told(alloc: Global, files: &[FilePieces], index: usize, bits: &Bits, wanted: &Told) -> bool {
    let (first, count, length, range) = *wanted;
    match files.get(index) {
        Some(file) => {
            (file.first(), file.count(), file.length()) == (first, count, length)
                && is_range(alloc, file, bits, range)
        }
        None => false,
    }
}

fn are_told(alloc: Global, files: &[FilePieces], bits: &Bits, wanted: &[Told]) -> bool {
    for (index, told) in wanted.iter().enumerate() {
        if !is_told(alloc, files, index, bits, told) {
            return false;
        }
    }
    files.len() == wanted.len()
}

fn are_files_told(
    alloc: Global,
    torrent: &Torrent,
    bits: &Bits,
    wanted: &[Told],
) -> Result<bool, AllocError> {
    Ok(are_told(alloc, &files_in_pieces(alloc, torrent)?, bits, wanted))
}

fn is_right(alloc: Global, row: &Row) -> Result<bool, AllocError> {
    are_files_told(
        alloc,
        &torrent_of(alloc, row.0)?,
        &bits_of(alloc, row.1, 1)?,
        row.2,
    )
}

#[test]
fn tells_bytes_of_pieces_without_a_bit(rt: HostRuntime) {
    for row in ROWS {
        assert!(rt; matches!(is_right(rt.alloc(), row), Ok(true)));
    }
}
