//! The hashes of the pieces of `ab` and `c`; the hashes are of Python's hashlib.

use crate::engine::faults::{Changing, file_that_changes};
use crate::engine::shared::{EACH_HOW, allowed, files_with, plan_of};
use crate::shared::are;
use std::process::Abort;
use std::sync::atomic::Ordering::SeqCst;
use std::thread::Threads;
use tor_engine::{EngineError, How, PieceHash, hash_pieces};
use tor_merkle::Hash;
use tor_plan::Plan;
use tor_source::MemSource;
use tor_tree::Kind;

/// The SHA-256 of `ab`, and of `c`.
const ROOT_A: Hash = *b"\xfb\x8e\x20\xfc\x2e\x4c\x3f\x24\x8c\x60\xc3\x9b\xd6\x52\xf3\xc1\
\x34\x72\x98\xbb\x97\x7b\x8b\x4d\x59\x03\xb8\x50\x55\x62\x06\x03";

const ROOT_B: Hash = *b"\x2e\x7d\x2c\x03\xa9\x50\x7a\xe2\x65\xec\xf5\xb5\x35\x68\x85\xa5\
\x33\x93\xa2\x02\x9d\x24\x13\x94\x99\x72\x65\xa1\xa2\x5a\xef\xc6";

/// The SHA-1 of `abc`, of `ab` and zeros up to 16,384 bytes, and of `c`.
const SUM: [u8; 20] = *b"\xa9\x99\x3e\x36\x47\x06\x81\x6a\xba\x3e\
\x25\x71\x78\x50\xc2\x6c\x9c\xd0\xd8\x9d";

const SUM_A: [u8; 20] = *b"\xcb\x25\xce\xe0\xc9\xee\x3f\xc5\x74\x13\
\xe4\x72\xac\xdb\x19\x13\x86\xed\xb6\x12";

const SUM_B: [u8; 20] = *b"\x84\xa5\x16\x84\x1b\xa7\x7a\x5b\x46\x48\
\xde\x2c\xd0\xdf\xcb\x30\xea\x46\xdb\xb4";

/// The hashes of a piece: as V1, as V2 of each file, and as a hybrid of each.
const JOINED: Option<PieceHash> = Some(PieceHash {
    v1: Some(SUM),
    v2: None,
});

const A: Option<PieceHash> = Some(PieceHash {
    v1: None,
    v2: Some(ROOT_A),
});

const B: Option<PieceHash> = Some(PieceHash {
    v1: None,
    v2: Some(ROOT_B),
});

const BOTH_A: Option<PieceHash> = Some(PieceHash {
    v1: Some(SUM_A),
    v2: Some(ROOT_A),
});

const BOTH_B: Option<PieceHash> = Some(PieceHash {
    v1: Some(SUM_B),
    v2: Some(ROOT_B),
});

/// A kind, the contents that are there of files of two bytes and one, and the hashes of the pieces, none of one that is
/// not there.
type Row = (
    Kind,
    &'static [Option<&'static [u8]>],
    &'static [Option<PieceHash>],
);

const ROWS: &[Row] = &[
    (Kind::V1, &[Some(b"ab"), Some(b"c")], &[JOINED]),
    (Kind::V1, &[Some(b"abx"), Some(b"cx")], &[JOINED]),
    (Kind::V1, &[Some(b"ab"), None], &[None]),
    (Kind::V1, &[Some(b"a"), Some(b"c")], &[None]),
    (Kind::V2, &[Some(b"ab"), Some(b"c")], &[A, B]),
    (Kind::V2, &[None, Some(b"c")], &[None, B]),
    (Kind::Hybrid, &[Some(b"ab"), Some(b"c")], &[BOTH_A, BOTH_B]),
    (Kind::Hybrid, &[Some(b"ab")], &[BOTH_A, None]),
    (Kind::Hybrid, &[], &[None, None]),
];

/// Whether the hashes of a source are those of a row, by a number of workers that is tested first.
fn is_right<R: AllocGlobal + Abort + Threads + Sync>(
    rt: &R,
    source: &MemSource,
    plan: &Plan,
    row: &Row,
    how: How,
) -> bool {
    let made = hash_pieces(rt, rt.alloc(), source, plan, allowed(rt, how));
    are(made, row.2)
}

/// Whether they are, each way to share the units.
fn is_right_each_way<R: AllocGlobal + Abort + Threads + Sync>(
    rt: &R,
    source: &MemSource,
    plan: &Plan,
    row: &Row,
) -> bool {
    for how in EACH_HOW {
        if !is_right(rt, source, plan, row, *how) {
            return false;
        }
    }
    true
}

fn is_planned_right<R: AllocGlobal + Abort + Threads + Sync>(
    rt: &R,
    source: &MemSource,
    row: &Row,
) -> bool {
    match plan_of(rt, &[2, 1], row.0, 16_384, 16) {
        Ok(plan) => is_right_each_way(rt, source, &plan, row),
        Err(_) => false,
    }
}

fn is_each_right<R: AllocGlobal + Abort + Threads + Sync>(rt: &R, row: &Row) -> bool {
    match files_with(rt.alloc(), row.1) {
        Ok(source) => is_planned_right(rt, &source, row),
        Err(_) => false,
    }
}

/// The length of a file of three bytes at first and again, the bytes that it has, whether it was changed, and how often
/// bytes are read.
type Change = ((Option<u64>, Option<u64>), u64, bool, u64);

const CHANGES: &[Change] = &[
    ((Some(3), Some(3)), 3, false, 1),
    // The piece is not wholly there, and so it is not read.
    ((Some(2), Some(2)), 2, false, 0),
    ((None, None), 0, false, 0),
    // The bytes past the third are not read.
    ((Some(9), Some(9)), 9, false, 1),
    ((Some(3), Some(4)), 3, true, 1),
    ((Some(3), None), 3, true, 1),
    ((None, Some(3)), 3, true, 0),
    ((None, Some(0)), 0, true, 0),
    ((Some(3), Some(3)), 2, true, 2),
];

/// Whether the file that changes, of two, is answered.
fn is_changed<R: AllocGlobal + Abort + Threads + Sync>(
    rt: &R,
    plan: &Plan,
    source: &Changing,
    how: How,
) -> bool {
    match hash_pieces(rt, rt.alloc(), source, plan, allowed(rt, how)) {
        Err(EngineError::Changed { file }) => file == source.file,
        _ => false,
    }
}

fn is_change<R: AllocGlobal + Abort + Threads + Sync>(
    rt: &R,
    plan: &Plan,
    row: &Change,
    file: u64,
    how: How,
) -> bool {
    let ((first, again), there, wanted, reads) = *row;
    let source = file_that_changes(file, Ok(first), again, there);
    is_changed(rt, plan, &source, how) == wanted && source.reads.load(SeqCst) == reads
}

fn are_changes<R: AllocGlobal + Abort + Threads + Sync>(
    rt: &R,
    plan: &Plan,
    file: u64,
    how: How,
) -> bool {
    for row in CHANGES {
        if !is_change(rt, plan, row, file, how) {
            return false;
        }
    }
    true
}

/// Whether each row holds of a file, by one worker and by two.
fn is_each_change<R: AllocGlobal + Abort + Threads + Sync>(
    rt: &R,
    lengths: &[u64],
    file: u64,
) -> bool {
    match plan_of(rt, lengths, Kind::V2, 16_384, 16) {
        Ok(plan) => {
            are_changes(rt, &plan, file, How::One) && are_changes(rt, &plan, file, How::Halves(2))
        }
        Err(_) => false,
    }
}

fn are_right<R: AllocGlobal + Abort + Threads + Sync>(rt: &R) -> bool {
    for row in ROWS {
        if !is_each_right(rt, row) {
            return false;
        }
    }
    true
}

/// The lengths are asked again when all pieces were read.
fn hold<R: AllocGlobal + Abort + Threads + Sync>(rt: &R) -> bool {
    are_right(rt) && is_each_change(rt, &[3, 0], 0) && is_each_change(rt, &[0, 3], 1)
}

#[test]
fn hashes_the_pieces_that_are_there_and_tells_of_a_file_that_changes(rt: HostRuntime) {
    assert!(rt; hold(&rt));
}
