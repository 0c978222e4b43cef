//! Torrents rechecked against files of which places fail, and the recheck keeps going.

use crate::check::telling::{Parts, is};
use crate::recheck::rechecks::{
    FaultAt, JOINED, OF_BOTH, OF_OTHER_SUM, failing, is_told, torrent_of,
};
use std::alloc::{AllocError, Global};
use std::thread::Threads;
use tor_check::Torrent;
use tor_engine::{How, ReadFault};
use tor_recheck::{ReadableFindings, recheck_readable};
use tor_source::FailSource;
use tor_view::FileFound;

/// The files that are there, their faults, and what is told: the bits and the bitfield, the state of each file, and
/// each fault.
type Row = (
    &'static str,
    &'static [FaultAt],
    &'static str,
    &'static str,
    &'static str,
);

/// The SHA-1 of 16,384 zeros.
const ZEROS: &[u8] = b"\x89\x72\x56\xb6\x70\x9e\x1a\x4d\xa9\xda\
\xba\x92\xb6\xbd\xe3\x9c\xcf\xcc\xd8\xc1";

/// 40 pieces of 16,384 zeros each, so three units.
const FORTY: &[&[u8]] = &[
    b"d4:infod6:lengthi655360e4:name1:a12:piece lengthi16384e6:pieces800:",
    ZEROS,
    ZEROS,
    ZEROS,
    ZEROS,
    ZEROS,
    ZEROS,
    ZEROS,
    ZEROS,
    ZEROS,
    ZEROS,
    ZEROS,
    ZEROS,
    ZEROS,
    ZEROS,
    ZEROS,
    ZEROS,
    ZEROS,
    ZEROS,
    ZEROS,
    ZEROS,
    ZEROS,
    ZEROS,
    ZEROS,
    ZEROS,
    ZEROS,
    ZEROS,
    ZEROS,
    ZEROS,
    ZEROS,
    ZEROS,
    ZEROS,
    ZEROS,
    ZEROS,
    ZEROS,
    ZEROS,
    ZEROS,
    ZEROS,
    ZEROS,
    ZEROS,
    ZEROS,
    b"ee",
];

const ROWS_OF_BOTH: &[Row] = &[
    // Nothing fails.
    ("a=ab b=c", &[], "11 c0", "Whole Whole ", ""),
    // The first file cannot be read, the second is told all the same.
    (
        "a=ab b=c",
        &[(0, Some(0), 4)],
        "01 40",
        "Bad Whole ",
        "0 Some(0) 4, ",
    ),
    // Its second byte alone, and the length of the second.
    (
        "a=ab b=c",
        &[(0, Some(1), 5), (1, None, 6)],
        "00 00",
        "Bad Missing ",
        "1 None 6, 0 Some(1) 5, ",
    ),
    // A byte that no piece has, of a file that is longer, and one of a piece that is not there.
    (
        "a=a b=cx",
        &[(0, Some(0), 4), (1, Some(1), 5)],
        "01 40",
        "Short Whole ",
        "",
    ),
];

const ROWS_OF_OTHER: &[Row] = &[
    // The SHA-1 departs, and the other file fails.
    (
        "a=ab b=c",
        &[(1, Some(0), 9)],
        "00 00",
        "Whole Bad ",
        "1 Some(0) 9, ",
    ),
];

const ROWS_OF_JOINED: &[Row] = &[
    // One piece of two files, of which each fails, and one of them.
    (
        "a=ab b=c",
        &[(1, Some(0), 8), (0, Some(1), 7)],
        "0 00",
        "Bad Bad ",
        "0 Some(1) 7, 1 Some(0) 8, ",
    ),
    (
        "a=ab b=c",
        &[(1, Some(0), 8)],
        "0 00",
        "Bad Bad ",
        "1 Some(0) 8, ",
    ),
];

const ROWS_OF_FORTY: &[Row] = &[
    // Within a piece of the first unit of forty, at the first byte of one of the second and the last byte of one of the
    // third; a later one of the first is not met.
    (
        "a=*655360",
        &[
            (0, Some(60_000), 2),
            (0, Some(50_000), 1),
            (0, Some(278_528), 3),
            (0, Some(655_359), 4),
        ],
        "1110111111111111101111111111111111111110 efffbffffe",
        "Bad ",
        "0 Some(50000) 1, 0 Some(278528) 3, 0 Some(655359) 4, ",
    ),
];

/// Each way to share the units that is tried.
const EACH_HOW: &[How] = &[How::One, How::Halves(2), How::Board(4)];

fn states(alloc: Global, files: &[FileFound]) -> Result<String, AllocError> {
    let mut text = String::new(alloc);
    for file in files {
        let state = file.state;
        text.push_str(&format!(in alloc; "{state:?} ")?)?;
    }
    Ok(text)
}

fn faults_told(alloc: Global, faults: &[ReadFault<u64>]) -> Result<String, AllocError> {
    let mut text = String::new(alloc);
    for told in faults {
        let ReadFault { file, start, fault } = told;
        text.push_str(&format!(in alloc; "{file} {start:?} {fault}, ")?)?;
    }
    Ok(text)
}

fn is_found(
    alloc: Global,
    told: &ReadableFindings<u64>,
    bits: &str,
    files: &str,
    faults: &str,
) -> bool {
    is_told(alloc, &told.found.bits, bits)
        && is(states(alloc, &told.found.files), files)
        && is(faults_told(alloc, &told.faults), faults)
}

fn is_each_answer<R: AllocGlobal + Threads + Sync>(
    rt: &R,
    source: &FailSource,
    torrent: &Torrent,
    bits: &str,
    files: &str,
    faults: &str,
) -> bool {
    for how in EACH_HOW {
        match recheck_readable(rt, rt.alloc(), source, torrent, *how) {
            Ok(told) if is_found(rt.alloc(), &told, bits, files, faults) => {}
            _ => return false,
        }
    }
    true
}

fn is_right<R: AllocGlobal + Threads + Sync>(
    rt: &R,
    parts: Parts,
    row: &Row,
) -> Result<bool, AllocError> {
    let torrent = torrent_of(rt.alloc(), parts)?;
    let source = failing(rt.alloc(), row.0, row.1)?;
    Ok(is_each_answer(rt, &source, &torrent, row.2, row.3, row.4))
}

/// Whether each row holds of the torrent that the parts are.
fn are_right<R: AllocGlobal + Threads + Sync>(rt: &R, parts: Parts, rows: &[Row]) -> bool {
    for row in rows {
        if is_right(rt, parts, row) != Ok(true) {
            return false;
        }
    }
    true
}

fn are_all_right<R: AllocGlobal + Threads + Sync>(rt: &R) -> bool {
    are_right(rt, OF_BOTH, ROWS_OF_BOTH)
        && are_right(rt, OF_OTHER_SUM, ROWS_OF_OTHER)
        && are_right(rt, JOINED, ROWS_OF_JOINED)
        && are_right(rt, FORTY, ROWS_OF_FORTY)
}

#[test]
fn keeps_going_where_places_fail(rt: HostRuntime) {
    assert!(rt; are_all_right(&rt));
}
