//! Torrents rechecked against files in memory, each way to share the units. The hashes are of Python's hashlib.
ghost use Rattle.tor_source.specs.Answers.{any_answers};

use crate::check::telling::{Parts, is, joined};
use crate::meta::given::source;
use crate::recheck::bits::{are_read_back, is_hex};
use std::alloc::{AllocError, Global};
use std::sync::atomic::AtomicU64;
use std::sync::atomic::Ordering::SeqCst;
use std::thread::Threads;
use tor_check::{Torrent, validate};
use tor_engine::How;
use tor_recheck::recheck;
use tor_source::{FailSource, Source};
use tor_view::Bits;

/// Each way to share the units.
const EACH_HOW: &[How] = &[
    How::One,
    How::Halves(1),
    How::Halves(2),
    How::Halves(64),
    How::Board(1),
    How::Board(2),
    How::Board(64),
];

/// A fault: of a file, for its length or at an offset; and its number.
pub(crate) type FaultAt = (u64, Option<u64>, u64);

/// The files that are there, their faults, and what is answered: which pieces are there and right by their bits and,
/// after a space, the bitfield; or why there are none.
type Row = (&'static str, &'static [FaultAt], &'static str);

/// The SHA-256 of `ab`, and of `c`.
const ROOT_A: &[u8] = b"\xfb\x8e\x20\xfc\x2e\x4c\x3f\x24\x8c\x60\xc3\x9b\xd6\x52\xf3\xc1\
\x34\x72\x98\xbb\x97\x7b\x8b\x4d\x59\x03\xb8\x50\x55\x62\x06\x03";

const ROOT_B: &[u8] = b"\x2e\x7d\x2c\x03\xa9\x50\x7a\xe2\x65\xec\xf5\xb5\x35\x68\x85\xa5\
\x33\x93\xa2\x02\x9d\x24\x13\x94\x99\x72\x65\xa1\xa2\x5a\xef\xc6";

/// The first with one bit turned.
const OTHER_ROOT: &[u8] = b"\xfa\x8e\x20\xfc\x2e\x4c\x3f\x24\x8c\x60\xc3\x9b\xd6\x52\xf3\xc1\
\x34\x72\x98\xbb\x97\x7b\x8b\x4d\x59\x03\xb8\x50\x55\x62\x06\x03";

/// The SHA-1 of `ab` and zeros up to 16,384 bytes, and of `c`.
const SUM_A: &[u8] = b"\xcb\x25\xce\xe0\xc9\xee\x3f\xc5\x74\x13\
\xe4\x72\xac\xdb\x19\x13\x86\xed\xb6\x12";

const SUM_B: &[u8] = b"\x84\xa5\x16\x84\x1b\xa7\x7a\x5b\x46\x48\
\xde\x2c\xd0\xdf\xcb\x30\xea\x46\xdb\xb4";

/// The first with one bit turned.
const OTHER_SUM: &[u8] = b"\xca\x25\xce\xe0\xc9\xee\x3f\xc5\x74\x13\
\xe4\x72\xac\xdb\x19\x13\x86\xed\xb6\x12";

/// A hybrid of a = `ab` and b = `c`, up to the root of a; from there to that of b; from there to the pieces.
const HYBRID: &[u8] = b"d4:infod9:file treed1:ad0:d6:lengthi2e11:pieces root32:";

const THEN_B: &[u8] = b"ee1:bd0:d6:lengthi1e11:pieces root32:";

const THEN_LIST: &[u8] =
    b"eee5:filesld6:lengthi2e4:pathl1:aeed4:attr1:p6:lengthi16382e4:pathl4:.pad5:16382ee\
d6:lengthi1e4:pathl1:beee12:meta versioni2e4:name1:f12:piece lengthi16384e6:pieces40:";

const END: &[u8] = b"e12:piece layersdee";

pub(crate) const OF_BOTH: &[&[u8]] = &[
    HYBRID, ROOT_A, THEN_B, ROOT_B, THEN_LIST, SUM_A, SUM_B, END,
];

pub(crate) const OF_OTHER_SUM: &[&[u8]] = &[
    HYBRID, ROOT_A, THEN_B, ROOT_B, THEN_LIST, OTHER_SUM, SUM_B, END,
];

pub(crate) const OF_OTHER_ROOT: &[&[u8]] = &[
    HYBRID, OTHER_ROOT, THEN_B, ROOT_B, THEN_LIST, SUM_A, SUM_B, END,
];

/// The files a = `ab` and b = `c` in version 1: one piece runs across the end of the first.
pub(crate) const JOINED: &[&[u8]] = &[
    b"d4:infod5:filesld6:lengthi2e4:pathl1:aeed6:lengthi1e4:pathl1:beee4:name1:f\
12:piece lengthi16384e6:pieces20:",
    b"\xa9\x99\x3e\x36\x47\x06\x81\x6a\xba\x3e\x25\x71\x78\x50\xc2\x6c\x9c\xd0\xd8\x9d",
    b"ee",
];

pub(crate) const EMPTY: &[&[u8]] = &[
    b"d4:infod9:file treed1:ad0:d6:lengthi0eeee12:meta versioni2e4:name1:a\
12:piece lengthi16384ee12:piece layersdee",
];

/// `abcdefghi` in pieces of one byte.
pub(crate) const NINE: &[&[u8]] = &[
    b"d4:infod6:lengthi9e4:name1:a12:piece lengthi1e6:pieces180:",
    b"\x86\xf7\xe4\x37\xfa\xa5\xa7\xfc\xe1\x5d\x1d\xdc\xb9\xea\xea\xea\x37\x76\x67\xb8",
    b"\xe9\xd7\x1f\x5e\xe7\xc9\x2d\x6d\xc9\xe9\x2f\xfd\xad\x17\xb8\xbd\x49\x41\x8f\x98",
    b"\x84\xa5\x16\x84\x1b\xa7\x7a\x5b\x46\x48\xde\x2c\xd0\xdf\xcb\x30\xea\x46\xdb\xb4",
    b"\x3c\x36\x38\x36\xcf\x4e\x16\x66\x66\x69\xa2\x5d\xa2\x80\xa1\x86\x5c\x2d\x28\x74",
    b"\x58\xe6\xb3\xa4\x14\xa1\xe0\x90\xdf\xc6\x02\x9a\xdd\x0f\x35\x55\xcc\xba\x12\x7f",
    b"\x4a\x0a\x19\x21\x8e\x08\x2a\x34\x3a\x1b\x17\xe5\x33\x34\x09\xaf\x9d\x98\xf0\xf5",
    b"\x54\xfd\x17\x11\x20\x9f\xb1\xc0\x78\x10\x92\x37\x41\x32\xc6\x6e\x79\xe2\x24\x1b",
    b"\x27\xd5\x48\x2e\xeb\xd0\x75\xde\x44\x38\x97\x74\xfc\xe2\x8c\x69\xf4\x5c\x8a\x75",
    b"\x04\x2d\xc4\x51\x2f\xa3\xd3\x91\xc5\x17\x0c\xf3\xaa\x61\xe6\xa6\x38\xf8\x43\x42",
    b"ee",
];

/// The SHA-1 of 16,384 zeros.
const ZEROS: &[u8] = b"\x89\x72\x56\xb6\x70\x9e\x1a\x4d\xa9\xda\
\xba\x92\xb6\xbd\xe3\x9c\xcf\xcc\xd8\xc1";

/// Seventeen pieces of padding, and then a file of one byte.
pub(crate) const PADDED: &[&[u8]] = &[
    b"d4:infod5:filesld4:attr1:p6:lengthi278528e4:pathl4:.pad6:278528eed6:lengthi1e4:pathl1:aeee4:name1:f\
12:piece lengthi16384e6:pieces360:",
    ZEROS,
    ZEROS,
    ZEROS,
    ZEROS,
    ZEROS,
    ZEROS,
    ZEROS,
    ZEROS,
    ZEROS,
    ZEROS,
    ZEROS,
    ZEROS,
    ZEROS,
    ZEROS,
    ZEROS,
    ZEROS,
    ZEROS,
    b"\x11\xf6\xad\x8e\xc5\x2a\x29\x84\xab\xaa\xfd\x7c\x3b\x51\x65\x03\x78\x5c\x20\x72",
    b"ee",
];

/// A file of 16,385 zeros in version 2: a layer of two hashes.
const LONG: &[&[u8]] = &[
    b"d4:infod9:file treed1:ad0:d6:lengthi16385e11:pieces root32:",
    b"\x47\x7e\x14\xff\x34\x53\xec\x4e\xc3\x85\x5f\x87\x53\xcb\x07\x28\
\x8a\xad\xe5\x61\x8a\x47\x3c\xcc\x2a\xb1\x20\x88\x86\xe4\x60\xec",
    b"eee12:meta versioni2e4:name1:a12:piece lengthi16384ee12:piece layersd32:",
    b"\x47\x7e\x14\xff\x34\x53\xec\x4e\xc3\x85\x5f\x87\x53\xcb\x07\x28\
\x8a\xad\xe5\x61\x8a\x47\x3c\xcc\x2a\xb1\x20\x88\x86\xe4\x60\xec",
    b"64:",
    b"\x4f\xe7\xb5\x9a\xf6\xde\x3b\x66\x5b\x67\x78\x8c\xc2\xf9\x98\x92\
\xab\x82\x7e\xfa\xe3\xa4\x67\x34\x2b\x3b\xb4\xe3\xbc\x8e\x5b\xfe",
    b"\x6e\x34\x0b\x9c\xff\xb3\x7a\x98\x9c\xa5\x44\xe6\xbb\x78\x0a\x2c\
\x78\x90\x1d\x3f\xb3\x37\x38\x76\x85\x11\xa3\x06\x17\xaf\xa0\x1d",
    b"ee",
];

const ROWS_OF_BOTH: &[Row] = &[
    ("a=ab b=c", &[], "11 c0"),
    ("a=ab b", &[], "10 80"),
    ("", &[], "00 00"),
    ("a=ab b=d", &[], "10 80"),
    ("a=a b=c", &[], "01 40"),
    // The byte past the end is not read.
    ("a=ab b=cx", &[], "11 c0"),
    // Byte 0 of the first file, which is read.
    (
        "a=ab b=c",
        &[(0, Some(0), 4)],
        "Read { file: 0, start: Some(0), fault: 4 }",
    ),
    // Byte 0 of the first file, which is not read, since the file has another length.
    ("a=a b=c", &[(0, Some(0), 4)], "01 40"),
    // A length.
    (
        "",
        &[(1, None, 7)],
        "Read { file: 1, start: None, fault: 7 }",
    ),
];

const ROWS_OF_OTHER: &[Row] = &[("a=ab b=c", &[], "01 40")];

const ROWS_OF_JOINED: &[Row] = &[
    ("a=ab b=c", &[], "1 80"),
    ("a=ab b", &[], "0 00"),
    ("a=ab b=cx", &[], "1 80"),
    ("a=abc b=c", &[], "1 80"),
];

const ROWS_OF_EMPTY: &[Row] = &[
    // No piece, whether the file is there or not.
    ("a=", &[], " "),
    ("a", &[], " "),
];

const ROWS_OF_NINE: &[Row] = &[
    ("a=abcdefghi", &[], "111111111 ff80"),
    ("a=abcdefgh", &[], "111111110 ff00"),
    ("a=abcdXfghi", &[], "111101111 f780"),
    ("a", &[], "000000000 0000"),
];

const ROWS_OF_PADDED: &[Row] = &[
    // Padding is always there.
    ("a", &[], "111111111111111110 ffff80"),
    ("a=x", &[], "111111111111111111 ffffc0"),
];

const ROWS_OF_LONG: &[Row] = &[
    ("a", &[], "00 00"),
    // The whole of the file, and its first block alone.
    ("a=*16385", &[], "11 c0"),
    ("a=*16384", &[], "10 80"),
];

/// The torrent that the parts are. That they are none, as in none of the tables, is told as want of memory.
pub(crate) fn torrent_of(alloc: Global, parts: &[&[u8]]) -> Result<Torrent, AllocError> {
    let bytes = joined(alloc, parts)?;
    validate(alloc, &bytes).ok().ok_or(AllocError)
}

/// A source of the files that a text gives, with these faults.
pub(crate) fn failing(
    alloc: Global,
    given: &str,
    at: &[FaultAt],
) -> Result<FailSource, AllocError> {
    let faults = Vec::from_slice(alloc, at)?;
    Ok(FailSource::new(source(alloc, given)?, faults))
}

/// Whether these are the bits, and after a space the bitfield in hexadecimal.
pub(crate) fn is_told(alloc: Global, bits: &Bits, wanted: &str) -> bool {
    match wanted.split_once(' ') {
        Some((pieces, hex)) => are_read_back(bits, pieces) && is_hex(alloc, bits, hex),
        None => false,
    }
}

/// Whether this is answered: the bits of the pieces, or why there are none.
fn is_answer<S: Source, R: AllocGlobal + Threads + Sync>(
    rt: &R,
    source: &S,
    torrent: &Torrent,
    how: How,
    wanted: &str,
) -> bool {
    match recheck(rt, rt.alloc(), source, torrent, how) {
        Ok(bits) => is_told(rt.alloc(), &bits, wanted),
        Err(error) => is(format!(in rt.alloc(); "{error:?}"), wanted),
    }
}

/// Whether it is, each of these ways to share the units.
fn is_each_answer<S: Source, R: AllocGlobal + Threads + Sync>(
    rt: &R,
    source: &S,
    parts: &[&[u8]],
    each_how: &[How],
    wanted: &str,
) -> bool {
    let Ok(torrent) = torrent_of(rt.alloc(), parts) else {
        return false;
    };
    for how in each_how {
        if !is_answer(rt, source, &torrent, *how, wanted) {
            return false;
        }
    }
    true
}

fn is_right<R: AllocGlobal + Threads + Sync>(
    rt: &R,
    parts: Parts,
    row: &Row,
    each_how: &[How],
) -> bool {
    match failing(rt.alloc(), row.0, row.1) {
        Ok(source) => is_each_answer(rt, &source, parts, each_how, row.2),
        Err(_) => false,
    }
}

/// Numbers of workers that are too few and too many.
const OUTSIDE: &[How] = &[
    How::Halves(0),
    How::Halves(65),
    How::Halves(u32::MAX),
    How::Board(0),
    How::Board(65),
];

/// They are refused if the length of a file fails too.
const REFUSED: &Row = &("", &[(0, None, 4)], "Workers");

/// Files of two bytes and of one. Once both lengths were asked, one of the files is told to have another.
#[derive(Drop)]
struct Changing {
    file: u64,
    again: Option<u64>,
    asked: AtomicU64,
}

impl Source for Changing {
    type Fault = u64;

    ghost is_steady = { λ _ _. ⊥ };

    ghost answers = { λ _. any_answers };

    fn length(&self, file: u64) -> Result<Option<u64>, u64> {
        if self.asked.fetch_add(1, SeqCst) > 1 && file == self.file {
            return Ok(self.again);
        }
        Ok(Some(if file == 0 { 2 } else { 1 }))
    }

    fn read_at(&self, _file: u64, _start: u64, buffer: &mut [u8]) -> Result<usize, u64> {
        Ok(buffer.len())
    }
}

/// The file, what it is told to have when it is asked again, and what is answered of the pieces.
/// The file, what it is told to have when it is asked again, and what is answered of the pieces.
type Change = (u64, Option<u64>, &'static str);

const CHANGES: &[Change] = &[
    (0, Some(3), "Changed { file: 0 }"),
    (1, Some(0), "Changed { file: 1 }"),
    (1, None, "Changed { file: 1 }"),
    (1, Some(1), "00 00"),
];

fn is_change<R: AllocGlobal + Threads + Sync>(rt: &R, row: &Change) -> bool {
    let (file, again, wanted) = *row;
    let source = Changing {
        file,
        again,
        asked: AtomicU64::new(0),
    };
    is_each_answer(rt, &source, OF_BOTH, &[How::Halves(2)], wanted)
}

/// Whether each row holds of the torrent that the parts are.
fn are_right<R: AllocGlobal + Threads + Sync>(rt: &R, parts: Parts, rows: &[Row]) -> bool {
    for row in rows {
        if !is_right(rt, parts, row, EACH_HOW) {
            return false;
        }
    }
    true
}

fn are_all_right<R: AllocGlobal + Threads + Sync>(rt: &R) -> bool {
    are_right(rt, OF_BOTH, ROWS_OF_BOTH)
        && are_right(rt, OF_OTHER_SUM, ROWS_OF_OTHER)
        && are_right(rt, OF_OTHER_ROOT, ROWS_OF_OTHER)
        && are_right(rt, JOINED, ROWS_OF_JOINED)
        && are_right(rt, EMPTY, ROWS_OF_EMPTY)
        && are_right(rt, NINE, ROWS_OF_NINE)
        && are_right(rt, PADDED, ROWS_OF_PADDED)
        && are_right(rt, LONG, ROWS_OF_LONG)
        && is_right(rt, OF_BOTH, REFUSED, OUTSIDE)
}

fn are_changes<R: AllocGlobal + Threads + Sync>(rt: &R) -> bool {
    for row in CHANGES {
        if !is_change(rt, row) {
            return false;
        }
    }
    true
}

#[test]
fn tells_which_pieces_are_there_and_right_or_the_first_fault(rt: HostRuntime) {
    assert!(rt; are_all_right(&rt) && are_changes(&rt));
}
