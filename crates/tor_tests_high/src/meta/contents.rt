//! Torrents of contents in memory, whose bytes were worked out by hand from BEP 3, BEP 47 and BEP 52; each hash in
//! hexadecimal is of Python's hashlib. Others are in `tests/made.py`, as the program makes them.

use crate::meta::given::{Row, Shape, files, is, name, zeros};
use std::alloc::{AllocError, Global};
use std::io::{self, Error, ErrorKind, Write};
use tor_meta::{Head, make_contents};
use tor_spec::{Hashes, magnet, write_out};
use tor_tree::Kind;

/// The torrent of the content `abc` under the name `a`, piece length 16,384. The hash is the SHA-256 of `abc`.
pub(crate) const ABC: &[u8] = b"d4:infod9:file treed1:ad0:d6:lengthi3e11:pieces root32:\
\xba\x78\x16\xbf\x8f\x01\xcf\xea\x41\x41\x40\xde\x5d\xae\x22\x23\
\xb0\x03\x61\xa3\x96\x17\x7a\x9c\xb4\x10\xff\x61\xf2\x00\x15\xad\
eee12:meta versioni2e4:name1:a12:piece lengthi16384ee12:piece layersdee";

/// The torrents of no content under the name `a`.
pub(crate) const EMPTY_V1: &[u8] =
    b"d4:infod6:lengthi0e4:name1:a12:piece lengthi16384e6:pieces0:ee";

pub(crate) const EMPTY_V2: &[u8] = b"d4:infod9:file treed1:ad0:d6:lengthi0eeee\
12:meta versioni2e4:name1:a12:piece lengthi16384ee12:piece layersdee";

pub(crate) const EMPTY_HYBRID: &[u8] = b"d4:infod9:file treed1:ad0:d6:lengthi0eeee6:lengthi0e\
12:meta versioni2e4:name1:a12:piece lengthi16384e6:pieces0:e12:piece layersdee";

/// The torrent of version 1 of the files `a`, that has `ab`, and `b`, that has `c`, in the folder `f`, with the SHA-1
/// of `abc`.
pub(crate) const FOLDER_V1: &[u8] =
    b"d4:infod5:filesld6:lengthi2e4:pathl1:aeed6:lengthi1e4:pathl1:beee\
4:name1:f12:piece lengthi16384e6:pieces20:\
\xa9\x99\x3e\x36\x47\x06\x81\x6a\xba\x3e\x25\x71\x78\x50\xc2\x6c\x9c\xd0\xd8\x9dee";

/// The hybrid of the same files: the SHA-256 of `ab` and of `c`, the SHA-1 of `ab` and 16,382 zeros and that of `c`.
pub(crate) const FOLDER_HYBRID: &[u8] = b"d4:infod9:file treed1:ad0:d6:lengthi2e11:pieces root32:\
\xfb\x8e\x20\xfc\x2e\x4c\x3f\x24\x8c\x60\xc3\x9b\xd6\x52\xf3\xc1\
\x34\x72\x98\xbb\x97\x7b\x8b\x4d\x59\x03\xb8\x50\x55\x62\x06\x03\
ee1:bd0:d6:lengthi1e11:pieces root32:\
\x2e\x7d\x2c\x03\xa9\x50\x7a\xe2\x65\xec\xf5\xb5\x35\x68\x85\xa5\
\x33\x93\xa2\x02\x9d\x24\x13\x94\x99\x72\x65\xa1\xa2\x5a\xef\xc6\
eee5:filesld6:lengthi2e4:pathl1:aeed4:attr1:p6:lengthi16382e4:pathl4:.pad5:16382ee\
d6:lengthi1e4:pathl1:beee12:meta versioni2e4:name1:f12:piece lengthi16384e6:pieces40:\
\xcb\x25\xce\xe0\xc9\xee\x3f\xc5\x74\x13\xe4\x72\xac\xdb\x19\x13\x86\xed\xb6\x12\
\x84\xa5\x16\x84\x1b\xa7\x7a\x5b\x46\x48\xde\x2c\xd0\xdf\xcb\x30\xea\x46\xdb\xb4\
e12:piece layersdee";

fn head(alloc: Global, shape: &Shape) -> Result<Head, AllocError> {
    let (kind, single, piece_length, text) = *shape;
    Ok(Head {
        kind,
        single,
        name: name(alloc, text)?,
        piece_length,
        announce: None,
        is_private: false,
        tail: false,
    })
}

/// The torrent of files given as a text, or why there is none.
fn made(alloc: Global, shape: &Shape, given: &str) -> Result<Vec<u8>, AllocError> {
    let head = head(alloc, shape)?;
    match make_contents(alloc, files(alloc, given)?, &head) {
        Ok(bytes) => Ok(bytes),
        Err(refusal) => Ok(format!(in alloc; "{refusal}")?.into_bytes()),
    }
}

/// Whether a row holds; `made` stands for any torrent.
fn is_right(alloc: Global, row: &Row) -> bool {
    match made(alloc, &row.0, row.1) {
        Ok(bytes) if row.2 == b"made".as_slice() => bytes.starts_with(b"d4:infod"),
        Ok(bytes) => bytes.as_slice() == row.2,
        Err(_) => false,
    }
}

/// Whether just what stands there is made of each row.
fn are_right(alloc: Global, rows: &[Row]) -> bool {
    for row in rows {
        if !is_right(alloc, row) {
            return false;
        }
    }
    true
}

const V1_OF_A: Shape = (Kind::V1, true, 16384, "a");

const V2_OF_A: Shape = (Kind::V2, true, 16384, "a");

const HYBRID_OF_A: Shape = (Kind::Hybrid, true, 16384, "a");

const V1: Shape = (Kind::V1, false, 16384, "f");

const V2: Shape = (Kind::V2, false, 16384, "f");

const HYBRID: Shape = (Kind::Hybrid, false, 16384, "f");

const OF_ONE_FILE: &[Row] = &[
    (V2_OF_A, "a=abc", ABC),
    (V1_OF_A, "a=", EMPTY_V1),
    (V2_OF_A, "a=", EMPTY_V2),
    (HYBRID_OF_A, "a=", EMPTY_HYBRID),
];

const OF_A_FOLDER: &[Row] = &[
    (V1, "a=ab b=c", FOLDER_V1),
    (HYBRID, "a=ab b=c", FOLDER_HYBRID),
    (V1, "b=c a=ab", FOLDER_V1),
    (HYBRID, "b=c a=ab", FOLDER_HYBRID),
];

const TAKEN: &[Row] = &[(V1, ".pad/1=x", b"made"), (V2, ".pad/1=x", b"made")];

const TAKEN_ALONE: &[Row] = &[((Kind::Hybrid, true, 16384, ".pad"), ".pad=x", b"made")];

/// Empty files, and the line of the refusal.
const REFUSED: &[Row] = &[
    ((Kind::V2, true, 16383, "f"), "", b"M1 PieceLength"),
    ((Kind::V1, false, 2147483648, "f"), "b", b"M1 PieceLength"),
    ((Kind::V2, true, 16384, "f"), "", b"M5 SingleShape"),
    ((Kind::V1, true, 16384, "f"), "b", b"M5 SingleShape"),
    ((Kind::V2, true, 16384, "f"), "f f", b"M5 SingleShape"),
    (V2, "", b"L4 NoFiles"),
    (V1, "b b", b"L1 Duplicate"),
    (HYBRID, ".pad .pad/1", b"L2 FileAndFolder"),
    (HYBRID, "a .pad/1", b"Y1 ReservedPad"),
];

/// A path of 65 names, each of one byte, and 64 slashes between.
const DEEP: &str = "a/a/a/a/a/a/a/a/a/a/a/a/a/a/a/a/a/a/a/a/a/a/a/a/a/a/a/a/a/a/a/a/\
a/a/a/a/a/a/a/a/a/a/a/a/a/a/a/a/a/a/a/a/a/a/a/a/a/a/a/a/a/a/a/a/a";

const TOO_DEEP: &[Row] = &[((Kind::V2, true, 16384, "f"), DEEP, b"M4 Path")];

/// Hashes, and the link to a torrent that has them.
const LINKS: &[(Option<[u8; 20]>, Option<[u8; 32]>, &str)] = &[
    (
        Some([0xab; 20]),
        None,
        "magnet:?xt=urn:btih:abababababababababababababababababababab",
    ),
    (
        None,
        Some([0x0f; 32]),
        "magnet:?xt=urn:btmh:12200f0f0f0f0f0f0f0f0f0f0f0f0f0f0f0f0f0f0f0f0f0f0f0f0f0f0f0f0f0f0f0f",
    ),
    (
        Some([0xab; 20]),
        Some([0x0f; 32]),
        "magnet:?xt=urn:btih:abababababababababababababababababababab\
&xt=urn:btmh:12200f0f0f0f0f0f0f0f0f0f0f0f0f0f0f0f0f0f0f0f0f0f0f0f0f0f0f0f0f0f0f0f",
    ),
];

fn is_link(alloc: Global, row: &(Option<[u8; 20]>, Option<[u8; 32]>, &str)) -> bool {
    let (v1, v2, link) = *row;
    if v1.is_none() && v2.is_none() {
        return false;
    }
    is(magnet(alloc, &Hashes { v1, v2 }), link.as_bytes())
}

/// Whether just these bytes are written out.
fn are_written(alloc: Global, bytes: &[u8]) -> bool {
    let mut written = Vec::new(alloc);
    write_out(&mut written, bytes).is_ok() && written.as_slice() == bytes
}

/// Whether so many zeros are.
fn are_many_written(alloc: Global, count: usize) -> bool {
    match zeros(alloc, count) {
        Ok(bytes) => are_written(alloc, &bytes),
        Err(_) => false,
    }
}

/// A writer that takes 12 bytes in all, and then faults, or takes nothing.
#[derive(Drop)]
struct Twelve {
    taken: usize,
    faults: bool,
}

impl Write for Twelve {
    fn write(&mut self, buf: &[u8]) -> io::Result<usize> {
        let count = buf.len().min(12usize.saturating_sub(self.taken));
        if count == 0 && self.faults {
            return Err(Error::from(ErrorKind::Interrupted));
        }
        self.taken = self.taken.saturating_add(count);
        Ok(count)
    }

    fn flush(&mut self) -> io::Result<()> {
        Ok(())
    }
}

/// Whether such a writer stops the writing after 12 bytes, by its fault if it faults.
fn stops_after_twelve(faults: bool) -> bool {
    let mut writer = Twelve { taken: 0, faults };
    let Err(stopped) = write_out(&mut writer, b"thirteen bytes") else {
        return false;
    };
    let is_answered = match stopped.fault {
        Some(fault) => faults && fault.kind() == ErrorKind::Interrupted,
        None => !faults,
    };
    stopped.written == 12 && is_answered
}

const TABLES: &[&[Row]] = &[
    OF_ONE_FILE,
    OF_A_FOLDER,
    TAKEN,
    TAKEN_ALONE,
    REFUSED,
    // Long paths are refused before their shape.
    TOO_DEEP,
];

fn are_all_right(alloc: Global) -> bool {
    for rows in TABLES {
        if !are_right(alloc, rows) {
            return false;
        }
    }
    DEEP.len() == 129
}

#[test]
fn makes_torrents_of_contents(rt: HostRuntime) {
    assert!(rt; are_all_right(rt.alloc()));
}

fn are_links(alloc: Global) -> bool {
    for row in LINKS {
        if !is_link(alloc, row) {
            return false;
        }
    }
    true
}

fn are_bytes_written(alloc: Global) -> bool {
    are_written(alloc, b"abc")
        && are_many_written(alloc, 100_000)
        && stops_after_twelve(true)
        && stops_after_twelve(false)
}

#[test]
fn writes_out_all_bytes_and_links(rt: HostRuntime) {
    assert!(rt; are_bytes_written(rt.alloc()) && are_links(rt.alloc()));
}
