//! Torrents of readers that are read once, by each number of workers and each cutting of the reads, and why there is
//! none.

use crate::check::telling::are;
use crate::meta::contents::{ABC, EMPTY_HYBRID, EMPTY_V1, EMPTY_V2, FOLDER_HYBRID, FOLDER_V1};
use crate::meta::given::{Row, Shape, contents, is, paths};
use crate::meta::sources::order;
use std::alloc::{AllocError, Global};
use std::io::{self, ErrorKind, Read};
use std::process::Abort;
use std::sync::Wait;
use std::sync::atomic::AtomicU64;
use std::sync::atomic::Ordering::SeqCst;
use std::thread::Threads;
use tor_engine::{EngineError, How};
use tor_meta::{MakeError, Order, make_streams};
use tor_tree::{FilePath, Kind};

/// Bytes that are given so many a read, and then a fault if there is one; what it is asked is counted.
#[derive(Drop)]
struct Parts<'a> {
    bytes: Vec<u8>,
    given: usize,
    step: usize,
    fault: Option<ErrorKind>,
    asked: &'a AtomicU64,
}

impl<'a> Read for Parts<'a> {
    fn read(&mut self, buffer: &mut [u8]) -> io::Result<usize> {
        self.asked.fetch_add(1, SeqCst);
        let given = self.given.min(self.bytes.len());
        let (_, left) = self.bytes.as_slice().split_at(given);
        if left.is_empty() {
            return match self.fault {
                Some(kind) => Err(io::Error::from(kind)),
                None => Ok(0),
            };
        }
        let count = left.len().min(self.step).min(buffer.len());
        let (part, _) = left.split_at(count);
        let (front, _) = buffer.split_at_mut(count);
        front.copy_from_slice(part);
        self.given = given + count;
        Ok(count)
    }
}

/// How readers are read, and hashed.
#[derive(Clone, Copy)]
struct Way {
    step: usize,
    fault: Option<ErrorKind>,
    span: u32,
    how: How,
    tail: bool,
}

fn add_readers<'a>(
    alloc: Global,
    given: &str,
    way: Way,
    asked: &'a AtomicU64,
    readers: &mut Vec<Parts<'a>>,
) -> Result<(), AllocError> {
    for content in contents(alloc, given)? {
        readers.push(Parts {
            bytes: content.unwrap_or(Vec::new(alloc)),
            given: 0,
            step: way.step,
            fault: way.fault,
            asked,
        })?;
    }
    Ok(())
}

fn order_of(alloc: Global, shape: &Shape, way: Way) -> Result<Order, AllocError> {
    let mut order = order(alloc, shape)?;
    (order.span, order.how, order.tail) = (way.span, way.how, way.tail);
    Ok(order)
}

/// What is made of as many readers as paths.
fn made_of<R: AllocGlobal + Abort + Threads + Wait + Sync>(
    rt: &R,
    readers: Vec<Parts<'_>>,
    paths: &[FilePath],
    order: &Order,
) -> Result<Vec<u8>, MakeError<io::Error>> {
    assert!(rt; readers.len() == paths.len());
    make_streams(rt, rt.alloc(), readers, paths, order)
}

/// What is made of the readers of a row.
fn made<R: AllocGlobal + Abort + Threads + Wait + Sync>(
    rt: &R,
    row: &Row,
    way: Way,
    asked: &AtomicU64,
) -> Result<Vec<u8>, MakeError<io::Error>> {
    let alloc = rt.alloc();
    let order = order_of(alloc, &row.0, way)?;
    let paths = paths(alloc, row.1)?;
    let mut readers = Vec::new(alloc);
    add_readers(alloc, row.1, way, asked, &mut readers)?;
    made_of(rt, readers, &paths, &order)
}

/// How many bytes a read gives at most, and who hashes.
const WAYS: &[(usize, How)] = &[
    (1, How::One),
    (1, How::Board(2)),
    (1, How::Halves(64)),
    (65536, How::Board(1)),
    (65536, How::Halves(2)),
    (65536, How::Board(64)),
];

fn is_made<R: AllocGlobal + Abort + Threads + Wait + Sync>(rt: &R, row: &Row, way: Way) -> bool {
    are(made(rt, row, way, &AtomicU64::new(0)), row.2)
}

/// Whether a row is made each way, with a tail or without.
pub(crate) fn is_made_each_way<R: AllocGlobal + Abort + Threads + Wait + Sync>(
    rt: &R,
    row: &Row,
    tail: bool,
) -> bool {
    for (step, how) in WAYS {
        let way = Way {
            step: *step,
            fault: None,
            span: 2,
            how: *how,
            tail,
        };
        if !is_made(rt, row, way) {
            return false;
        }
    }
    true
}

// The padding stands directly after `ab`.
const EMPTY_BETWEEN: &[u8] = b"d4:infod9:file treed1:ad0:d6:lengthi2e11:pieces root32:\
\xfb\x8e\x20\xfc\x2e\x4c\x3f\x24\x8c\x60\xc3\x9b\xd6\x52\xf3\xc1\
\x34\x72\x98\xbb\x97\x7b\x8b\x4d\x59\x03\xb8\x50\x55\x62\x06\x03\
ee2:aad0:d6:lengthi0eee1:bd0:d6:lengthi1e11:pieces root32:\
\x2e\x7d\x2c\x03\xa9\x50\x7a\xe2\x65\xec\xf5\xb5\x35\x68\x85\xa5\
\x33\x93\xa2\x02\x9d\x24\x13\x94\x99\x72\x65\xa1\xa2\x5a\xef\xc6\
eee5:filesld6:lengthi2e4:pathl1:aeed4:attr1:p6:lengthi16382e4:pathl4:.pad5:16382ee\
d6:lengthi0e4:pathl2:aaeed6:lengthi1e4:pathl1:beee\
12:meta versioni2e4:name1:f12:piece lengthi16384e6:pieces40:\
\xcb\x25\xce\xe0\xc9\xee\x3f\xc5\x74\x13\xe4\x72\xac\xdb\x19\x13\x86\xed\xb6\x12\
\x84\xa5\x16\x84\x1b\xa7\x7a\x5b\x46\x48\xde\x2c\xd0\xdf\xcb\x30\xea\x46\xdb\xb4\
e12:piece layersdee";

// No byte follows `ab`, and so no padding.
const EMPTY_AFTER: &[u8] = b"d4:infod9:file treed1:ad0:d6:lengthi2e11:pieces root32:\
\xfb\x8e\x20\xfc\x2e\x4c\x3f\x24\x8c\x60\xc3\x9b\xd6\x52\xf3\xc1\
\x34\x72\x98\xbb\x97\x7b\x8b\x4d\x59\x03\xb8\x50\x55\x62\x06\x03\
ee2:aad0:d6:lengthi0eeee5:filesld6:lengthi2e4:pathl1:aeed6:lengthi0e4:pathl2:aaeee\
12:meta versioni2e4:name1:f12:piece lengthi16384e6:pieces20:\
\xda\x23\x61\x4e\x02\x46\x9a\x0d\x7c\x7b\xd1\xbd\xab\x5c\x9c\x47\x4b\x19\x04\xdce12:piece layersdee";

const V1: Shape = (Kind::V1, false, 16384, "f");

const V2: Shape = (Kind::V2, false, 16384, "f");

const HYBRID: Shape = (Kind::Hybrid, false, 16384, "f");

const V2_OF_A: Shape = (Kind::V2, true, 16384, "a");

const MADE: &[Row] = &[
    (V2_OF_A, "a=abc", ABC),
    ((Kind::V1, true, 16384, "a"), "a=", EMPTY_V1),
    (V2_OF_A, "a=", EMPTY_V2),
    ((Kind::Hybrid, true, 16384, "a"), "a=", EMPTY_HYBRID),
    (V1, "a=ab b=c", FOLDER_V1),
    (HYBRID, "a=ab b=c", FOLDER_HYBRID),
    (HYBRID, "a=ab aa= b=c", EMPTY_BETWEEN),
    (HYBRID, "a=ab aa=", EMPTY_AFTER),
];

/// A torrent that is not made of readers, the span and the workers.
type Refusal = (Row, u32, How);

const LARGE: Shape = (Kind::V2, false, 1 << 30, "f");

const REFUSED: &[Refusal] = &[
    (
        ((Kind::V2, false, 16383, "f"), "b a", b"M1 PieceLength"),
        3,
        How::Board(0),
    ),
    ((V2, "b a", b"M2 Workers"), 3, How::Board(0)),
    ((V2, "b a", b"M2 Workers"), 3, How::Halves(65)),
    ((V2, "b a", b"M3 Span"), 3, How::Board(64)),
    ((V2, "b a", b"M3 Span"), 2048, How::One),
    // A unit of more than 2^30 bytes.
    ((LARGE, "b a", b"M3 Span"), 2, How::Board(1)),
    ((V2_OF_A, "b a", b"M5 SingleShape"), 1, How::Board(2)),
    ((V2, "b a", b"M6 NotSorted"), 1, How::Board(2)),
    ((V2, "a-b a/c", b"M6 NotSorted"), 1, How::Board(2)),
    ((V1, "a a", b"M6 NotSorted"), 1, How::One),
    ((V2, "", b"L4 NoFiles"), 1, How::One),
    ((V1, "a a/b", b"L2 FileAndFolder"), 1, How::One),
    ((HYBRID, ".pad/1", b"Y1 ReservedPad"), 1, How::One),
];

fn is_refused<R: AllocGlobal + Abort + Threads + Wait + Sync>(rt: &R, refusal: &Refusal) -> bool {
    let (row, span, how) = *refusal;
    let way = Way {
        step: 1,
        fault: Some(ErrorKind::Other),
        span,
        how,
        tail: false,
    };
    let asked = AtomicU64::new(0);
    match made(rt, &row, way, &asked) {
        Ok(_) => false,
        Err(error) => { is(format!(in rt.alloc(); "{error}"), row.2) && asked.load(SeqCst) == 0 }
    }
}

/// Whether the fault of a reader that gives `abc` is told with its file, after three bytes, whoever hashes.
fn is_told<R: AllocGlobal + Abort + Threads + Wait + Sync>(
    rt: &R,
    kind: ErrorKind,
    how: How,
) -> bool {
    let way = Way {
        step: 2,
        fault: Some(kind),
        span: 1,
        how,
        tail: false,
    };
    match made(rt, &(HYBRID, "a=abc b=d", b""), way, &AtomicU64::new(0)) {
        Err(
            MakeError::Hashing(
                EngineError::Read {
                    file: 0,
                    start: Some(3),
                    fault,
                },
            ),
        ) => fault.kind() == kind,
        _ => false,
    }
}

/// A fault, and who hashes.
const FAULTS: &[(ErrorKind, How)] = &[
    (ErrorKind::Other, How::One),
    (ErrorKind::Interrupted, How::Board(2)),
    (ErrorKind::WouldBlock, How::Halves(64)),
];

/// Whether a reader that gives more bytes than a file can have, which none of the readers here does, has this line.
fn is_too_long(alloc: Global, line: &[u8]) -> bool {
    let error: MakeError<io::Error> = MakeError::Hashing(EngineError::StreamTooLong { file: 1 });
    is(format!(in alloc; "{error}"), line)
}

#[test]
fn tells_that_a_reader_is_too_long(rt: HostRuntime) {
    assert!(rt; is_too_long(rt.alloc(), b"E5 StreamTooLong"));
}

fn are_made<R: AllocGlobal + Abort + Threads + Wait + Sync>(rt: &R) -> bool {
    for row in MADE {
        if !is_made_each_way(rt, row, false) {
            return false;
        }
    }
    true
}

fn are_refused<R: AllocGlobal + Abort + Threads + Wait + Sync>(rt: &R) -> bool {
    for row in REFUSED {
        if !is_refused(rt, row) {
            return false;
        }
    }
    true
}

fn are_told<R: AllocGlobal + Abort + Threads + Wait + Sync>(rt: &R) -> bool {
    for row in FAULTS {
        if !is_told(rt, row.0, row.1) {
            return false;
        }
    }
    true
}

fn hold<R: AllocGlobal + Abort + Threads + Wait + Sync>(rt: &R) -> bool {
    are_made(rt) && are_refused(rt) && are_told(rt)
}

#[test]
fn makes_torrents_of_readers_however_they_are_read(rt: HostRuntime) {
    assert!(rt; hold(&rt));
}
