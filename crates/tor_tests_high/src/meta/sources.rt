//! Torrents of the files of a source that gives few bytes a read, and why there is none. Each hash in hexadecimal is of
//! Python's hashlib.
ghost use Rattle.tor_source.specs.Answers.{any_answers};

use crate::meta::contents::{ABC, EMPTY_HYBRID, EMPTY_V1, EMPTY_V2, FOLDER_HYBRID, FOLDER_V1};
use crate::meta::given::{Row, Shape, is, name, paths, source};
use std::alloc::{AllocError, Global};
use std::sync::atomic::AtomicU64;
use std::sync::atomic::Ordering::SeqCst;
use std::thread::Threads;
use tor_engine::How;
use tor_meta::{Order, make};
use tor_source::{FailSource, ShortSource, Source};
use tor_tree::{FilePath, Kind};

/// Each way to share the units.
const EACH_HOW: &[How] = &[
    How::One,
    How::Halves(1),
    How::Halves(2),
    How::Halves(64),
    How::Board(1),
    How::Board(2),
    How::Board(64),
];

/// An order for one piece a unit.
pub(crate) fn order(alloc: Global, shape: &Shape) -> Result<Order, AllocError> {
    let (kind, single, piece_length, text) = *shape;
    Ok(Order {
        kind,
        single,
        name: name(alloc, text)?,
        piece_length,
        announce: None,
        is_private: false,
        tail: false,
        span: 1,
        how: How::One,
    })
}

/// An order for one piece a unit, and the paths of files.
pub(crate) fn asked(
    alloc: Global,
    shape: &Shape,
    given: &str,
) -> Result<(Order, Vec<FilePath>), AllocError> {
    let order = order(alloc, shape)?;
    Ok((order, paths(alloc, given)?))
}

/// Whether this is made of a source, or is why nothing is; `made` stands for any torrent.
fn is_answer<S: Source, R: AllocGlobal + Threads + Sync>(
    rt: &R,
    source: &S,
    paths: &[FilePath],
    order: &Order,
    wanted: &[u8],
) -> bool {
    match make(rt, rt.alloc(), source, paths, order) {
        Ok(bytes) => wanted == b"made".as_slice() || bytes.as_slice() == wanted,
        Err(error) => is(format!(in rt.alloc(); "{error:?}"), wanted),
    }
}

/// Whether it is, each way to share the units.
fn is_each_answer<S: Source, R: AllocGlobal + Threads + Sync>(
    rt: &R,
    source: &S,
    paths: &[FilePath],
    order: &mut Order,
    wanted: &[u8],
) -> bool {
    for how in EACH_HOW {
        order.how = *how;
        if !is_answer(rt, source, paths, order, wanted) {
            return false;
        }
    }
    true
}

/// Whether the torrent of a row is made of a source each way to share the units, with so many pieces a unit.
fn is_each_made<S: Source, R: AllocGlobal + Threads + Sync>(
    rt: &R,
    source: &S,
    row: &Row,
    span: u32,
) -> bool {
    let Ok((mut order, paths)) = asked(rt.alloc(), &row.0, row.1) else {
        return false;
    };
    order.span = span;
    is_each_answer(rt, source, &paths, &mut order, row.2)
}

/// Whether a row holds if no read gives more than so many bytes.
fn is_made_in_steps<R: AllocGlobal + Threads + Sync>(rt: &R, row: &Row, step: usize) -> bool {
    match source(rt.alloc(), row.1) {
        Ok(source) => is_each_made(rt, &ShortSource::new(source, step.max(1)), row, 1),
        Err(_) => false,
    }
}

/// The list of `a/c`, that has `y`, and `a-b`, that has `x`, in the folder `f`, with the SHA-1 of `yx`.
const DASH_V1: &[u8] = b"d4:infod5:filesld6:lengthi1e4:pathl1:a1:ceed6:lengthi1e4:pathl3:a-beee\
4:name1:f12:piece lengthi16384e6:pieces20:\
\x62\xba\x52\x94\xe4\x45\xf5\xb1\x5f\x10\x07\xb8\xc9\x3c\xcb\x46\xea\xb2\xe7\xe7ee";

/// Their tree: the key `a` comes before `a-b`.
const DASH_V2: &[u8] = b"d4:infod9:file treed1:ad1:cd0:d6:lengthi1e11:pieces root32:\
\xa1\xfc\xe4\x36\x38\x54\xff\x88\x8c\xff\x4b\x8e\x78\x75\xd6\x00\
\xc2\x68\x23\x90\x41\x2a\x8c\xf7\x9b\x37\xd0\xb1\x11\x48\xb0\xfa\
eee3:a-bd0:d6:lengthi1e11:pieces root32:\
\x2d\x71\x16\x42\xb7\x26\xb0\x44\x01\x62\x7c\xa9\xfb\xac\x32\xf5\
\xc8\x53\x0f\xb1\x90\x3c\xc4\xdb\x02\x25\x87\x17\x92\x1a\x48\x81\
eee12:meta versioni2e4:name1:f12:piece lengthi16384ee12:piece layersdee";

const MADE: &[Row] = &[
    ((Kind::V2, true, 16384, "a"), "a=abc", ABC),
    ((Kind::V1, true, 16384, "a"), "a=", EMPTY_V1),
    ((Kind::V2, true, 16384, "a"), "a=", EMPTY_V2),
    ((Kind::Hybrid, true, 16384, "a"), "a=", EMPTY_HYBRID),
    ((Kind::V1, false, 16384, "f"), "b=c a=ab", FOLDER_V1),
    ((Kind::Hybrid, false, 16384, "f"), "b=c a=ab", FOLDER_HYBRID),
    ((Kind::Hybrid, false, 16384, "f"), "a=ab b=c", FOLDER_HYBRID),
    ((Kind::V1, false, 16384, "f"), "a-b=x a/c=y", DASH_V1),
    ((Kind::V2, false, 16384, "f"), "a-b=x a/c=y", DASH_V2),
    // Here `.pad` is the name of a file or a folder as any.
    (V2, ".pad/1=x", b"made"),
    (V1, ".pad/1=x", b"made"),
    ((Kind::Hybrid, true, 16384, ".pad"), ".pad=x", b"made"),
];

/// How many bytes a read gives at most.
const STEPS: &[usize] = &[1, 7, 16384];

/// Whether a row holds however many bytes a read gives at most.
fn is_made_in_each_step<R: AllocGlobal + Threads + Sync>(rt: &R, row: &Row) -> bool {
    for step in STEPS {
        if !is_made_in_steps(rt, row, *step) {
            return false;
        }
    }
    true
}

#[test]
fn makes_torrents_of_a_source_however_it_is_read(rt: HostRuntime) {
    for row in MADE {
        assert!(rt; is_made_in_each_step(&rt, row));
    }
}

/// Tells of each file that it has so many bytes, and has none; counts what it is asked.
#[derive(Drop)]
struct Tells {
    length: u64,
    asked: AtomicU64,
}

impl Source for Tells {
    type Fault = u64;

    ghost is_steady = { λ _ _. ⊥ };

    ghost answers = { λ _. any_answers };

    fn length(&self, _file: u64) -> Result<Option<u64>, u64> {
        self.asked.fetch_add(1, SeqCst);
        Ok(Some(self.length))
    }

    fn read_at(&self, _file: u64, _start: u64, _buffer: &mut [u8]) -> Result<usize, u64> {
        self.asked.fetch_add(1, SeqCst);
        Ok(0)
    }
}

/// What is asked for, the files and what is answered; the span and the workers, who stand for each way to share the
/// units if they are allowed; the length that is told of each file, and whether the source is asked.
type Told = (Row, (u32, How), u64, bool);

/// The folder `f`, in pieces of 16,384 bytes.
const V1: Shape = (Kind::V1, false, 16384, "f");

const V2: Shape = (Kind::V2, false, 16384, "f");

const HYBRID: Shape = (Kind::Hybrid, false, 16384, "f");

const SHORT: Shape = (Kind::V2, false, 16383, "f");

const V2_OF_A: Shape = (Kind::V2, true, 16384, "a");

const HYBRID_OF_A: Shape = (Kind::Hybrid, true, 16384, "a");

const REFUSED: &[Told] = &[
    ((SHORT, "a", b"PieceLength"), (1, How::One), 5, false),
    ((SHORT, "a", b"PieceLength"), (3, How::Halves(0)), 5, false),
    ((SHORT, "a", b"PieceLength"), (3, How::Board(65)), 5, false),
    ((V2, "a", b"Workers"), (3, How::Halves(0)), 5, false),
    ((V2, "a", b"Workers"), (3, How::Halves(65)), 5, false),
    ((V2, "a", b"Workers"), (3, How::Board(0)), 5, false),
    ((V2, "a", b"Workers"), (3, How::Board(65)), 5, false),
    ((V2, "a", b"Span"), (3, How::Halves(64)), 5, false),
    ((V2, "a", b"Span"), (2048, How::One), 5, false),
    ((V2_OF_A, "b", b"SingleShape"), (1, How::One), 5, false),
    ((V2, "", b"List(NoFiles)"), (1, How::One), 5, false),
    ((V1, "a a", b"List(Duplicate)"), (1, How::One), 5, false),
    (
        (V1, "a a/b", b"List(FileAndFolder)"),
        (1, How::One),
        5,
        false,
    ),
    ((HYBRID, ".pad/1", b"ReservedPad"), (1, How::One), 5, false),
];

fn is_told<R: AllocGlobal + Threads + Sync>(rt: &R, told: &Told, how: How) -> bool {
    let (row, numbers, length, is_asked) = *told;
    let Ok((mut order, paths)) = asked(rt.alloc(), &row.0, row.1) else {
        return false;
    };
    order.span = numbers.0;
    order.how = how;
    let source = Tells {
        length,
        asked: AtomicU64::new(0),
    };
    let is_answered = is_answer(rt, &source, &paths, &order, row.2);
    is_answered && (source.asked.load(SeqCst) > 0) == is_asked
}

/// Whether a row holds, each way to share the units if that of the row is allowed.
fn is_each_told<R: AllocGlobal + Threads + Sync>(rt: &R, told: &Told) -> bool {
    let (_, (_, how), _, _) = *told;
    if !how.is_allowed() {
        return is_told(rt, told, how);
    }
    for how in EACH_HOW {
        if !is_told(rt, told, *how) {
            return false;
        }
    }
    true
}

/// A request that fails: for the length of a file, or for a byte of it; and the number of the fault.
type Failing = (u64, Option<u64>, u64);

/// Files, two requests that fail, and what is answered.
type Fault = (&'static str, Failing, Failing, &'static [u8]);

const FAULTS: &[Fault] = &[
    (
        "b a=ab",
        (9, None, 1),
        (9, None, 2),
        b"Hashing(Missing { file: 0 })",
    ),
    (
        "b a=ab",
        (1, None, 8),
        (9, None, 2),
        b"Hashing(Missing { file: 0 })",
    ),
    (
        "b=c a=ab",
        (0, Some(0), 1),
        (1, None, 8),
        b"Hashing(Read { file: 1, start: None, fault: 8 })",
    ),
    (
        "b=c a=ab",
        (0, Some(0), 1),
        (1, Some(1), 2),
        b"Hashing(Read { file: 1, start: Some(1), fault: 2 })",
    ),
    (
        "b=cc a=ab",
        (0, Some(1), 5),
        (9, None, 2),
        b"Hashing(Read { file: 0, start: Some(1), fault: 5 })",
    ),
    ("b=cc a=ab", (0, Some(2), 5), (9, None, 2), b"made"),
];

fn failing(alloc: Global, row: &Fault) -> Result<FailSource, AllocError> {
    let faults = Vec::from_slice(alloc, &[row.1, row.2])?;
    Ok(FailSource::new(source(alloc, row.0)?, faults))
}

/// Whether a row holds for a kind, with so many pieces a unit, each way to share the units.
fn is_fault<R: AllocGlobal + Threads + Sync>(rt: &R, row: &Fault, shape: Shape, span: u32) -> bool {
    match failing(rt.alloc(), row) {
        Ok(source) => is_each_made(rt, &source, &(shape, row.0, row.3), span),
        Err(_) => false,
    }
}

/// Two bytes of one unit of four pieces.
const IN_ONE_UNIT: &Fault = &(
    "a=*40000",
    (0, Some(20000), 1),
    (0, Some(17000), 2),
    b"Hashing(Read { file: 0, start: Some(17000), fault: 2 })",
);

/// The length that is told of a file with no bytes, and what is answered.
const LENGTHS: &[Told] = &[
    (
        (HYBRID_OF_A, "a", b"List(TooLarge)"),
        (1, How::Halves(2)),
        (1 << 50) + 1,
        true,
    ),
    (
        (HYBRID_OF_A, "a", b"Hashing(Changed { file: 0 })"),
        (1, How::Halves(2)),
        5,
        true,
    ),
    ((HYBRID_OF_A, "a", b"made"), (1, How::Halves(2)), 0, true),
];

/// What is refused before the source is asked, and once it was.
fn are_told<R: AllocGlobal + Threads + Sync>(rt: &R, rows: &[Told]) -> bool {
    for row in rows {
        if !is_each_told(rt, row) {
            return false;
        }
    }
    true
}

#[test]
fn refuses_orders_and_paths_before_the_source_is_asked(rt: HostRuntime) {
    assert!(rt; are_told(&rt, REFUSED) && are_told(&rt, LENGTHS));
}

/// Files of one byte, of which one is told another length when it is asked again, or has no byte to read.
#[derive(Drop)]
struct Changing {
    file: u64,
    again: Option<u64>,
    asked: AtomicU64,
    has_bytes: bool,
}

impl Source for Changing {
    type Fault = u64;

    ghost is_steady = { λ _ _. ⊥ };

    ghost answers = { λ _. any_answers };

    fn length(&self, file: u64) -> Result<Option<u64>, u64> {
        if file == self.file && self.asked.fetch_add(1, SeqCst) > 0 {
            return Ok(self.again);
        }
        Ok(Some(1))
    }

    fn read_at(&self, file: u64, start: u64, buffer: &mut [u8]) -> Result<usize, u64> {
        if buffer.is_empty() || start > 0 || (file == self.file && !self.has_bytes) {
            return Ok(0);
        }
        Ok(1)
    }
}

/// The file, what it is told to have when it is asked again, whether its byte is there to read, and what is answered.
type Change = (u64, Option<u64>, bool, &'static [u8]);

const CHANGES: &[Change] = &[
    (0, Some(2), true, b"Hashing(Changed { file: 0 })"),
    (1, Some(2), true, b"Hashing(Changed { file: 1 })"),
    (0, Some(1), false, b"Hashing(Changed { file: 0 })"),
    (1, Some(1), false, b"Hashing(Changed { file: 1 })"),
    (0, Some(0), true, b"Hashing(Changed { file: 0 })"),
    // It vanished: that it is missing is answered at the first asking alone.
    (0, None, true, b"Hashing(Changed { file: 0 })"),
    (1, None, true, b"Hashing(Changed { file: 1 })"),
    (1, None, false, b"Hashing(Changed { file: 1 })"),
];

fn is_change<R: AllocGlobal + Threads + Sync>(rt: &R, row: &Change, how: How) -> bool {
    let (file, again, has_bytes, wanted) = *row;
    let Ok((mut order, paths)) = asked(rt.alloc(), &HYBRID, "b a") else {
        return false;
    };
    order.how = how;
    let source = Changing {
        file,
        again,
        asked: AtomicU64::new(0),
        has_bytes,
    };
    is_answer(rt, &source, &paths, &order, wanted)
}

/// Whether a row holds, each way to share the units.
fn is_each_change<R: AllocGlobal + Threads + Sync>(rt: &R, row: &Change) -> bool {
    for how in EACH_HOW {
        if !is_change(rt, row, *how) {
            return false;
        }
    }
    true
}

fn are_changes<R: AllocGlobal + Threads + Sync>(rt: &R) -> bool {
    for row in CHANGES {
        if !is_each_change(rt, row) {
            return false;
        }
    }
    true
}

/// Whether a row holds for each kind, with so many pieces a unit.
fn is_fault_of_each<R: AllocGlobal + Threads + Sync>(rt: &R, row: &Fault, span: u32) -> bool {
    is_fault(rt, row, V1, span) && is_fault(rt, row, V2, span) && is_fault(rt, row, HYBRID, span)
}

fn are_faults<R: AllocGlobal + Threads + Sync>(rt: &R) -> bool {
    for row in FAULTS {
        if !is_fault_of_each(rt, row, 1) {
            return false;
        }
    }
    is_fault_of_each(rt, IN_ONE_UNIT, 4)
}

#[test]
fn tells_faults_under_the_numbers_handed_in(rt: HostRuntime) {
    assert!(rt; are_faults(&rt) && are_changes(&rt));
}
