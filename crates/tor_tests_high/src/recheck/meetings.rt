//! Whether the workers of a recheck work at once, and what is asked of a source before they are judged.
ghost use Rattle.tor_source.specs.Answers.{any_answers};

use crate::check::telling::is;
use crate::recheck::rechecks::torrent_of;
use std::sync::atomic::AtomicU64;
use std::sync::atomic::Ordering::SeqCst;
use std::thread::{Threads, yield_now};
use tor_check::Torrent;
use tor_engine::How;
use tor_recheck::recheck;
use tor_source::Source;

/// Too few others read.
#[derive(Debug, Drop)]
struct Alone;

/// A file whose reads wait until so many have begun. These are of as many workers, since one that waits begins no
/// other. Or its first byte alone waits so.
#[derive(Drop)]
struct Meeting {
    length: u64,
    workers: u64,
    /// Whether the other bytes do not wait.
    first_alone: bool,
    /// How often a read looks for the others.
    turns: u64,
    begun: AtomicU64,
    /// How often the length was asked.
    asked: AtomicU64,
}

impl Source for Meeting {
    type Fault = Alone;

    ghost is_steady = { λ _ _. ⊥ };

    ghost answers = { λ _. any_answers };

    fn length(&self, _file: u64) -> Result<Option<u64>, Alone> {
        self.asked.fetch_add(1, SeqCst);
        Ok(Some(self.length))
    }

    fn read_at(&self, _file: u64, start: u64, buffer: &mut [u8]) -> Result<usize, Alone> {
        self.begun.fetch_add(1, SeqCst);
        if self.first_alone && start > 0 {
            return Ok(buffer.len());
        }
        for _ in 0..self.turns {
            if self.begun.load(SeqCst) >= self.workers {
                return Ok(buffer.len());
            }
            yield_now();
        }
        Err(Alone)
    }
}

/// Eight hashes, of no piece.
const EIGHT: &[u8] =
    b"--------------------------------------------------------------------------------\
--------------------------------------------------------------------------------";

/// A torrent of a file of 64 pieces, which are four units.
const OF_FOUR_UNITS: &[&[u8]] = &[
    b"d4:infod6:lengthi64e4:name1:a12:piece lengthi1e6:pieces1280:",
    EIGHT,
    EIGHT,
    EIGHT,
    EIGHT,
    EIGHT,
    EIGHT,
    EIGHT,
    EIGHT,
    b"ee",
];

/// Whether the fault of the recheck has this text; `none` if it has bits.
fn is_fault<T: AllocGlobal + Threads + Sync>(
    rt: &T,
    source: &Meeting,
    torrent: &Torrent,
    how: How,
    wanted: &str,
) -> bool {
    match recheck(rt, rt.alloc(), source, torrent, how) {
        Ok(_) => wanted == "none",
        Err(error) => is(format!(in rt.alloc(); "{error}"), wanted),
    }
}

/// How the units are shared, how many reads wait for one another, how often each looks for the others, the fault, and
/// whether the length is asked.
type Row = (How, u64, u64, &'static str, bool);

/// Whether a row holds of a file of so many bytes, whose first byte alone waits, or each.
fn meets<T: AllocGlobal + Threads + Sync>(
    rt: &T,
    torrent: &Torrent,
    length: u64,
    first_alone: bool,
    row: &Row,
) -> bool {
    let (how, workers, turns, wanted, is_asked) = *row;
    let source = Meeting {
        length,
        workers,
        first_alone,
        turns,
        begun: AtomicU64::new(0),
        asked: AtomicU64::new(0),
    };
    is_fault(rt, &source, torrent, how, wanted) && (source.asked.load(SeqCst) > 0) == is_asked
}

/// Whether each row does, of the torrent that the parts are.
fn each_meets<T: AllocGlobal + Threads + Sync>(
    rt: &T,
    parts: &[&[u8]],
    length: u64,
    first_alone: bool,
    rows: &[Row],
) -> bool {
    let Ok(torrent) = torrent_of(rt.alloc(), parts) else {
        return false;
    };
    for row in rows {
        if !meets(rt, &torrent, length, first_alone, row) {
            return false;
        }
    }
    true
}

const FEW: u64 = 1000;

const MANY: u64 = 10_000_000;

const MEETINGS: &[Row] = &[
    (How::One, 2, FEW, "C1 Read", true),
    (How::Halves(1), 2, FEW, "C1 Read", true),
    (How::Halves(2), 3, FEW, "C1 Read", true),
    (How::Halves(2), 2, MANY, "none", true),
    (How::Halves(64), 2, MANY, "none", true),
    (How::Board(1), 2, FEW, "C1 Read", true),
    (How::Board(2), 2, MANY, "none", true),
    (How::Board(64), 2, MANY, "none", true),
];

/// The first read waits for those of the other three units. If the units are dealt out beforehand, one waits behind the
/// first.
const SHARES: &[Row] = &[
    (How::Halves(2), 4, FEW, "C1 Read", true),
    (How::Board(1), 4, FEW, "C1 Read", true),
    (How::Board(2), 4, MANY, "none", true),
    (How::Board(4), 4, MANY, "none", true),
];

const OUTSIDE: &[Row] = &[
    (How::Halves(0), 1, FEW, "C4 Workers", false),
    (How::Halves(65), 1, FEW, "C4 Workers", false),
    (How::Board(0), 1, FEW, "C4 Workers", false),
    (How::Board(65), 1, FEW, "C4 Workers", false),
];

/// Workers outside are judged before a length is asked.
fn meet<T: AllocGlobal + Threads + Sync>(rt: &T) -> bool {
    each_meets(rt, OF_FOUR_UNITS, 64, false, MEETINGS)
        && each_meets(rt, OF_FOUR_UNITS, 64, true, SHARES)
        && each_meets(rt, OF_FOUR_UNITS, 64, false, OUTSIDE)
}

#[test]
fn recheck_meets(rt: HostRuntime) {
    assert!(rt; meet(&rt));
}
