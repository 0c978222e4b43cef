//! How many workers hash at once; and the sums of no reader, of which no word of the program tells. Other sums are
//! those that `tor make --how streams` writes (tests/ways.py).
ghost use Rattle.std.specs.Prelude.{◌≤◌};
ghost use Rattle.tor_streams.specs.Streams.{IsStreamCut};

use crate::shared::content;
use std::alloc::{AllocError, Global};
use std::io::{self, Cursor};
use std::process::Abort;
use std::sync::Wait;
use std::sync::atomic::AtomicU64;
use std::sync::atomic::Ordering::SeqCst;
use std::thread::{Threads, yield_now};
use tor_engine::{EngineError, Gate, Sums, hash_streams, hash_streams_with};
use tor_tree::Kind;

/// Holds whoever enters until two have entered, and counts if no other one came.
#[derive(Drop)]
struct Meeting {
    /// How often one that entered looks for the other.
    turns: u64,
    begun: AtomicU64,
    missed: AtomicU64,
    /// The numbers of their units, together.
    units: AtomicU64,
}

impl Gate for Meeting {
    fn enter(&self, unit: u64) {
        self.units.fetch_add(unit, SeqCst);
        self.begun.fetch_add(1, SeqCst);
        for _ in 0..self.turns {
            if self.begun.load(SeqCst) >= 2 {
                return;
            }
            yield_now();
        }
        self.missed.fetch_add(1, SeqCst);
    }
}

/// How the bytes of readers are hashed.
#[derive(Clone, Copy)]
struct Way {
    kind: Kind,
    piece_length: u64,
    span: u32,
    workers: u32,
}

/// A way, whose numbers are tested.
fn allowed<R: Abort>(rt: &R, way: Way) -> Way
    ensures { IsStreamCut result.kind result.piece_length result.span × (1 ≤ result.workers)
        × (result.workers ≤ 64) }
{
    let Way {
        piece_length,
        span,
        workers,
        ..
    } = way;
    if !piece_length.is_power_of_two() || piece_length < 16384 || piece_length > 1 << 30 {
        panic!(rt; "the length of a piece");
    }
    if !span.is_power_of_two() || span < 1 || span > 1024 || span as u64 * piece_length > 1 << 30 {
        panic!(rt; "the span");
    }
    assert!(rt; workers >= 1 && workers <= 64);
    way
}

/// Readers hashed past a gate, in a way whose numbers are tested first.
fn hash_past<R: AllocGlobal + Abort + Threads + Wait + Sync>(
    rt: &R,
    gate: &Meeting,
    readers: Vec<Cursor<Vec<u8>>>,
    way: Way,
) -> Result<Sums, EngineError<io::Error>> {
    let Way {
        kind,
        piece_length,
        span,
        workers,
    } = allowed(rt, way);
    hash_streams_with(
        gate,
        rt,
        rt.alloc(),
        readers,
        kind,
        piece_length,
        span,
        workers,
        false,
    )
}

/// Whether so many of those that entered met nobody, and four entered, with the units 0 to 3.
fn are_missed<R: AllocGlobal + Abort + Threads + Wait + Sync>(
    rt: &R,
    readers: Vec<Cursor<Vec<u8>>>,
    workers: u32,
    turns: u64,
    missed: u64,
) -> bool {
    let gate = Meeting {
        turns,
        begun: AtomicU64::new(0),
        missed: AtomicU64::new(0),
        units: AtomicU64::new(0),
    };
    let way = Way {
        kind: Kind::V2,
        piece_length: 16384,
        span: 1,
        workers,
    };
    hash_past(rt, &gate, readers, way).is_ok()
        && gate.missed.load(SeqCst) == missed
        && gate.begun.load(SeqCst) == 4
        && gate.units.load(SeqCst) == 6
}

/// A reader of four blocks.
fn reader(alloc: Global) -> Result<Vec<Cursor<Vec<u8>>>, AllocError> {
    let bytes = content(alloc, 65536)?;
    Ok(vec![in alloc; Cursor::new(bytes)]?)
}

/// Whether they did over the four units of a reader.
fn meet<R: AllocGlobal + Abort + Threads + Wait + Sync>(
    rt: &R,
    workers: u32,
    turns: u64,
    missed: u64,
) -> bool {
    match reader(rt.alloc()) {
        Ok(readers) => are_missed(rt, readers, workers, turns, missed),
        Err(_) => false,
    }
}

fn are_none(sums: &Sums) -> bool {
    sums.pieces.is_empty()
        && sums.lengths.is_empty()
        && sums.roots.is_empty()
        && sums.layers.is_empty()
}

/// Whether no reader has no sum.
fn has_no_sum<R: AllocGlobal + Abort + Threads + Wait + Sync>(
    rt: &R,
    workers: u32,
    tail: bool,
) -> bool {
    let way = Way {
        kind: Kind::Hybrid,
        piece_length: 16384,
        span: 1,
        workers,
    };
    let Way {
        kind,
        piece_length,
        span,
        workers,
    } = allowed(rt, way);
    let readers: Vec<Cursor<Vec<u8>>> = Vec::new(rt.alloc());
    match hash_streams(
        rt,
        rt.alloc(),
        readers,
        kind,
        piece_length,
        span,
        workers,
        tail,
    ) {
        Ok(sums) => are_none(&sums),
        Err(_) => false,
    }
}

const WORKERS: &[u32] = &[1, 2, 64];

/// Two meet. One meets nobody: its first unit waits in vain; once the second is begun, two have been.
fn meet_or_miss<R: AllocGlobal + Abort + Threads + Wait + Sync>(rt: &R) -> bool {
    meet(rt, 2, 10_000_000, 0) && meet(rt, 1, 1000, 1)
}

#[test]
fn streams_meet(rt: HostRuntime) {
    assert!(rt; meet_or_miss(&rt));
}

fn have_no_sum<R: AllocGlobal + Abort + Threads + Wait + Sync>(rt: &R) -> bool {
    for workers in WORKERS {
        if !has_no_sum(rt, *workers, false) || !has_no_sum(rt, *workers, true) {
            return false;
        }
    }
    true
}

#[test]
fn no_reader_has_no_sum(rt: HostRuntime) {
    assert!(rt; have_no_sum(&rt));
}
