//! That as many workers hash as an order asks for.
ghost use Rattle.tor_source.specs.Answers.{any_answers};

use crate::meta::sources::asked;
use std::sync::atomic::AtomicU64;
use std::sync::atomic::Ordering::SeqCst;
use std::thread::{Threads, yield_now};
use tor_engine::How;
use tor_meta::make;
use tor_source::Source;
use tor_tree::Kind;

/// No other read came.
#[derive(Debug, Drop)]
struct Alone;

/// A file of 64 KiB, whose first read waits until so many have begun, itself among them: the others are of another
/// worker.
#[derive(Drop)]
struct Meeting {
    reads: u64,
    /// How often the first read looks for the others.
    turns: u64,
    begun: AtomicU64,
}

impl Source for Meeting {
    type Fault = Alone;

    ghost is_steady = { λ _ _. ⊥ };

    ghost answers = { λ _. any_answers };

    fn length(&self, _file: u64) -> Result<Option<u64>, Alone> {
        Ok(Some(65536))
    }

    fn read_at(&self, _file: u64, _start: u64, buffer: &mut [u8]) -> Result<usize, Alone> {
        if self.begun.fetch_add(1, SeqCst) > 0 {
            return Ok(buffer.len());
        }
        for _ in 0..self.turns {
            if self.begun.load(SeqCst) >= self.reads {
                return Ok(buffer.len());
            }
            yield_now();
        }
        Err(Alone)
    }
}

/// The workers, how many of the four reads have to begin, how often the first looks for the others, and whether they
/// come. If the units are dealt out beforehand, one waits behind the first.
type Row = (How, u64, u64, bool);

const MEETINGS: &[Row] = &[
    (How::One, 2, 1000, false),
    (How::Halves(1), 2, 1000, false),
    (How::Halves(2), 2, 10_000_000, true),
    (How::Halves(2), 4, 1000, false),
    (How::Board(2), 2, 10_000_000, true),
    (How::Board(2), 4, 10_000_000, true),
];

/// Whether a row holds.
fn meet<R: AllocGlobal + Threads + Sync>(rt: &R, row: &Row) -> bool {
    let (how, reads, turns, wanted) = *row;
    let Ok((mut order, paths)) = asked(rt.alloc(), &(Kind::V2, true, 16384, "a"), "a") else {
        return false;
    };
    order.how = how;
    let source = Meeting {
        reads,
        turns,
        begun: AtomicU64::new(0),
    };
    make(rt, rt.alloc(), &source, &paths, &order).is_ok() == wanted
}

#[test]
fn workers_of_an_order_meet(rt: HostRuntime) {
    for row in MEETINGS {
        assert!(rt; meet(&rt, row));
    }
}
