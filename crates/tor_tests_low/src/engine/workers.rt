//! How many workers read at once. That no more do than were asked for, tests/ways.py sees.
ghost use Rattle.tor_source.specs.Answers.{any_answers};

use crate::engine::shared::{allowed, comes_to, is_fault, is_outcome, plan_of};
use std::process::Abort;
use std::sync::atomic::AtomicU64;
use std::sync::atomic::Ordering::SeqCst;
use std::thread::Threads;
use tor_engine::{How, hash_pieces};
use tor_plan::Plan;
use tor_source::Source;
use tor_tree::Kind;

/// Too few others read.
#[derive(Debug, Drop)]
pub(crate) struct Alone;

/// A file of zeros, whose reads below an offset wait until so many have begun. One that waits begins no other, and so
/// those that meet are of as many workers.
#[derive(Drop)]
pub(crate) struct Meeting {
    length: u64,
    /// Reads from here on wait for no other.
    end: u64,
    many: u64,
    /// How often a read looks for the others.
    turns: u64,
    begun: AtomicU64,
    pub(crate) bytes: AtomicU64,
}

impl Source for Meeting {
    type Fault = Alone;

    ghost is_steady = { λ _ _. ⊥ };

    ghost answers = { λ _. any_answers };

    fn length(&self, _file: u64) -> Result<Option<u64>, Alone> {
        Ok(Some(self.length))
    }

    fn read_at(&self, _file: u64, start: u64, buffer: &mut [u8]) -> Result<usize, Alone> {
        self.bytes.fetch_add(buffer.len() as u64, SeqCst);
        self.begun.fetch_add(1, SeqCst);
        if start >= self.end || comes_to(&self.begun, self.many, self.turns) {
            return Ok(buffer.len());
        }
        Err(Alone)
    }
}

/// A file of so many bytes, whose reads below an offset wait for so many, and look for them so often.
pub(crate) fn reads_that_meet(length: u64, end: u64, many: u64, turns: u64) -> Meeting {
    Meeting {
        length,
        end,
        many,
        turns,
        begun: AtomicU64::new(0),
        bytes: AtomicU64::new(0),
    }
}

/// Whether the fault of its pieces has this text; `none` if they have hashes.
pub(crate) fn is_fault_of_pieces<R: AllocGlobal + Abort + Threads + Sync>(
    rt: &R,
    source: &Meeting,
    plan: &Plan,
    how: How,
    wanted: &str,
) -> bool {
    let made = hash_pieces(rt, rt.alloc(), source, plan, allowed(rt, how));
    is_outcome(rt.alloc(), made, wanted)
}

pub(crate) const ALONE: &str = "Read { file: 0, start: Some(0), fault: Alone }";

/// How often a read looks for others that do not come, and for others that do.
pub(crate) const FEW: u64 = 1000;

pub(crate) const MANY: u64 = 100_000_000;

/// How the units are shared, how many reads wait for one another, how often each looks for the others, and the fault.
pub(crate) type Row = (How, u64, u64, &'static str);

/// A length, an offset, whether its pieces are hashed alone, and rows that hold of such a file.
pub(crate) struct Gathering {
    pub(crate) length: u64,
    pub(crate) end: u64,
    pub(crate) over_pieces: bool,
    pub(crate) rows: &'static [Row],
}

/// Whether reads below the offset meet so, and each byte is read once if they do.
fn is_met<R: AllocGlobal + Abort + Threads + Sync>(
    rt: &R,
    plan: &Plan,
    of: &Gathering,
    row: &Row,
) -> bool {
    let source = reads_that_meet(of.length, of.end, row.1, row.2);
    let is_right = match of.over_pieces {
        true => is_fault_of_pieces(rt, &source, plan, row.0, row.3),
        false => is_fault(rt, &source, plan, row.0, row.3),
    };
    is_right && (row.3 != "none" || source.bytes.load(SeqCst) == of.length)
}

fn are_met<R: AllocGlobal + Abort + Threads + Sync>(rt: &R, plan: &Plan, of: &Gathering) -> bool {
    for row in of.rows {
        if !is_met(rt, plan, of, row) {
            return false;
        }
    }
    true
}

/// Whether they do in each row, if the file has units of one block.
pub(crate) fn meet<R: AllocGlobal + Abort + Threads + Sync>(rt: &R, of: &Gathering) -> bool {
    match plan_of(rt, &[of.length], Kind::V2, 16384, 1) {
        Ok(plan) => plan.units().len() as u64 == of.length / 16384 && are_met(rt, &plan, of),
        Err(_) => false,
    }
}

const MEETINGS: &[Row] = &[
    (How::One, 2, FEW, ALONE),
    (How::Halves(1), 2, FEW, ALONE),
    (How::Halves(2), 3, FEW, ALONE),
    (How::Halves(2), 2, MANY, "none"),
    (How::Halves(3), 3, MANY, "none"),
    (How::Halves(4), 4, MANY, "none"),
    (How::Board(1), 2, FEW, ALONE),
    (How::Board(2), 3, FEW, ALONE),
    (How::Board(2), 2, MANY, "none"),
    (How::Board(4), 4, MANY, "none"),
];

/// All reads of a file of four units meet.
const OF_FOUR: Gathering = Gathering {
    length: 65536,
    end: u64::MAX,
    over_pieces: false,
    rows: MEETINGS,
};

const PIECES_OF_FOUR: Gathering = Gathering {
    length: 65536,
    end: u64::MAX,
    over_pieces: true,
    rows: MEETINGS,
};

#[test]
fn workers_meet(rt: HostRuntime) {
    assert!(rt; meet(&rt, &OF_FOUR) && meet(&rt, &PIECES_OF_FOUR));
}
