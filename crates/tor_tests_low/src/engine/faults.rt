//! Which fault is answered: the first of a source, or that of a file that is missing or has changed.
ghost use Rattle.tor_source.specs.Answers.{any_answers};

use crate::engine::shared::{EACH_HOW, files_of, files_with, is_each_fault, is_fault, plan_of};
use std::alloc::{AllocError, Global};
use std::process::Abort;
use std::sync::atomic::AtomicU64;
use std::sync::atomic::Ordering::SeqCst;
use std::thread::Threads;
use tor_engine::How;
use tor_plan::Plan;
use tor_source::{FailSource, Source};
use tor_tree::Kind;

/// A fault of a file: for its length, or at a byte; and its number.
pub(crate) type FaultAt = (u64, Option<u64>, u64);

/// The lengths of files, their faults, and the one that is answered.
type Faults = (&'static [u64], &'static [FaultAt], &'static str);

const FAULTS: &[Faults] = &[
    (
        &[163840],
        &[(0, Some(114688), 9), (0, Some(49157), 5)],
        "Read { file: 0, start: Some(49157), fault: 5 }",
    ),
    (
        &[163840],
        &[(0, Some(163840), 2), (0, Some(163839), 1)],
        "Read { file: 0, start: Some(163839), fault: 1 }",
    ),
    (
        &[163840],
        &[(0, Some(16384), 2), (0, Some(0), 1)],
        "Read { file: 0, start: Some(0), fault: 1 }",
    ),
    (
        &[40000, 40000],
        &[(1, Some(0), 3), (0, Some(39999), 4)],
        "Read { file: 0, start: Some(39999), fault: 4 }",
    ),
    (
        &[40000, 40000],
        &[(1, Some(9152), 7), (1, Some(9151), 6)],
        "Read { file: 1, start: Some(9151), fault: 6 }",
    ),
    (
        &[40000, 40000],
        &[(1, Some(39999), 2)],
        "Read { file: 1, start: Some(39999), fault: 2 }",
    ),
    // All lengths are asked before a byte is read.
    (
        &[40000, 40000],
        &[(0, Some(5), 7), (1, None, 8)],
        "Read { file: 1, start: None, fault: 8 }",
    ),
    (
        &[40000, 40000],
        &[(1, None, 8), (0, None, 7)],
        "Read { file: 0, start: None, fault: 7 }",
    ),
];

/// Files with these lengths, and faults at them.
pub(crate) fn failing(
    alloc: Global,
    lengths: &[u64],
    faults: &[FaultAt],
) -> Result<FailSource, AllocError> {
    let faults = Vec::from_slice(alloc, faults)?;
    Ok(FailSource::new(files_of(alloc, lengths)?, faults))
}

/// Files with these contents, and faults at them.
pub(crate) fn failing_with(
    alloc: Global,
    contents: &[Option<&[u8]>],
    faults: &[FaultAt],
) -> Result<FailSource, AllocError> {
    let faults = Vec::from_slice(alloc, faults)?;
    Ok(FailSource::new(files_with(alloc, contents)?, faults))
}

/// Whether the fault of the planned files is answered, each way to share the units.
fn is_planned_fault<S: Source, R: AllocGlobal + Abort + Threads + Sync>(
    rt: &R,
    source: &S,
    lengths: &[u64],
    kind: Kind,
    wanted: &str,
) -> bool {
    match plan_of(rt, lengths, kind, 16384, 1) {
        Ok(plan) => is_each_fault(rt, source, &plan, wanted),
        Err(_) => false,
    }
}

/// Whether the first fault of a row is answered.
fn is_first_fault<R: AllocGlobal + Abort + Threads + Sync>(
    rt: &R,
    row: &Faults,
    kind: Kind,
) -> bool {
    match failing(rt.alloc(), row.0, row.1) {
        Ok(source) => is_planned_fault(rt, &source, row.0, kind, row.2),
        Err(_) => false,
    }
}

/// A file that others change: how long it is told to be at first, and when it is asked again, and how many bytes it
/// gives; and how often bytes were asked. All other files are empty.
#[derive(Drop)]
pub(crate) struct Changing {
    pub(crate) file: u64,
    pub(crate) first: Result<Option<u64>, u64>,
    pub(crate) again: Option<u64>,
    pub(crate) there: u64,
    pub(crate) lengths: AtomicU64,
    pub(crate) reads: AtomicU64,
}

impl Source for Changing {
    type Fault = u64;

    ghost is_steady = { λ _ _. ⊥ };

    ghost answers = { λ _. any_answers };

    fn length(&self, file: u64) -> Result<Option<u64>, u64> {
        if file != self.file {
            return Ok(Some(0));
        }
        match self.lengths.fetch_add(1, SeqCst) {
            0 => self.first,
            _ => Ok(self.again),
        }
    }

    fn read_at(&self, file: u64, start: u64, buffer: &mut [u8]) -> Result<usize, u64> {
        self.reads.fetch_add(1, SeqCst);
        if file != self.file {
            return Ok(0);
        }
        let left = self.there.saturating_sub(start) as usize;
        Ok(left.min(buffer.len()))
    }
}

pub(crate) fn file_that_changes(
    file: u64,
    first: Result<Option<u64>, u64>,
    again: Option<u64>,
    there: u64,
) -> Changing {
    Changing {
        file,
        first,
        again,
        there,
        lengths: AtomicU64::new(0),
        reads: AtomicU64::new(0),
    }
}

/// The length at first and again, the bytes, the length in the plan, the fault, and how often bytes are read.
type Change = ((Option<u64>, Option<u64>), u64, u64, &'static str, u64);

const CHANGED: &str = "Changed { file: 0 }";

const MISSING: &str = "Missing { file: 0 }";

const CHANGES: &[Change] = &[
    ((Some(40000), Some(40000)), 40000, 40000, "none", 3),
    ((Some(40000), Some(40000)), 40000, 39999, CHANGED, 0),
    ((Some(40000), Some(40000)), 40000, 0, CHANGED, 0),
    ((None, None), 0, 40000, MISSING, 0),
    // It ends before the last byte, and so one read more finds nothing.
    ((Some(40000), Some(40000)), 39999, 40000, CHANGED, 4),
    ((Some(40000), Some(40001)), 40001, 40000, CHANGED, 3),
    ((Some(40000), Some(39999)), 40000, 40000, CHANGED, 3),
    ((Some(40000), None), 40000, 40000, CHANGED, 3),
];

fn is_change<R: AllocGlobal + Abort + Threads + Sync>(
    rt: &R,
    plan: &Plan,
    row: &Change,
    how: How,
) -> bool {
    let ((first, again), there, _, wanted, reads) = *row;
    let source = file_that_changes(0, Ok(first), again, there);
    is_fault(rt, &source, plan, how, wanted) && source.reads.load(SeqCst) == reads
}

/// Whether it is, each way to share the units.
fn is_change_each_way<R: AllocGlobal + Abort + Threads + Sync>(
    rt: &R,
    plan: &Plan,
    row: &Change,
) -> bool {
    for how in EACH_HOW {
        if !is_change(rt, plan, row, *how) {
            return false;
        }
    }
    true
}

fn is_each_change<R: AllocGlobal + Abort + Threads + Sync>(rt: &R, row: &Change) -> bool {
    match plan_of(rt, &[row.2], Kind::V2, 16384, 1) {
        Ok(plan) => is_change_each_way(rt, &plan, row),
        Err(_) => false,
    }
}

/// The files, their lengths in the plan, and the fault.
type Lengths = (
    &'static [Option<&'static [u8]>],
    &'static [u64],
    &'static str,
);

const FIVE: Option<&[u8]> = Some(b"12345");

const SIX: Option<&[u8]> = Some(b"123456");

const SEVEN: Option<&[u8]> = Some(b"1234567");

const LENGTHS: &[Lengths] = &[
    (&[FIVE, SIX, SEVEN], &[5, 7, 8], "Changed { file: 1 }"),
    (&[FIVE, SIX], &[6, 5], "Changed { file: 0 }"),
    (&[FIVE, Some(b"")], &[5, 1], "Changed { file: 1 }"),
    (&[FIVE, None], &[5, 0], "Missing { file: 1 }"),
    (&[FIVE, None], &[6, 0], "Missing { file: 1 }"),
];

/// Whether the fault of a row is answered, and not that of the first byte of its file 0.
fn is_fault_of_lengths<R: AllocGlobal + Abort + Threads + Sync>(rt: &R, row: &Lengths) -> bool {
    match failing_with(rt.alloc(), row.0, &[(0, Some(0), 1)]) {
        Ok(source) => is_planned_fault(rt, &source, row.1, Kind::V2, row.2),
        Err(_) => false,
    }
}

/// Whether the fault of this byte of ten blocks is answered.
fn is_fault_at<R: AllocGlobal + Abort + Threads + Sync>(
    rt: &R,
    source: &FailSource,
    offset: u64,
) -> bool {
    match format!(in rt.alloc(); "Read {{ file: 0, start: Some({offset}), fault: 5 }}") {
        Ok(wanted) => is_planned_fault(rt, source, &[163840], Kind::V2, &wanted),
        Err(_) => false,
    }
}

fn is_answered<R: AllocGlobal + Abort + Threads + Sync>(rt: &R, offset: u64) -> bool {
    match failing(rt.alloc(), &[163840], &[(0, Some(offset), 5)]) {
        Ok(source) => is_fault_at(rt, &source, offset),
        Err(_) => false,
    }
}

/// Whether the first fault of a row is answered for each kind.
fn is_first_of_each<R: AllocGlobal + Abort + Threads + Sync>(rt: &R, row: &Faults) -> bool {
    is_first_fault(rt, row, Kind::V1)
        && is_first_fault(rt, row, Kind::V2)
        && is_first_fault(rt, row, Kind::Hybrid)
}

fn are_first<R: AllocGlobal + Abort + Threads + Sync>(rt: &R) -> bool {
    for row in FAULTS {
        if !is_first_of_each(rt, row) {
            return false;
        }
    }
    true
}

fn are_changes<R: AllocGlobal + Abort + Threads + Sync>(rt: &R) -> bool {
    for row in CHANGES {
        if !is_each_change(rt, row) {
            return false;
        }
    }
    true
}

fn are_of_lengths<R: AllocGlobal + Abort + Threads + Sync>(rt: &R) -> bool {
    for row in LENGTHS {
        if !is_fault_of_lengths(rt, row) {
            return false;
        }
    }
    true
}

fn are_answered<R: AllocGlobal + Abort + Threads + Sync>(rt: &R) -> bool {
    for turn in 0..40u64 {
        if !is_answered(rt, turn.saturating_mul(4096)) {
            return false;
        }
    }
    true
}

fn hold<R: AllocGlobal + Abort + Threads + Sync>(rt: &R) -> bool {
    are_first(rt) && are_changes(rt) && are_of_lengths(rt) && are_answered(rt)
}

#[test]
fn answers_the_first_fault_in_the_order_of_the_plan(rt: HostRuntime) {
    assert!(rt; hold(&rt));
}
