//! Rows of lots that are cut or too long, a file that ends within a lot, and how often lengths are asked for: of the
//! files of three pieces, of none, of two and of one in a hybrid, in units of a piece. What is joined of lots is tried on
//! the built program (`tests/joining.py`).
ghost use Rattle.tor_source.specs.Answers.{any_answers};

use crate::meta::given::{files, source};
use std::alloc::{AllocError, Global};
use std::process::Abort;
use std::sync::atomic::AtomicU64;
use std::sync::atomic::Ordering::SeqCst;
use std::thread::Threads;
use tor_engine::{EngineError, How, PieceRow};
use tor_parts::{has_all_pieces, hash_dealt, hash_own};
use tor_plan::Plan;
use tor_source::Source;
use tor_tree::{FileList, Kind};

const SEVERAL: &str = "a=*40000 b= c=*16385 d=abc";

/// The files of `SEVERAL`, of which the first is a byte shorter.
const SHORTER: &str = "a=*39999 b= c=*16385 d=abc";

fn list_of(alloc: Global, given: &str) -> Result<FileList, AllocError> {
    let mut all = Vec::new(alloc);
    for (path, content) in files(alloc, given)? {
        all.push((path, content.len() as u64))?;
    }
    FileList::build(alloc, all).ok().ok_or(AllocError)
}

/// A plan of pieces of this length, so many a unit, both of which are tested first.
fn plan_of<R: AllocGlobal + Abort>(
    rt: &R,
    piece_length: u64,
    span: u32,
) -> Result<Plan, AllocError> {
    assert!(rt; piece_length.is_power_of_two());
    assert!(rt; piece_length >= 16384 && piece_length <= 1 << 30);
    assert!(rt; span.is_power_of_two() && span >= 1 && span <= 1024);
    let list = list_of(rt.alloc(), SEVERAL)?;
    Plan::new(rt.alloc(), &list, Kind::Hybrid, piece_length, span)
}

fn row_of(alloc: Global, hashes: usize, pieces: usize) -> Result<PieceRow, AllocError> {
    Ok(PieceRow {
        hashes: vec![in alloc; [0; 32]; hashes]?,
        pieces: vec![in alloc; 0; pieces.saturating_mul(20)]?,
    })
}

fn add_rows(
    alloc: Global,
    counts: &[(usize, usize)],
    rows: &mut Vec<PieceRow>,
) -> Result<(), AllocError> {
    for (hashes, pieces) in counts {
        rows.push(row_of(alloc, *hashes, *pieces)?)?;
    }
    Ok(())
}

/// How many Merkle hashes and how many SHA-1s the row of each lot has, and whether these are all.
type Counted = (&'static [(usize, usize)], bool);

const COUNTED: &[Counted] = &[
    (&[(2, 2), (2, 2), (2, 2)], true),
    // A hash less, and one more.
    (&[(1, 2), (2, 2), (2, 2)], false),
    (&[(3, 2), (2, 2), (2, 2)], false),
    // It goes by the counts of all together.
    (&[(1, 3), (3, 2), (2, 1)], true),
    (&[(2, 1), (2, 2), (2, 2)], false),
];

fn is_counted(alloc: Global, plan: &Plan, row: &Counted) -> bool {
    let mut rows = Vec::new(alloc);
    add_rows(alloc, row.0, &mut rows).is_ok() && has_all_pieces(plan, &rows) == row.1
}

fn are_counted<R: AllocGlobal + Abort>(rt: &R) -> bool {
    let Ok(plan) = plan_of(rt, 16384, 1) else {
        return false;
    };
    for row in COUNTED {
        if !is_counted(rt.alloc(), &plan, row) {
            return false;
        }
    }
    true
}

#[test]
fn tells_rows_that_are_cut_or_too_long(rt: HostRuntime) {
    assert!(rt; are_counted(&rt));
}

/// Whether a lot of the longer files is told as changed if they are shorter; else it is hashed.
fn is_changed<R: AllocGlobal + Abort + Threads + Sync>(
    rt: &R,
    lots: u32,
    lot: u32,
) -> Option<bool> {
    let plan = plan_of(rt, 16384, 1).ok()?;
    let source = source(rt.alloc(), SHORTER).ok()?;
    if lot >= lots {
        return None;
    }
    match hash_dealt(rt, rt.alloc(), &source, &plan, lots, lot, How::Board(2)) {
        Ok(_) => Some(false),
        Err(EngineError::Changed { file: 0 }) => Some(true),
        Err(_) => None,
    }
}

fn are_changed<R: AllocGlobal + Abort + Threads + Sync>(rt: &R) -> bool {
    is_changed(rt, 1, 0) == Some(true)
        && is_changed(rt, 3, 0) == Some(false)
        && is_changed(rt, 3, 1) == Some(true)
        && is_changed(rt, 9, 8) == Some(false)
}

#[test]
fn tells_a_file_that_ends_within_a_lot(rt: HostRuntime) {
    assert!(rt; are_changed(&rt));
}

/// The files of `SEVERAL`, of which the last has another length when it is asked for again. It counts how often it is
/// asked for the lengths of the first and of the last.
#[derive(Drop)]
struct Again {
    first: AtomicU64,
    last: AtomicU64,
    again: Option<u64>,
}

impl Source for Again {
    type Fault = u64;

    ghost is_steady = { λ _ _. ⊥ };

    ghost answers = { λ _. any_answers };

    fn length(&self, file: u64) -> Result<Option<u64>, u64> {
        match file {
            0 => {
                self.first.fetch_add(1, SeqCst);
                Ok(Some(40000))
            }
            1 => Ok(Some(0)),
            2 => Ok(Some(16385)),
            _ if self.last.fetch_add(1, SeqCst) > 0 => Ok(self.again),
            _ => Ok(Some(3)),
        }
    }

    fn read_at(&self, file: u64, start: u64, buffer: &mut [u8]) -> Result<usize, u64> {
        let length: u64 = match file {
            0 => 40000,
            2 => 16385,
            3 => 3,
            _ => 0,
        };
        Ok(buffer.len().min(length.saturating_sub(start) as usize))
    }
}

/// Whether the last of three lots, which has no byte of the first file, is hashed, or else the last file was changed;
/// and how often the lengths of the first and the last file were asked for.
fn of_last_lot<R: AllocGlobal + Abort + Threads + Sync>(
    rt: &R,
    again: Option<u64>,
) -> Option<(bool, u64, u64)> {
    let plan = plan_of(rt, 16384, 1).ok()?;
    let source = Again {
        first: AtomicU64::new(0),
        last: AtomicU64::new(0),
        again,
    };
    let is_hashed = match hash_own(rt, rt.alloc(), &source, &plan, 3, 2, How::Board(2)) {
        Ok(_) => true,
        Err(EngineError::Changed { file: 3 }) => false,
        Err(_) => return None,
    };
    Some((
        is_hashed,
        source.first.load(SeqCst),
        source.last.load(SeqCst),
    ))
}

#[test]
fn asks_for_its_own_lengths_twice(rt: HostRuntime) {
    assert!(rt; of_last_lot(&rt, Some(3)) == Some((true, 0, 2)));
    assert!(rt; of_last_lot(&rt, Some(4)) == Some((false, 0, 2)));
    assert!(rt; of_last_lot(&rt, None) == Some((false, 0, 2)));
}
