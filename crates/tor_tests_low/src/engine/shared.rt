//! What the tests share: plans, how files are hashed, and how a read waits for others.
ghost use Rattle.tor_sums.specs.How.{IsHow};

use crate::shared::{self, content, is};
use std::alloc::{AllocError, Global};
use std::fmt::Debug;
use std::process::Abort;
use std::sync::atomic::AtomicU64;
use std::sync::atomic::Ordering::SeqCst;
use std::thread::{Threads, yield_now};
use tor_engine::{EngineError, How, Sums, hash_all};
use tor_plan::Plan;
use tor_source::{MemSource, Source};
use tor_tree::{FileList, Kind};

/// Each way to share the units.
pub(crate) const EACH_HOW: &[How] = &[
    How::One,
    How::Halves(1),
    How::Halves(2),
    How::Halves(64),
    How::Board(1),
    How::Board(2),
    How::Board(64),
];

/// Files with these lengths, of which no table has more. That they make no list is told as want of memory.
fn list_of(alloc: Global, lengths: &[u64]) -> Result<FileList, AllocError> {
    match lengths {
        [a] => shared::list_of(alloc, &[("000", *a)]),
        [a, b] => shared::list_of(alloc, &[("000", *a), ("001", *b)]),
        [a, b, c] => shared::list_of(alloc, &[("000", *a), ("001", *b), ("002", *c)]),
        _ => Err(AllocError),
    }
}

/// A plan of files with these lengths.
pub(crate) fn plan_of<R: AllocGlobal>(
    rt: &R,
    lengths: &[u64],
    kind: Kind,
    piece_length: u64,
    span: u32,
) -> Result<Plan, AllocError> {
    let list = list_of(rt.alloc(), lengths)?;
    shared::plan_of(rt.alloc(), &list, kind, piece_length, span)
}

fn add_contents(
    alloc: Global,
    lengths: &[u64],
    files: &mut Vec<Option<Vec<u8>>>,
) -> Result<(), AllocError> {
    for length in lengths {
        files.push(Some(content(alloc, *length as usize)?))?;
    }
    Ok(())
}

/// Files of such contents, with these lengths.
pub(crate) fn files_of(alloc: Global, lengths: &[u64]) -> Result<MemSource, AllocError> {
    let mut files = Vec::new(alloc);
    add_contents(alloc, lengths, &mut files)?;
    Ok(MemSource::new(files))
}

fn add_given(
    alloc: Global,
    contents: &[Option<&[u8]>],
    files: &mut Vec<Option<Vec<u8>>>,
) -> Result<(), AllocError> {
    for content in contents {
        files.push(match content {
            Some(bytes) => Some(Vec::from_slice(alloc, bytes)?),
            None => None,
        })?;
    }
    Ok(())
}

/// Files of these contents; None stands for a missing one.
pub(crate) fn files_with(
    alloc: Global,
    contents: &[Option<&[u8]>],
) -> Result<MemSource, AllocError> {
    let mut files = Vec::new(alloc);
    add_given(alloc, contents, &mut files)?;
    Ok(MemSource::new(files))
}

/// A number of workers, which is tested.
pub(crate) fn allowed<R: Abort>(rt: &R, how: How) -> How
    ensures { IsHow result }
{
    assert!(rt; how.is_allowed());
    how
}

/// All files hashed, by a number of workers that is tested first.
pub(crate) fn hash_by<S: Source, R: AllocGlobal + Abort + Threads + Sync>(
    rt: &R,
    source: &S,
    plan: &Plan,
    how: How,
) -> Result<Sums, EngineError<S::Fault>> {
    hash_all(rt, rt.alloc(), source, plan, allowed(rt, how))
}

/// Whether a fault has this text.
pub(crate) fn is_told<F: Debug>(alloc: Global, fault: &EngineError<F>, wanted: &str) -> bool {
    is(format!(in alloc; "{fault:?}"), wanted)
}

/// Whether this was made, if `none` is wanted, or the fault has this text.
pub(crate) fn is_outcome<T: Drop, F: Debug + Drop>(
    alloc: Global,
    made: Result<T, EngineError<F>>,
    wanted: &str,
) -> bool {
    match made {
        Ok(_) => wanted == "none",
        Err(fault) => is_told(alloc, &fault, wanted),
    }
}

/// Whether the fault of the files has this text; `none` if they have sums.
pub(crate) fn is_fault<S: Source, R: AllocGlobal + Abort + Threads + Sync>(
    rt: &R,
    source: &S,
    plan: &Plan,
    how: How,
    wanted: &str,
) -> bool {
    is_outcome(rt.alloc(), hash_by(rt, source, plan, how), wanted)
}

/// Whether it is, each way to share the units.
pub(crate) fn is_each_fault<S: Source, R: AllocGlobal + Abort + Threads + Sync>(
    rt: &R,
    source: &S,
    plan: &Plan,
    wanted: &str,
) -> bool {
    for how in EACH_HOW {
        if !is_fault(rt, source, plan, *how, wanted) {
            return false;
        }
    }
    true
}

/// Whether a count comes to so many, if it is looked at so often.
pub(crate) fn comes_to(count: &AtomicU64, many: u64, turns: u64) -> bool {
    for _ in 0..turns {
        if count.load(SeqCst) >= many {
            return true;
        }
        yield_now();
    }
    false
}
