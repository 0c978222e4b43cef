//! Files in memory, of which some lengths and some bytes fail.
ghost use Rattle.std.specs.Prelude.{◌≡◌, ◌<◌, ◌≤◌, ℕ, false, None, Some};
ghost use Rattle.tor_source.specs.Answers.{answers_of};
ghost use Rattle.tor_source.specs.Sources.{fail_facts, first_fault, is_at};

use crate::memory::MemSource;
use crate::source::Source;
use std::marker::Model;

/// Files in memory, and faults at them: each is a file, an offset and a number. The offset is that of a byte, or None
/// for the length. Of two faults at one offset the first counts; one at a byte that the file does not have counts for
/// nothing. Contracts see the files and the faults.
#[derive(Drop)]
pub struct FailSource {
    files: MemSource,
    faults: Vec<(u64, Option<u64>, u64)>,
}

impl Model for FailSource {
    ghost use Rattle.tor_source.specs.Sources.{FailingFiles};

    ghost Value = { FailingFiles };

    ghost view = { λ source. record { files = source.files; faults = source.faults.items } };
}

impl FailSource {
    /// These files, with these faults.
    pub fn new(files: MemSource, faults: Vec<(u64, Option<u64>, u64)>) -> FailSource
        ensures files { result.files ≡ files }
        ensures faults { result.faults ≡ faults.items }
    {
        FailSource { files, faults }
    }
}

impl Source for FailSource {
    type Fault = u64;

    ghost is_steady = { λ source facts. facts ≡ fail_facts source };

    ghost answers = { λ source. answers_of (fail_facts source) };

    fn length(&self, file: u64) -> Result<Option<u64>, u64> {
        match first_fault(&self.faults, file, None) {
            Some(fault) => Err(fault),
            None => self.files.length(file),
        }
    }

    fn read_at(&self, file: u64, start: u64, buffer: &mut [u8]) -> Result<usize, u64> {
        let end = match self.files.content(file) {
            Some(bytes) => bytes.len() as u64,
            None => 0,
        };
        if start >= end {
            return Ok(0);
        }
        if let Some(fault) = first_fault(&self.faults, file, Some(start)) {
            return Err(fault);
        }
        let next = next_fault(&self.faults, file, start, end);
        let most = (next - start) as usize;
        Ok(self.files.read_most(file, start, most, buffer))
    }
}

// The number of the first fault at an offset.
fn first_fault(faults: &[(u64, Option<u64>, u64)], file: u64, offset: Option<u64>) -> Option<u64>
    ensures { result ≡ first_fault faults.now file offset }
{
    let fault = faults.iter().find(|fault| is_at(fault, file, offset))?;
    Some(fault.2)
}

// Whether the fault is at this offset.
fn is_at(fault: &(u64, Option<u64>, u64), file: u64, offset: Option<u64>) -> bool
    ensures { result ≡ is_at file offset fault.now }
{
    fault.0 == file && fault.1 == offset
}

// The first byte after `start` and before `end` at which there is a fault, or `end` if there is none.
fn next_fault(faults: &[(u64, Option<u64>, u64)], file: u64, start: u64, end: u64) -> u64
    requires { start < end }
    ensures after { start < result }
    ensures within { result ≤ end }
    ensures none_between { (k : ℕ) → start < k → k < result → first_fault faults.now file (Some k) ≡ None }
{
    let mut next = end;
    'faults: for fault in faults {
        next = nearer(fault, file, start, next);
    }
    next
}

// The byte of this fault if it is after `start` and before `next`, or else `next`.
fn nearer(fault: &(u64, Option<u64>, u64), file: u64, start: u64, next: u64) -> u64
    requires { start < next }
    ensures after { start < result }
    ensures within { result ≤ next }
    ensures not_between { (k : ℕ) → start < k → k < result → is_at file (Some k) fault.now ≡ false }
{
    match fault.1 {
        Some(offset) if fault.0 == file && start < offset && offset < next => offset,
        _ => next,
    }
}
