//! What sources in memory answer, each called through the trait.
use crate::engine::faults::{FaultAt, failing_with};
use crate::engine::shared::files_with;
use std::alloc::Global;
use tor_source::{ShortSource, Source};

// File 0 has six bytes, file 1 is missing, file 2 is empty.
const FILES: &[Option<&[u8]>] = &[Some(b"abcdef"), None, Some(b"")];

/// The bytes that one read gives.
pub(crate) fn read<'a, S: Source>(
    source: &S,
    file: u64,
    start: u64,
    buffer: &'a mut [u8],
) -> Result<&'a [u8], S::Fault> {
    let count = source.read_at(file, start, buffer)?;
    Ok(&buffer[..count])
}

/// A file, and its length, or the fault of its length.
type Length = (u64, Result<Option<u64>, u64>);

/// File, start, room, at most six bytes, and what a read gives: bytes, or a fault.
type Row = (u64, u64, usize, Result<&'static [u8], u64>);

fn are_told<S: Source<Fault = u64>>(source: &S, rows: &[Length]) -> bool {
    for row in rows {
        if source.length(row.0) != row.1 {
            return false;
        }
    }
    true
}

fn is_read<S: Source<Fault = u64>>(source: &S, row: &Row) -> bool {
    let mut buffer = [0; 6];
    let (buffer, _) = buffer.split_at_mut(row.2.min(6));
    match (read(source, row.0, row.1, buffer), row.3) {
        (Ok(bytes), Ok(wanted)) => bytes == wanted,
        (Err(fault), Err(wanted)) => fault == wanted,
        _ => false,
    }
}

fn are_read<S: Source<Fault = u64>>(source: &S, rows: &[Row]) -> bool {
    for row in rows {
        if !is_read(source, row) {
            return false;
        }
    }
    true
}

const LENGTHS: &[Length] = &[
    (0, Ok(Some(6))),
    (1, Ok(None)),
    (2, Ok(Some(0))),
    (3, Ok(None)),
];

const READS: &[Row] = &[
    (0, 0, 6, Ok(b"abcdef")),
    (0, 1, 3, Ok(b"bcd")),
    (0, 4, 3, Ok(b"ef")),
    (0, 6, 3, Ok(b"")),
    (0, u64::MAX, 3, Ok(b"")),
    (0, 2, 0, Ok(b"")),
    (1, 0, 3, Ok(b"")),
    (2, 0, 3, Ok(b"")),
    (3, 0, 3, Ok(b"")),
];

fn is_memory_right(alloc: Global) -> bool {
    match files_with(alloc, FILES) {
        Ok(source) => are_told(&source, LENGTHS) && are_read(&source, READS),
        Err(_) => false,
    }
}

// Of two faults at one offset the first counts, and none at a byte that the file does not have.
const FAULTS: &[FaultAt] = &[
    (0, Some(4), 1),
    (0, Some(3), 5),
    (0, Some(3), 9),
    (0, Some(6), 7),
    (1, None, 3),
    (1, Some(0), 8),
    (2, None, 4),
    (2, None, 6),
];

const FAULTS_OF_LENGTHS: &[Length] = &[(0, Ok(Some(6))), (1, Err(3)), (2, Err(4)), (3, Ok(None))];

const FAULTS_OF_READS: &[Row] = &[
    (0, 0, 6, Ok(b"abc")),
    (0, 2, 6, Ok(b"c")),
    (0, 3, 6, Err(5)),
    (0, 4, 6, Err(1)),
    (0, 5, 6, Ok(b"f")),
    (0, 6, 6, Ok(b"")),
    (1, 0, 6, Ok(b"")),
    (2, 0, 6, Ok(b"")),
    (3, 0, 6, Ok(b"")),
];

fn are_faults_right(alloc: Global) -> bool {
    match failing_with(alloc, FILES, FAULTS) {
        Ok(source) => are_told(&source, FAULTS_OF_LENGTHS) && are_read(&source, FAULTS_OF_READS),
        Err(_) => false,
    }
}

/// A read gives two bytes at most.
const SHORT: &[Row] = &[
    (0, 0, 6, Ok(b"ab")),
    (0, 3, 6, Ok(b"de")),
    (0, 5, 6, Ok(b"f")),
    (0, 1, 1, Ok(b"b")),
];

fn is_short(source: &ShortSource) -> bool {
    are_told(source, &[(0, Ok(Some(6)))]) && are_read(source, SHORT)
}

fn are_short_reads_right(alloc: Global) -> bool {
    match files_with(alloc, FILES) {
        Ok(source) => is_short(&ShortSource::new(source, 2)),
        Err(_) => false,
    }
}

fn are_all_right(alloc: Global) -> bool {
    is_memory_right(alloc) && are_faults_right(alloc) && are_short_reads_right(alloc)
}

#[test]
fn memory_gives_what_is_there(rt: HostRuntime) {
    assert!(rt; are_all_right(rt.alloc()));
}
