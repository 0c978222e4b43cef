//! Readers that have as much as may be read, more, or a fault that no input of the program has. Few bytes a read are
//! tried on the program (`tests/made.py`, `tests/streams.py`).
use crate::check::telling::are;
use crate::meta::sources::order;
use std::alloc::{AllocError, Global};
use std::io::{self, Error, ErrorKind, Read};
use std::sync::Wait;
use std::thread::Threads;
use tor_meta::{FromFault, torrent_by_streams};
use tor_source::{InputFault, drop_input, read_limited};
use tor_tree::{Attr, Kind};

// A reader that faults after its bytes.
#[derive(Drop)]
struct Faulting<'a>(&'a [u8]);

impl Read for Faulting<'_> {
    fn read(&mut self, buf: &mut [u8]) -> io::Result<usize> {
        if self.0.is_empty() {
            return Err(Error::from(ErrorKind::Interrupted));
        }
        self.0.read(buf)
    }
}

// Whether five bytes are read where so many may be.
fn are_five_read(alloc: Global) -> bool {
    let mut five: &[u8] = b"abcde";
    are(read_limited(alloc, &mut five, 5), b"abcde")
}

// Whether six are too many.
fn are_six_too_many(alloc: Global) -> bool {
    let mut six: &[u8] = b"abcdef";
    matches!(read_limited(alloc, &mut six, 5), Err(InputFault::TooLong))
}

fn is_fault_told(alloc: Global) -> bool {
    let mut faulting = Faulting(b"abc");
    match read_limited(alloc, &mut faulting, 5) {
        Err(InputFault::Read(fault)) => is_interruption(&fault),
        _ => false,
    }
}

fn is_interruption(fault: &Error) -> bool {
    matches!(fault.kind(), ErrorKind::Interrupted)
}

fn is_all_dropped(alloc: Global) -> bool {
    let mut reader: &[u8] = b"abc";
    drop_input(alloc, &mut reader).is_ok() && reader.is_empty()
}

fn is_limit_kept(alloc: Global) -> bool {
    are_five_read(alloc) && are_six_too_many(alloc) && is_fault_told(alloc) && is_all_dropped(alloc)
}

#[test]
fn reads_up_to_the_limit(rt: HostRuntime) {
    assert!(rt; is_limit_kept(rt.alloc()));
}

// Whether a reader's fault is told if workers are behind it.
fn is_told_behind<T: Threads + Wait + Sync + Send + Clone + Drop + 'static>(
    rt: &T,
    alloc: Global,
) -> Result<bool, AllocError> {
    let order = order(alloc, &(Kind::V2, true, 16384, "a"))?;
    let mut reader = Faulting(b"abc");
    match torrent_by_streams(rt, alloc, &mut reader, &order, Attr::NONE) {
        Err(FromFault::Input(InputFault::Read(fault))) => Ok(is_interruption(&fault)),
        _ => Ok(false),
    }
}

#[test]
fn tells_a_fault_before_workers(rt: HostRuntime) {
    assert!(rt; is_told_behind(&rt, rt.alloc()) == Ok(true));
}
