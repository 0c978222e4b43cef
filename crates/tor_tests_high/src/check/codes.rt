//! Lines of errors that the program tells otherwise: want of memory, and the fault of `tor_merkle`.
use crate::check::telling::is_shown;
use std::alloc::{AllocError, Global};
use tor_check::{ProveError, Refusal};

fn are_told(alloc: Global) -> bool {
    let merkle = tor_merkle::ProveError::from(AllocError);
    is_shown(alloc, &ProveError::Memory, "out of memory")
        && is_shown(alloc, &merkle, "out of memory")
        && is_shown(alloc, &Refusal::from(AllocError), "V24 Memory")
        && is_shown(alloc, &tor_merkle::ProveError::Index, "P1 Index")
}

#[test]
fn tells_want_of_memory_and_why_there_is_no_proof(rt: HostRuntime) {
    assert!(rt; are_told(rt.alloc()));
}
