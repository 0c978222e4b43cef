//! Plans that are read and written again, spelled by hand (BEP 3, "bencoding"). What is no plan, and what is joined, is
//! tried on the built program (`tests/joining.py`).

use crate::check::telling::are;
use std::alloc::Global;
use tor_meta::{read_plan, write_plan};

/// The plan of the hybrid of several files.
const PLAN: &[u8] = b"d5:filesl1:xi40000e1:a0:i0e1:b0:i16385e1:c2:hxi3e1:de4:kind6:hybrid4:name1:f\
12:piece lengthi16384e4:spani1ee";

/// The same in units of two pieces.
const OTHER: &[u8] = b"d5:filesl1:xi40000e1:a0:i0e1:b0:i16385e1:c2:hxi3e1:de4:kind6:hybrid4:name1:f\
12:piece lengthi16384e4:spani2ee";

/// A tracker, and all flags.
const FLAGS: &[u8] =
    b"d8:announce3:t:/5:filesl0:i0e3:f/ge4:kind2:v14:name1:f12:piece lengthi16384e7:privatei1e\
4:spani1024e4:taili1ee";

fn is_read(alloc: Global, bytes: &[u8]) -> bool {
    match read_plan(alloc, bytes) {
        Ok(plan) => are(write_plan(alloc, plan.listing()), bytes),
        Err(_) => false,
    }
}

fn are_read(alloc: Global) -> bool {
    is_read(alloc, PLAN) && is_read(alloc, OTHER) && is_read(alloc, FLAGS)
}

#[test]
fn reads_plans(rt: HostRuntime) {
    assert!(rt; are_read(rt.alloc()));
}
