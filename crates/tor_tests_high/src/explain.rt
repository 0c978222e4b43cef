//! The tests of `tor_explain`: texts that no command tells. Others are in `tests/reasons.py` and
//! `tests/scenes/explain.txt`.
use crate::check::telling::is;
use std::alloc::Global;
use tor_check::Refusal;
use tor_explain::{refusal_text, sums_text, tree_text};
use tor_sums::EngineError;
use tor_tree::TreeFault;

/// Torrents, why they are refused, and what that means. There is no place in the bytes.
const REFUSED: &[(&[u8], Refusal, &str)] = &[
    (
        b"d4:infodee",
        Refusal::Memory,
        "memory or a thread was refused: try again with fewer workers",
    ),
    (
        b"d4:infod6:lengthi1eee",
        Refusal::FileShape,
        "what describes a file has not its shape",
    ),
    (b"", Refusal::RootShape, "the root is no dictionary"),
];

fn are_refusals_told(alloc: Global) -> bool {
    for row in REFUSED {
        if !is(refusal_text(alloc, row.0, &row.1), row.2) {
            return false;
        }
    }
    is(
        tree_text(alloc, &TreeFault::Length),
        "a length in the file tree is below 0",
    )
}

#[test]
fn tells_what_codes_mean(rt: HostRuntime) {
    assert!(rt; are_refusals_told(rt.alloc()));
}

/// Why files have no sums, and what that means.
const WITHOUT_SUMS: &[(EngineError<bool>, &str)] = &[
    (
        EngineError::Changed { file: 7 },
        "file 7: it changed while it was read, or another stands in its place: try again when none writes to it",
    ),
    (
        EngineError::Read {
            file: 0,
            start: Some(49157),
            fault: true,
        },
        "file 0: it cannot be read from byte 49157 on: look at its rights, and at the disk",
    ),
];

fn are_files_told(alloc: Global) -> bool {
    for row in WITHOUT_SUMS {
        if !is(sums_text(alloc, &row.0), row.1) {
            return false;
        }
    }
    true
}

#[test]
fn tells_of_which_file_there_are_no_sums(rt: HostRuntime) {
    assert!(rt; are_files_told(rt.alloc()));
}
