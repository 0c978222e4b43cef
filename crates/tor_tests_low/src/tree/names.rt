//! Names and paths. Other names, and faults of names, are those that `tor make` tells (tests/paths.py).
use crate::shared::{is_equal, is_refusal, is_shown, path};
use std::alloc::{AllocError, Global};
use tor_tree::{FilePath, ListError, Name, NameError, TreeFault, copy_names};

// What no word, and no name of a list, can be, and the first fault of it.
const REFUSED: &[(&[u8], &str)] = &[
    (b"a\0", "N5 Nul"),
    (b"\0/", "N4 Slash"),
    (b"\xff/", "N4 Slash"),
    (b"\xff\0", "N5 Nul"),
];

fn are_refused(alloc: Global) -> bool {
    for row in REFUSED {
        if !is_refusal(alloc, Name::new(alloc, row.0), row.1) {
            return false;
        }
    }
    true
}

// Paths of which each comes before the one beside it.
const ORDERED: &[(&str, &str)] = &[
    ("a/c", "a-b"),
    ("a", "a/b"),
    ("a/b", "a/b/c"),
    ("a/z", "b"),
    ("A", "a"),
];

fn comes_first(alloc: Global, row: &(&str, &str)) -> Result<bool, AllocError> {
    let low = path(alloc, row.0)?;
    let high = path(alloc, row.1)?;
    Ok(low < high && high != low && is_equal(low.copy(alloc), &low))
}

fn are_ordered(alloc: Global) -> bool {
    for row in ORDERED {
        if !matches!(comes_first(alloc, row), Ok(true)) {
            return false;
        }
    }
    true
}

// Whether a copy of the names of `a/c` has two.
fn has_two_names(alloc: Global) -> bool {
    match path(alloc, "a/c") {
        Ok(path) => matches!(copy_names(alloc, path.names()), Ok(names) if names.len() == 2),
        Err(_) => false,
    }
}

fn is_want_of_memory_told(alloc: Global) -> bool {
    is_shown(alloc, &NameError::from(AllocError), "out of memory")
        && is_shown(alloc, &ListError::from(AllocError), "out of memory")
        && is_shown(alloc, &TreeFault::from(AllocError), "out of memory")
}

fn is_no_path(alloc: Global) -> bool {
    FilePath::new(Vec::new(alloc)).is_none()
}

fn hold(alloc: Global) -> bool {
    are_refused(alloc)
        && are_ordered(alloc)
        && has_two_names(alloc)
        && is_no_path(alloc)
        && is_want_of_memory_told(alloc)
}

#[test]
fn names_are_judged_and_paths_ordered_name_by_name(rt: HostRuntime) {
    assert!(rt; hold(rt.alloc()));
}
