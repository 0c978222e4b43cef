//! Lists of files and of paths as no word of the program hands them in: with letters, and in any order. Other lists,
//! and why there is none, are those that `tor make` tells (tests/paths.py).
use crate::shared::{self, Files, is_path, is_refusal, path, paths_of};
use std::alloc::{AllocError, Global};
use tor_merkle::MAX_LENGTH;
use tor_tree::{Attr, FileList, FilePath, ListError, PathList};

const NONE: Attr = Attr::NONE;

const EXEC: Attr = Attr {
    exec: true,
    hidden: false,
};

const HIDDEN: Attr = Attr {
    exec: false,
    hidden: true,
};

const BOTH: Attr = Attr {
    exec: true,
    hidden: true,
};

// The path of a file, its length and its letters.
type Row = (&'static str, u64, Attr);

fn add_rows(
    alloc: Global,
    rows: &[Row],
    files: &mut Vec<(FilePath, u64, Attr)>,
) -> Result<(), AllocError> {
    for (text, length, attr) in rows {
        files.push((path(alloc, text)?, *length, *attr))?;
    }
    Ok(())
}

fn list_of(alloc: Global, rows: &[Row]) -> Result<FileList, ListError> {
    let mut files = Vec::new(alloc);
    add_rows(alloc, rows, &mut files)?;
    FileList::build_with(alloc, files)
}

// Whether a file of a list is that of a row, letters and all.
fn is_row(alloc: Global, list: &FileList, index: usize, row: &Row) -> bool {
    if index >= list.files().len() {
        return false;
    }
    let (file, length) = &list.files()[index];
    is_path(alloc, file, row.0) && *length == row.1 && list.attr(index) == row.2
}

fn are_rows(alloc: Global, list: &FileList, rows: &[Row]) -> bool {
    for (index, row) in rows.iter().enumerate() {
        if !is_row(alloc, list, index, row) {
            return false;
        }
    }
    list.files().len() == rows.len()
}

// Files in no order, some of them under long paths, and in the order of their paths.
const SORTED: &[(&[Row], &[Row])] = &[
    (
        &[("b", 0, EXEC), ("a-b", 0, NONE), ("a/c", 0, BOTH)],
        &[("a/c", 0, BOTH), ("a-b", 0, NONE), ("b", 0, EXEC)],
    ),
    (
        &[
            ("z", 9, HIDDEN),
            ("m/n/o/p/q/r/s/t/u/v/w/x/y/z", MAX_LENGTH, EXEC),
            ("a", 0, NONE),
            ("m/n/o/p/q/r/s/t/u/v/w/x/y/a", 3, BOTH),
            ("a b/c", 16384, BOTH),
            (LONG_PATH, 7, EXEC),
            ("b", 1, EXEC),
            ("y", 5, NONE),
            ("c", 1, HIDDEN),
        ],
        &[
            ("a", 0, NONE),
            ("a b/c", 16384, BOTH),
            ("b", 1, EXEC),
            ("c", 1, HIDDEN),
            (LONG_PATH, 7, EXEC),
            ("m/n/o/p/q/r/s/t/u/v/w/x/y/a", 3, BOTH),
            ("m/n/o/p/q/r/s/t/u/v/w/x/y/z", MAX_LENGTH, EXEC),
            ("y", 5, NONE),
            ("z", 9, HIDDEN),
        ],
    ),
];

const LONG_PATH: &str = "m/0123456789012345678901234567890123456789012345678901234567890123456789";

fn is_sorted(alloc: Global, rows: &[Row], sorted: &[Row]) -> bool {
    match list_of(alloc, rows) {
        Ok(list) => are_rows(alloc, &list, sorted),
        Err(_) => false,
    }
}

fn are_sorted(alloc: Global) -> bool {
    for row in SORTED {
        if !is_sorted(alloc, row.0, row.1) {
            return false;
        }
    }
    true
}

// Files with letters, and why they are no list.
const REFUSED: &[(&[Row], &str)] = &[
    (&[], "L4 NoFiles"),
    (&[("a", 0, EXEC), ("a", 0, HIDDEN)], "L1 Duplicate"),
    (
        &[
            ("e", 1, EXEC),
            ("d", MAX_LENGTH + 1, EXEC),
            ("b/a", 1, EXEC),
            ("b", 1, BOTH),
            ("e", 1, EXEC),
        ],
        "L1 Duplicate",
    ),
    (
        &[
            ("d", MAX_LENGTH + 1, EXEC),
            ("b/a", 1, EXEC),
            ("c", 1, EXEC),
            ("b", 1, BOTH),
        ],
        "L2 FileAndFolder",
    ),
    (
        &[
            ("d", 1, EXEC),
            ("c", 1, EXEC),
            ("b", MAX_LENGTH + 1, BOTH),
            ("a", 1, EXEC),
        ],
        "L3 TooLarge",
    ),
];

fn are_refused(alloc: Global) -> bool {
    for row in REFUSED {
        if !is_refusal(alloc, list_of(alloc, row.0), row.1) {
            return false;
        }
    }
    true
}

// Two orders of the same files.
const ORDERS: &[Files] = &[
    &[("a-b", 1), ("a/c", 2), ("b", 0)],
    &[("b", 0), ("a/c", 2), ("a-b", 1)],
];

const IN_ORDER: &[Row] = &[("a/c", 2, NONE), ("a-b", 1, NONE), ("b", 0, NONE)];

fn is_in_order(alloc: Global, files: Files) -> bool {
    match shared::list_of(alloc, files) {
        Ok(list) => are_rows(alloc, &list, IN_ORDER),
        Err(_) => false,
    }
}

fn are_in_order(alloc: Global) -> bool {
    for files in ORDERS {
        if !is_in_order(alloc, files) {
            return false;
        }
    }
    true
}

// A list of the paths `b`, `a-b` and `a/c`.
fn three(alloc: Global) -> Result<PathList, ListError> {
    PathList::build(alloc, paths_of(alloc, &["b", "a-b", "a/c"])?)
}

// Whether an entry is this path, handed in at this index.
fn is_entry(alloc: Global, entry: &(FilePath, usize), text: &str, index: usize) -> bool {
    is_path(alloc, &entry.0, text) && entry.1 == index
}

fn are_entries(alloc: Global, list: &PathList) -> bool {
    match list.entries() {
        [first, second, third] => {
            is_entry(alloc, first, "a/c", 2)
                && is_entry(alloc, second, "a-b", 1)
                && is_entry(alloc, third, "b", 0)
        }
        _ => false,
    }
}

// Whether these are the files of the list of three with lengths, and where each was handed in.
fn are_longer(alloc: Global, files: &FileList, indices: &[usize]) -> bool {
    indices == [2, 1, 0].as_slice() && are_rows(alloc, files, LONGER)
}

// Whether the list of three takes these lengths.
fn takes_lengths(alloc: Global, list: PathList) -> bool {
    if list.entries().len() != 3 {
        return false;
    }
    match list.with_lengths(alloc, &[7, 0, 5]) {
        Ok((files, indices)) => are_longer(alloc, &files, &indices),
        Err(_) => false,
    }
}

const LONGER: &[Row] = &[("a/c", 5, NONE), ("a-b", 0, NONE), ("b", 7, NONE)];

// Whether paths keep where they were handed in.
fn are_paths_kept(alloc: Global) -> bool {
    match three(alloc) {
        Ok(list) => are_entries(alloc, &list) && takes_lengths(alloc, list),
        Err(_) => false,
    }
}

fn hold(alloc: Global) -> bool {
    are_sorted(alloc) && are_refused(alloc) && are_in_order(alloc) && are_paths_kept(alloc)
}

#[test]
fn lists_are_in_order_or_their_first_fault_is_told(rt: HostRuntime) {
    assert!(rt; hold(rt.alloc()));
}
