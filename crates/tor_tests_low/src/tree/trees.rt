//! File trees read of an item (BEP 52, "file tree"), and why it is none. Trees of several files, which are written and
//! read again, are those of `tor join` and `tor check` (tests/paths.py).
use crate::shared::{is_path, is_refusal};
use std::alloc::Global;
use tor_bencode::{Item, decode};
use tor_tree::{TreeFile, from_item};

fn is_refused(alloc: Global, row: &(&[u8], &str)) -> bool {
    match decode(alloc, row.0) {
        Ok(tree) => is_refusal(alloc, from_item(alloc, tree.item()), row.1),
        Err(_) => false,
    }
}

// A tree of one empty file, as its spelling, the path of the file, and whether it has the letters x and h.
type OneFile = (&'static [u8], &'static str, bool, bool);

// Whether these are the one file of a row.
fn is_file(alloc: Global, files: &[TreeFile], row: &OneFile) -> bool {
    match files {
        [file] => {
            file.length == 0
                && file.root.is_none()
                && file.exec == row.2
                && file.hidden == row.3
                && is_path(alloc, &file.path, row.1)
        }
        _ => false,
    }
}

// Whether an item is the tree of that file.
fn is_tree(alloc: Global, item: &Item, row: &OneFile) -> bool {
    match from_item(alloc, item) {
        Ok(files) => is_file(alloc, &files, row),
        Err(_) => false,
    }
}

fn has_one_file(alloc: Global, row: &OneFile) -> bool {
    match decode(alloc, row.0) {
        Ok(tree) => is_tree(alloc, tree.item(), row),
        Err(_) => false,
    }
}

// Trees of one empty file.
const ONE: &[OneFile] = &[
    (b"d1:ad0:d4:attr2:hx6:lengthi0eeee", "a", true, true),
    (b"d1:ade1:bd0:d6:lengthi0eeee", "b", false, false),
];

// A tree as its spelling, and why it is no file tree.
const REFUSED: &[(&[u8], &str)] = &[
    (b"de", "K3 Empty"),
    (b"d1:adee", "K3 Empty"),
    (b"d2:..d0:d6:lengthi0eeee", "K1 Shape"),
    (b"i1e", "K1 Shape"),
    (b"d1:ad0:d6:lengthi-1eeee", "K2 Length"),
    (b"d1:ad0:d6:lengthi1125899906842625eeee", "K4 TooLarge"),
    (b"d1:ad0:d4:attr1:l6:lengthi0eeee", "K5 Symlink"),
    (b"d0:d6:lengthi0eee", "K6 Mixed"),
    (b"d1:ad0:d6:lengthi1eeee", "K7 Root"),
];

fn have_one_file(alloc: Global) -> bool {
    for row in ONE {
        if !has_one_file(alloc, row) {
            return false;
        }
    }
    true
}

fn are_refused(alloc: Global) -> bool {
    for row in REFUSED {
        if !is_refused(alloc, row) {
            return false;
        }
    }
    true
}

#[test]
fn a_tree_has_its_file_or_its_first_fault_is_told(rt: HostRuntime) {
    assert!(rt; have_one_file(rt.alloc()) && are_refused(rt.alloc()));
}
