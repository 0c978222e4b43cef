//! The list of files of version 1, in pieces of lengths that `tor make` refuses. Other lists are those that it writes
//! (tests/paths.py).

use crate::shared::{is_shown, thousand_files};
use std::alloc::{AllocError, Global};
use tor_tree::FileList;
use tor_v1::{Layout, LayoutError, lay_out};

// How many entries a list has.
fn count_of(alloc: Global, list: &FileList, piece_length: u64) -> usize {
    if piece_length == 0 || piece_length > 1 << 30 {
        return 0;
    }
    match lay_out(alloc, list, piece_length, Layout::Aligned) {
        Ok(entries) => entries.len(),
        Err(_) => 0,
    }
}

// Neither the first, which is empty, nor the last has padding.
fn is_thousand_laid_out(alloc: Global) -> bool {
    match thousand_files(alloc, "folder/", 1) {
        Ok(list) => count_of(alloc, &list, 100_000) == 1998 && count_of(alloc, &list, 1) == 1000,
        Err(_) => false,
    }
}

fn is_want_of_memory_told(alloc: Global) -> bool {
    is_shown(alloc, &LayoutError::from(AllocError), "out of memory")
}

#[test]
fn lays_out_a_thousand_files(rt: HostRuntime) {
    assert!(rt; is_thousand_laid_out(rt.alloc()) && is_want_of_memory_told(rt.alloc()));
}
