//! What is told of the v1 side: its entries, which no command prints, and where `info` stands.
use crate::check::tables::{ALIGNED, AMONG_EMPTY, BETWEEN, LETTERED, PADDED, Row, Told, ends_of};
use crate::check::telling::add_parts;
use crate::meta::contents::{ABC, FOLDER_V1};
use std::alloc::{AllocError, Global};
use tor_check::{Torrent, validate};
use tor_tree::FilePath;

// Whether these are the names of a path, with slashes between.
fn is_path(path: &FilePath, wanted: &str) -> bool {
    let mut names = path.names().iter();
    for part in wanted.split('/') {
        match names.next() {
            Some(name) if name.as_str() == part => {}
            _ => return false,
        }
    }
    names.next().is_none()
}

// Whether the entry at an index is this.
fn is_entry(torrent: &Torrent, index: usize, wanted: &Told) -> bool {
    match torrent.entries().get(index) {
        Some(entry) => {
            entry.length == wanted.1
                && (entry.pad, entry.exec, entry.hidden) == wanted.2
                && is_path(&entry.path, wanted.0)
        }
        None => false,
    }
}

// Whether these are the entries.
fn are_entries(torrent: &Torrent, wanted: &[Told]) -> bool {
    for (index, told) in wanted.iter().enumerate() {
        if !is_entry(torrent, index, told) {
            return false;
        }
    }
    torrent.entries().len() == wanted.len()
}

fn are_told(alloc: Global, bytes: &[u8], wanted: &[Told]) -> bool {
    match validate(alloc, bytes) {
        Ok(torrent) => are_entries(&torrent, wanted),
        Err(_) => false,
    }
}

fn torrent(alloc: Global, row: &Row) -> Result<Vec<u8>, AllocError> {
    let (front, end) = ends_of(row.0);
    let mut bytes = Vec::from_slice(alloc, front)?;
    add_parts(&mut bytes, row.1)?;
    bytes.extend_from_slice(end)?;
    Ok(bytes)
}

fn is_right(alloc: Global, row: &Row) -> bool {
    match torrent(alloc, row) {
        Ok(bytes) => are_told(alloc, &bytes, row.2),
        Err(_) => false,
    }
}

fn are_right(alloc: Global, rows: &[Row]) -> bool {
    for row in rows {
        if !is_right(alloc, row) {
            return false;
        }
    }
    true
}

fn are_all_right(alloc: Global) -> bool {
    are_right(alloc, PADDED)
        && are_right(alloc, ALIGNED)
        && are_right(alloc, AMONG_EMPTY)
        && are_right(alloc, BETWEEN)
        && are_right(alloc, LETTERED)
}

#[test]
fn tells_the_entries_of_the_v1_side(rt: HostRuntime) {
    assert!(rt; are_all_right(rt.alloc()));
}

// Whether bytes are a torrent whose `info` stands there, with so many bytes of SHA-1.
fn is_described(alloc: Global, bytes: &[u8], info: (usize, usize), sums: usize) -> bool {
    match validate(alloc, bytes) {
        Ok(torrent) => torrent.info_span() == info && torrent.pieces().len() == sums,
        Err(_) => false,
    }
}

fn are_described(alloc: Global) -> bool {
    is_described(alloc, FOLDER_V1, (7, 128), 20) && is_described(alloc, ABC, (7, 140), 0)
}

#[test]
fn tells_where_info_stands(rt: HostRuntime) {
    assert!(rt; are_described(rt.alloc()));
}
