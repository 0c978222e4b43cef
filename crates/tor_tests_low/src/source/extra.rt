//! What stands below a folder beside given files: files, and links, which `tor recheck --extra` does not tell
//! (tests/looking.py).
use crate::shared::paths_of;
use std::alloc::{AllocError, Global};
use tor_source::{OtherKind, Refusal, Refused, extra_paths};

// The files that were found, one of them padding, and the links.
const TAKEN: &[&str] = &[".pad/5", ".pads", "a", "b", "d/c", "d.e"];

const LINKS: &[&str] = &["l", "m"];

fn add_links(alloc: Global, links: &mut Vec<Refused>) -> Result<(), AllocError> {
    for link in LINKS {
        links.push(Refused {
            path: Vec::from_slice(alloc, link.as_bytes())?,
            refusal: Refusal::NotRegular(OtherKind::Link),
        })?;
    }
    Ok(())
}

// The paths beside those that are known.
fn extra_of(alloc: Global, known: &[&str]) -> Result<Vec<Vec<u8>>, AllocError> {
    let mut links = Vec::new(alloc);
    add_links(alloc, &mut links)?;
    extra_paths(
        alloc,
        &paths_of(alloc, TAKEN)?,
        &links,
        &paths_of(alloc, known)?,
    )
}

fn is_path_at(paths: &[Vec<u8>], index: usize, text: &[u8]) -> bool {
    match paths.get(index) {
        Some(path) => path.as_slice() == text,
        None => false,
    }
}

fn are_paths(paths: &[Vec<u8>], wanted: &[&[u8]]) -> bool {
    for (index, text) in wanted.iter().enumerate() {
        if !is_path_at(paths, index, text) {
            return false;
        }
    }
    paths.len() == wanted.len()
}

// The files that are known, and the paths beside them.
type Row = (&'static [&'static str], &'static [&'static [u8]]);

fn is_extra(alloc: Global, row: &Row) -> bool {
    match extra_of(alloc, row.0) {
        Ok(extra) => are_paths(&extra, row.1),
        Err(_) => false,
    }
}

const ROWS: &[Row] = &[
    (&[], &[b".pads", b"a", b"b", b"d.e", b"d/c", b"l", b"m"]),
    (&["l", "d/c", "n", "a"], &[b".pads", b"b", b"d.e", b"m"]),
    (
        &["m/c", "d"],
        &[b".pads", b"a", b"b", b"d.e", b"d/c", b"l", b"m"],
    ),
    (&["a", "b", "d.e", "d/c", "l", "m", ".pads"], &[]),
];

#[test]
fn tells_what_is_none_of_the_files(rt: HostRuntime) {
    for row in ROWS {
        assert!(rt; is_extra(rt.alloc(), row));
    }
}
