//! Torrents of files with letters (BEP 47, "attr") that are not handed in in order, worked out by hand; each hash in
//! hexadecimal is of Python's hashlib. Those of folders, readers and inputs are in `tests/scenes/make-letters.txt`.

use crate::check::telling::are;
use crate::meta::given::{Row, Shape, paths, source};
use crate::meta::sources::order;
use std::alloc::{AllocError, Global};
use std::thread::Threads;
use tor_engine::How;
use tor_meta::{Order, make_with};
use tor_source::MemSource;
use tor_tree::{Attr, FilePath, Kind};

const EXEC: Attr = Attr {
    exec: true,
    hidden: false,
};

const BOTH: Attr = Attr {
    exec: true,
    hidden: true,
};

const FOLDER_V1: &[u8] =
    b"d4:infod5:filesld4:attr2:hx6:lengthi2e4:pathl1:aeed6:lengthi1e4:pathl1:beee\
4:name1:f12:piece lengthi16384e6:pieces20:\
\xa9\x99\x3e\x36\x47\x06\x81\x6a\xba\x3e\x25\x71\x78\x50\xc2\x6c\x9c\xd0\xd8\x9dee";

const FOLDER_HYBRID: &[u8] = b"d4:infod9:file treed1:ad0:d6:lengthi2e11:pieces root32:\
\xfb\x8e\x20\xfc\x2e\x4c\x3f\x24\x8c\x60\xc3\x9b\xd6\x52\xf3\xc1\
\x34\x72\x98\xbb\x97\x7b\x8b\x4d\x59\x03\xb8\x50\x55\x62\x06\x03\
ee1:bd0:d4:attr1:x6:lengthi1e11:pieces root32:\
\x2e\x7d\x2c\x03\xa9\x50\x7a\xe2\x65\xec\xf5\xb5\x35\x68\x85\xa5\
\x33\x93\xa2\x02\x9d\x24\x13\x94\x99\x72\x65\xa1\xa2\x5a\xef\xc6\
eee5:filesld6:lengthi2e4:pathl1:aeed4:attr1:p6:lengthi16382e4:pathl4:.pad5:16382ee\
d4:attr1:x6:lengthi1e4:pathl1:beee12:meta versioni2e4:name1:f12:piece lengthi16384e6:pieces40:\
\xcb\x25\xce\xe0\xc9\xee\x3f\xc5\x74\x13\xe4\x72\xac\xdb\x19\x13\x86\xed\xb6\x12\
\x84\xa5\x16\x84\x1b\xa7\x7a\x5b\x46\x48\xde\x2c\xd0\xdf\xcb\x30\xea\x46\xdb\xb4\
e12:piece layersdee";

/// A row, and the letters of its files.
type Lettered = (Row, &'static [Attr]);

const V1: Shape = (Kind::V1, false, 16384, "f");

const HYBRID: Shape = (Kind::Hybrid, false, 16384, "f");

/// Files that are not handed in in the order of their paths.
const TURNED: &[Lettered] = &[
    ((V1, "b=c a=ab", FOLDER_V1), &[Attr::NONE, BOTH]),
    ((HYBRID, "b=c a=ab", FOLDER_HYBRID), &[EXEC, Attr::NONE]),
];

const EACH_HOW: &[How] = &[How::One, How::Halves(2), How::Board(2)];

fn files(alloc: Global, row: &Lettered) -> Result<Vec<(FilePath, Attr)>, AllocError> {
    let attrs = Vec::from_slice(alloc, row.1)?;
    paths(alloc, row.0.1)?.into_iter().zip(attrs).collect(alloc)
}

fn order_of(alloc: Global, shape: &Shape, how: How) -> Result<Order, AllocError> {
    let mut order = order(alloc, shape)?;
    order.how = how;
    Ok(order)
}

/// Whether the row's torrent is made of files of a source.
fn is_made<R: AllocGlobal + Threads + Sync>(
    rt: &R,
    source: &MemSource,
    files: &[(FilePath, Attr)],
    row: &Lettered,
    how: How,
) -> bool {
    match order_of(rt.alloc(), &row.0.0, how) {
        Ok(order) => are(make_with(rt, rt.alloc(), source, files, &order), row.0.2),
        Err(_) => false,
    }
}

/// Whether it is, each way to share the units.
fn is_made_each_way<R: AllocGlobal + Threads + Sync>(
    rt: &R,
    source: &MemSource,
    files: &[(FilePath, Attr)],
    row: &Lettered,
) -> bool {
    for how in EACH_HOW {
        if !is_made(rt, source, files, row, *how) {
            return false;
        }
    }
    true
}

/// Whether the files of a source make the row's torrent.
fn is_made_of<R: AllocGlobal + Threads + Sync>(rt: &R, source: &MemSource, row: &Lettered) -> bool {
    match files(rt.alloc(), row) {
        Ok(files) => is_made_each_way(rt, source, &files, row),
        Err(_) => false,
    }
}

fn is_made_of_source<R: AllocGlobal + Threads + Sync>(rt: &R, row: &Lettered) -> bool {
    match source(rt.alloc(), row.0.1) {
        Ok(source) => is_made_of(rt, &source, row),
        Err(_) => false,
    }
}

#[test]
fn makes_torrents_of_a_source_with_letters(rt: HostRuntime) {
    for row in TURNED {
        assert!(rt; is_made_of_source(&rt, row));
    }
}
