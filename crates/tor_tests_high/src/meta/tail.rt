//! Torrents of readers, and of one in a folder, whose last file with bytes has padding too (BEP 47, "padding files"),
//! worked out by hand; each hash in hexadecimal is of Python's hashlib. Those that the program makes are in
//! `tests/made.py`.

use crate::check::telling::are;
use crate::meta::contents::{ABC, FOLDER_V1};
use crate::meta::given::Row;
use crate::meta::sources::order;
use crate::meta::streams::is_made_each_way;
use std::alloc::{AllocError, Global};
use std::process::Abort;
use std::sync::Wait;
use std::thread::Threads;
use tor_engine::How;
use tor_meta::{Order, make_from, torrent_by_streams};
use tor_tree::{Attr, Kind};

// `a`, that has `ab`, and `b`, that has `c`: the SHA-256 of each, and the SHA-1 of each with its zeros.
const FOLDER: &[u8] = b"d4:infod9:file treed1:ad0:d6:lengthi2e11:pieces root32:\
\xfb\x8e\x20\xfc\x2e\x4c\x3f\x24\x8c\x60\xc3\x9b\xd6\x52\xf3\xc1\
\x34\x72\x98\xbb\x97\x7b\x8b\x4d\x59\x03\xb8\x50\x55\x62\x06\x03\
ee1:bd0:d6:lengthi1e11:pieces root32:\
\x2e\x7d\x2c\x03\xa9\x50\x7a\xe2\x65\xec\xf5\xb5\x35\x68\x85\xa5\
\x33\x93\xa2\x02\x9d\x24\x13\x94\x99\x72\x65\xa1\xa2\x5a\xef\xc6\
eee5:filesld6:lengthi2e4:pathl1:aeed4:attr1:p6:lengthi16382e4:pathl4:.pad5:16382ee\
d6:lengthi1e4:pathl1:beed4:attr1:p6:lengthi16383e4:pathl4:.pad5:16383eee\
12:meta versioni2e4:name1:f12:piece lengthi16384e6:pieces40:\
\xcb\x25\xce\xe0\xc9\xee\x3f\xc5\x74\x13\xe4\x72\xac\xdb\x19\x13\x86\xed\xb6\x12\
\x02\xa8\x0c\xb3\x04\x20\x10\x61\xb6\x61\x5a\x81\xfb\xa4\xe3\xaf\x3f\x89\x5b\x96\
e12:piece layersdee";

/// The files of `FOLDER` and an empty file `c`: the tail stands directly after `b`.
const EMPTY_AFTER: &[u8] = b"d4:infod9:file treed1:ad0:d6:lengthi2e11:pieces root32:\
\xfb\x8e\x20\xfc\x2e\x4c\x3f\x24\x8c\x60\xc3\x9b\xd6\x52\xf3\xc1\
\x34\x72\x98\xbb\x97\x7b\x8b\x4d\x59\x03\xb8\x50\x55\x62\x06\x03\
ee1:bd0:d6:lengthi1e11:pieces root32:\
\x2e\x7d\x2c\x03\xa9\x50\x7a\xe2\x65\xec\xf5\xb5\x35\x68\x85\xa5\
\x33\x93\xa2\x02\x9d\x24\x13\x94\x99\x72\x65\xa1\xa2\x5a\xef\xc6\
ee1:cd0:d6:lengthi0eeee5:filesld6:lengthi2e4:pathl1:aeed4:attr1:p6:lengthi16382e4:pathl4:.pad5:16382ee\
d6:lengthi1e4:pathl1:beed4:attr1:p6:lengthi16383e4:pathl4:.pad5:16383eed6:lengthi0e4:pathl1:ceee\
12:meta versioni2e4:name1:f12:piece lengthi16384e6:pieces40:\
\xcb\x25\xce\xe0\xc9\xee\x3f\xc5\x74\x13\xe4\x72\xac\xdb\x19\x13\x86\xed\xb6\x12\
\x02\xa8\x0c\xb3\x04\x20\x10\x61\xb6\x61\x5a\x81\xfb\xa4\xe3\xaf\x3f\x89\x5b\x96\
e12:piece layersdee";

// `a` alone.
const ALONE: &[u8] = b"d4:infod9:file treed1:ad0:d6:lengthi2e11:pieces root32:\
\xfb\x8e\x20\xfc\x2e\x4c\x3f\x24\x8c\x60\xc3\x9b\xd6\x52\xf3\xc1\
\x34\x72\x98\xbb\x97\x7b\x8b\x4d\x59\x03\xb8\x50\x55\x62\x06\x03\
eee5:filesld6:lengthi2e4:pathl1:aeed4:attr1:p6:lengthi16382e4:pathl4:.pad5:16382eee\
12:meta versioni2e4:name1:f12:piece lengthi16384e6:pieces20:\
\xcb\x25\xce\xe0\xc9\xee\x3f\xc5\x74\x13\xe4\x72\xac\xdb\x19\x13\x86\xed\xb6\x12\
e12:piece layersdee";

const TAILED: &[Row] = &[
    ((Kind::Hybrid, false, 16384, "f"), "a=ab b=c", FOLDER),
    (
        (Kind::Hybrid, false, 16384, "f"),
        "a=ab b=c c=",
        EMPTY_AFTER,
    ),
    ((Kind::Hybrid, false, 16384, "f"), "a=ab", ALONE),
    // Where files are not aligned, a tail changes nothing.
    ((Kind::V1, false, 16384, "f"), "a=ab b=c", FOLDER_V1),
    ((Kind::V2, true, 16384, "a"), "a=abc", ABC),
    ((Kind::Hybrid, true, 16384, "a"), "a=abc", SINGLE),
];

// The hybrid of the one file `a`, that has `abc`, without padding.
const SINGLE: &[u8] = b"d4:infod9:file treed1:ad0:d6:lengthi3e11:pieces root32:\
\xba\x78\x16\xbf\x8f\x01\xcf\xea\x41\x41\x40\xde\x5d\xae\x22\x23\
\xb0\x03\x61\xa3\x96\x17\x7a\x9c\xb4\x10\xff\x61\xf2\x00\x15\xad\
eee6:lengthi3e12:meta versioni2e4:name1:a12:piece lengthi16384e6:pieces20:\
\xa9\x99\x3e\x36\x47\x06\x81\x6a\xba\x3e\x25\x71\x78\x50\xc2\x6c\x9c\xd0\xd8\x9d\
e12:piece layersdee";

// One content in a folder.
const INPUT: &[u8] = b"d4:infod9:file treed1:ad0:d6:lengthi3e11:pieces root32:\
\xba\x78\x16\xbf\x8f\x01\xcf\xea\x41\x41\x40\xde\x5d\xae\x22\x23\
\xb0\x03\x61\xa3\x96\x17\x7a\x9c\xb4\x10\xff\x61\xf2\x00\x15\xad\
eee5:filesld6:lengthi3e4:pathl1:aeed4:attr1:p6:lengthi16381e4:pathl4:.pad5:16381eee\
12:meta versioni2e4:name1:a12:piece lengthi16384e6:pieces20:\
\x8f\x68\x18\x5c\xd5\x29\x4a\x25\x79\x31\x6f\x22\xdd\x91\x1a\xcb\x4a\x7c\x18\xdc\
e12:piece layersdee";

fn order_of_input(alloc: Global) -> Result<Order, AllocError> {
    let mut order = order(alloc, &(Kind::Hybrid, false, 16384, "a"))?;
    order.tail = true;
    order.how = How::Board(2);
    Ok(order)
}

fn is_made_of_input(alloc: Global, order: &Order) -> bool {
    let mut reader: &[u8] = b"abc";
    let mut torrent = Vec::new(alloc);
    make_from(alloc, &mut reader, &mut torrent, order).is_ok() && torrent.as_slice() == INPUT
}

fn is_made_by_workers<T: AllocGlobal + Threads + Wait + Sync + Send + Clone + Drop + 'static>(
    rt: &T,
    order: &Order,
) -> bool {
    let mut reader: &[u8] = b"abc";
    are(
        torrent_by_streams(rt, rt.alloc(), &mut reader, order, Attr::NONE),
        INPUT,
    )
}

fn is_input_padded<T: AllocGlobal + Threads + Wait + Sync + Send + Clone + Drop + 'static>(
    rt: &T,
) -> bool {
    match order_of_input(rt.alloc()) {
        Ok(order) => is_made_of_input(rt.alloc(), &order) && is_made_by_workers(rt, &order),
        Err(_) => false,
    }
}

fn are_padded<R: AllocGlobal + Abort + Threads + Wait + Sync>(rt: &R) -> bool {
    for row in TAILED {
        if !is_made_each_way(rt, row, true) {
            return false;
        }
    }
    true
}

#[test]
fn pads_the_last_file(rt: HostRuntime) {
    assert!(rt; are_padded(&rt) && is_input_padded(&rt));
}
