//! Stacks, and what a feed and a layer tell of no byte and of one hash. Hashes in hexadecimal were computed by another
//! program (Python's hashlib).

use std::alloc::Global;
use tor_merkle::laws::piece_length_bounds;
use tor_merkle::{Feed, Hash, Stack, is_piece_length, layer_root, pair};

// The SHA-256 of `ab`, of `c` and of `abc`.
const STACKED: &[Hash; 3] = &[
    *b"\xfb\x8e\x20\xfc\x2e\x4c\x3f\x24\x8c\x60\xc3\x9b\xd6\x52\xf3\xc1\
\x34\x72\x98\xbb\x97\x7b\x8b\x4d\x59\x03\xb8\x50\x55\x62\x06\x03",
    *b"\x2e\x7d\x2c\x03\xa9\x50\x7a\xe2\x65\xec\xf5\xb5\x35\x68\x85\xa5\
\x33\x93\xa2\x02\x9d\x24\x13\x94\x99\x72\x65\xa1\xa2\x5a\xef\xc6",
    *b"\xba\x78\x16\xbf\x8f\x01\xcf\xea\x41\x41\x40\xde\x5d\xae\x22\x23\
\xb0\x03\x61\xa3\x96\x17\x7a\x9c\xb4\x10\xff\x61\xf2\x00\x15\xad",
];

const OF_STACK: Hash = *b"\x00\x69\x30\x5f\x19\x51\x29\xeb\x7e\x8d\xdb\x2f\x05\xb6\x7f\x3d\
\x6f\xb8\x65\xc7\x3b\x5f\x88\x0f\xe0\x82\xe5\xb9\x6d\xa3\x44\xd9";

const ONE: Hash = *b"\x00\x01\x02\x03\x04\x05\x06\x07\x08\x09\x0a\x0b\x0c\x0d\x0e\x0f\
\x10\x11\x12\x13\x14\x15\x16\x17\x18\x19\x1a\x1b\x1c\x1d\x1e\x1f";

// Whether a stack of level 1 has these roots as hashes come.
fn stacks(hashes: &[Hash; 3], root: &Hash) -> bool {
    let [first, second, third] = hashes;
    let mut stack = Stack::new(1);
    let was_empty = stack.is_empty();
    stack.push(*first);
    let of_one = stack.root() == *first;
    stack.push(*second);
    let of_two = stack.root() == pair(first, second);
    stack.push(*third);
    was_empty && of_one && of_two && stack.len() == 3 && stack.root() == *root
}

fn has_no_piece(alloc: Global, piece_length: u64) -> bool {
    if !is_piece_length(piece_length) {
        return false;
    }
    Feed::new(alloc, piece_length).piece_roots().is_empty()
}

#[test]
fn stacks_hashes_and_tells_what_little_there_is(rt: HostRuntime) {
    piece_length_bounds();
    assert!(rt; stacks(STACKED, &OF_STACK) && layer_root(&[ONE], 3) == ONE);
    assert!(rt; has_no_piece(rt.alloc(), 32_768));
}
