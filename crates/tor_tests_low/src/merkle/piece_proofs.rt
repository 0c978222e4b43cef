//! What no word of the program asks of proofs of single pieces: how many hashes a file has, proofs of none, and two
//! hashes of one proof. What `prove` and `verify` answer, the commands of these names tell (tests/hashing.py).

use std::alloc::Global;
use std::process::Abort;
use tor_merkle::laws::proofs_are_low;
use tor_merkle::{
    Hash, Proof, ProveError, collide, is_piece_length, leaf, proof_count, proof_level, prove,
    verify,
};

// The blocks of 40,000 bytes whose byte i is i % 251, and the node over the first two, as Python's hashlib told them.
const L0: Hash = *b"\x43\x48\xe3\xb9\x8e\x8a\x32\x7b\x34\xce\xd3\x9c\x1d\xa9\xe6\x7c\
\xdb\x4c\xd5\xe4\x8e\x4d\x79\x60\x60\x7a\x3a\xe4\x03\xd3\x5f\x0c";

const L1: Hash = *b"\xf7\xc9\x04\x5c\x2a\x79\xa8\xa2\xa5\x87\xef\xbf\x5b\x31\x06\x52\
\x68\x5b\x29\x2e\x6f\xbb\x0b\x08\xc1\xdf\x85\x75\x00\xda\x26\x99";

const BLOCKS: &[Hash] = &[
    L0,
    L1,
    *b"\x8e\xc9\x9c\x0f\xa9\x06\xcc\xb8\x1a\x4c\x7b\x86\x98\x39\x28\x3e\
\x27\x3b\x59\x6b\x82\x4b\x31\x00\x7f\x66\x49\xd3\x12\x81\xdb\x63",
];

const P0: Hash = *b"\xd9\xe1\x3d\x0b\x67\x6a\xd6\x81\x16\x4e\xf0\xb7\xb5\x91\x0d\x13\
\x28\xea\x83\xa0\x47\xca\xd5\x7e\x61\x9d\x76\xbb\xe3\xa0\x85\x25";

// The proof of one of a few hashes.
fn proof_of<R: AllocGlobal + Abort>(
    rt: &R,
    hashes: &[Hash],
    index: u64,
) -> Result<Proof, ProveError> {
    assert!(rt; hashes.len() <= 1 << 20);
    prove(rt.alloc(), hashes, 0, index)
}

// Whether the texts for one hash twice are that of its first parent, twice.
fn collides_in_its_parent<R: AllocGlobal + Abort>(rt: &R) -> bool {
    match proof_of(rt, BLOCKS, 1) {
        Ok(proof) => {
            let (text, other) = collide(1, &L1, &proof, &L1, &proof);
            leaf(&text) == P0 && text.as_slice() == other.as_slice()
        }
        Err(_) => false,
    }
}

// Whether no hash is proved where there is none: a root is that of a file with bytes.
fn proves_none(alloc: Global) -> bool {
    let siblings = Vec::new(alloc);
    !verify(&L0, 0, 0, 0, &L0, &Proof { siblings })
}

// Size, the length of a piece, how many hashes, and their level.
type Count = (u64, u64, u64, u32);

const COUNTS: &[Count] = &[
    (0, 16_384, 1, 0),
    (1, 16_384, 1, 0),
    (16_384, 16_384, 1, 0),
    (16_385, 16_384, 2, 0),
    (16_385, 32_768, 1, 1),
    (49_153, 1 << 20, 1, 2),
    (1 << 20, 1 << 20, 1, 6),
    ((1 << 20) + 1, 1 << 20, 2, 6),
    (1 << 50, 16_384, 1 << 36, 0),
    (1 << 50, 1 << 30, 1 << 20, 16),
];

// Whether count and level of the hashes of a file are these.
fn is_counted(row: &Count) -> bool {
    let (size, piece_length, count, level) = *row;
    if !is_piece_length(piece_length) || size > 1 << 50 {
        return false;
    }
    proof_count(size, piece_length) == count && proof_level(size, piece_length) == level
}

fn are_counted() -> bool {
    for row in COUNTS {
        if !is_counted(row) {
            return false;
        }
    }
    true
}

fn has_no_proof<R: AllocGlobal + Abort>(rt: &R) -> bool {
    matches!(proof_of(rt, &[], 0), Err(ProveError::Index))
}

#[test]
fn counts_hashes_and_proves_none_where_there_is_none(rt: HostRuntime) {
    proofs_are_low();
    assert!(rt; are_counted() && has_no_proof(&rt));
    assert!(rt; proves_none(rt.alloc()) && collides_in_its_parent(&rt));
}
