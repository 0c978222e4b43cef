//! Whether a proof of a piece holds (BEP 52, "piece layers").
ghost use Rattle.std.specs.Prelude.{◌≡◌, ◌<◌, ◌≤◌, if◌then◌else◌};
ghost use Rattle.tor_c.specs.Proofs.{IsProofAnswer, IsTruthAnswer, are_proved, claim, has_all_bytes, has_all_siblings};
ghost use Rattle.tor_c.specs.Proofs.{is_proved};
ghost use Rattle.tor_merkle.specs.Layer.{IsPieceLength};
ghost use Rattle.tor_merkle.specs.declared.TheConstants.{MAX_LENGTH};

use crate::claim::Claim;
use crate::{ACCEPTED, MEMORY, NOT_PROVED};
use std::alloc::Global;
use tor_merkle::laws::{heights_are_least, proofs_are_low};
use tor_merkle::{Hash, Proof, height_of, proof_count, proof_level, verify};
use tor_view::hash_of_piece;

/// Whether `hash` is that of the piece at `index` of the file of `size` bytes whose root is `root`, as its siblings
/// say, lowest first (BEP 52, "piece layers"). Lengths are in bytes. Of a file of at most one piece the hash is the
/// root.
#[unsafe(no_mangle)]
pub extern "C" fn plover_verify(
    alloc: Global,
    root: &Hash,
    size: u64,
    piece_length: u64,
    index: u64,
    hash: &Hash,
    siblings: &[Hash],
) -> u32
    ensures { let told = claim root.now size piece_length index in
        IsProofAnswer told (has_all_siblings told siblings.now) (is_proved told hash.now siblings.now) result }
{
    let claim = Claim {
        root: *root,
        size,
        piece_length,
        index,
    };
    if let Some(answer) = claim.fault() {
        return answer;
    }
    answer_to_hash(alloc, &claim, hash, siblings)
}

/// The same of the bytes of the piece, which are as many as the piece has, in place of their hash.
#[unsafe(no_mangle)]
pub extern "C" fn plover_verify_bytes(
    alloc: Global,
    root: &Hash,
    size: u64,
    piece_length: u64,
    index: u64,
    bytes: &[u8],
    siblings: &[Hash],
) -> u32
    ensures { let told = claim root.now size piece_length index in
        IsProofAnswer told (has_all_bytes told bytes.now) (are_proved told bytes.now siblings.now) result }
{
    let claim = Claim {
        root: *root,
        size,
        piece_length,
        index,
    };
    if let Some(answer) = claim.fault() {
        return answer;
    }
    answer_to_bytes(alloc, &claim, bytes, siblings)
}

/// Whether the siblings prove the hash, of a file that there can be.
fn answer_to_hash(alloc: Global, claim: &Claim, hash: &Hash, siblings: &[Hash]) -> u32
    requires allowed { IsPieceLength claim.now.piece_length }
    requires small { claim.now.size ≤ MAX_LENGTH }
    ensures { IsTruthAnswer (has_all_siblings claim.now siblings.now)
        (is_proved claim.now hash.now siblings.now) result }
{
    proofs_are_low();
    heights_are_least();
    let count = proof_count(claim.size, claim.piece_length);
    let level = proof_level(claim.size, claim.piece_length);
    if siblings.len() != height_of(count) as usize {
        return NOT_PROVED;
    }
    let siblings = match Vec::from_slice(alloc, siblings) {
        Ok(siblings) => siblings,
        Err(_) => return MEMORY,
    };
    let proof = Proof { siblings };
    if verify(&claim.root, count, level, claim.index, hash, &proof) {
        ACCEPTED
    } else {
        NOT_PROVED
    }
}

/// Whether they prove the hash of these bytes.
fn answer_to_bytes(alloc: Global, claim: &Claim, bytes: &[u8], siblings: &[Hash]) -> u32
    requires allowed { IsPieceLength claim.now.piece_length }
    requires some { 0 < claim.now.size }
    requires small { claim.now.size ≤ MAX_LENGTH }
    ensures { IsTruthAnswer (has_all_bytes claim.now bytes.now)
        (are_proved claim.now bytes.now siblings.now) result }
{
    if bytes.is_empty() {
        return NOT_PROVED;
    }
    if bytes.len() as u64 != claim.piece_size() {
        return NOT_PROVED;
    }
    match hash_of_piece(alloc, claim.size, claim.piece_length, bytes) {
        Ok(hash) => answer_to_hash(alloc, claim, &hash, siblings),
        Err(_) => MEMORY,
    }
}
