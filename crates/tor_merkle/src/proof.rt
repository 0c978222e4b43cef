//! Proofs that a hash stands at an index of a tree (BEP 52, "piece layers").

ghost use Rattle.std.specs.Prelude.{◌≡◌, ◌+◌, ◌*◌, ◌^◌, ◌<◌, ◌≤◌, ◌↔◌, IsTrue, length, slice_index_or};
ghost use Rattle.std.specs.Prelude.{IfOk, Err};
ghost use Rattle.tor_merkle.specs.Block.{run_at};
ghost use Rattle.tor_merkle.specs.Layer.{IsPieceLength};
ghost use Rattle.tor_merkle.specs.Proof.{is_proof, proof_count, proof_level, sibling_index, siblings_of};
ghost use Rattle.tor_merkle.specs.Stack.{padded_root, padded_subtree};
ghost use Rattle.tor_merkle.specs.Subtree.{height, zero_leaf};
ghost use Rattle.tor_merkle.specs.declared.proof.ProveError.TheVariants.{Index, Memory};

use crate::digits::height_of;
use crate::hash::{Hash, zero};
use crate::layer::layer_subtree;
use crate::piece_length::piece_level;
use crate::{BLOCK_LENGTH, MAX_LENGTH};
use std::alloc::{AllocError, AllocFailed, Global};
use thiserror::Error;

/// The siblings of a hash on the way to the root, lowest first.
#[derive(Debug, Drop)]
pub struct Proof {
    pub siblings: Vec<Hash>,
}

/// Why there is no proof.
#[derive(Debug, Drop, Error)]
pub enum ProveError {
    /// No hash has this index.
    #[error("P1 Index")]
    Index,
    /// Memory for the siblings was refused.
    #[error("out of memory")]
    Memory,
}

impl From<AllocError> for ProveError {
    ghost from_gives = { λ _ e. e ≡ Memory };

    fn from(_error: AllocError) -> ProveError {
        ProveError::Memory
    }
}

impl<T: Drop> From<AllocFailed<T>> for ProveError {
    ghost from_gives = { λ _ e. e ≡ Memory };

    fn from(_failed: AllocFailed<T>) -> ProveError {
        ProveError::Memory
    }
}

/// The siblings of the hash at `index` of `hashes`, roots of subtrees of `2^level` leaves each; zero subtrees follow
/// them up to a power of two.
pub fn prove(alloc: Global, hashes: &[Hash], level: u32, index: u64) -> Result<Proof, ProveError>
    requires low { level + height (length hashes.now) ≤ 36 }
    ensures refused { (result ≡ Err Index) ↔ (length hashes.now ≤ index) }
    ensures siblings { IfOk result (λ proof. proof.siblings.items ≡ siblings_of level hashes.now index) }
    ensures accepted { IfOk result (λ proof. IsTrue (is_proof (padded_root level hashes.now) (length hashes.now) level
        index (slice_index_or hashes.now index zero_leaf) proof.siblings.items)) }
{
    if index >= hashes.len() as u64 {
        return Err(ProveError::Index);
    }
    let levels = height_of(hashes.len() as u64);
    let mut siblings = Vec::new(alloc);
    'levels: for above in 0..levels {
        siblings.push(root_of_run(hashes, level, above, sibling_index(index, above)))?;
    }
    Ok(Proof { siblings })
}

// The index of the sibling at a level, counted in subtrees of that level.
pub(crate) fn sibling_index(index: u64, level: u32) -> u64
    requires { level ≤ 36 }
    ensures { result ≡ sibling_index index level }
{
    let node = index >> level;
    if node % 2 == 0 { node + 1 } else { node - 1 }
}

// The root of the run of `2^above` hashes at an index, where zero subtrees stand for those that are missing.
fn root_of_run(hashes: &[Hash], level: u32, above: u32, index: u64) -> Hash
    requires low { level + above ≤ 36 }
    requires small { index * 2 ^ above < 2 ^ 64 }
    ensures { result ≡ padded_subtree above level (run_at (2 ^ above) hashes.now index) }
{
    let width = 1 << above;
    let start = index * width;
    if start >= hashes.len() as u64 {
        return zero(level + above);
    }
    let (_, rest) = hashes.split_at(start as usize);
    let (run, _) = rest.split_at(rest.len().min(width as usize));
    layer_subtree(run, level, above)
}

/// How many hashes the proofs of a file of `size` bytes are over: one for each piece of a file longer than a piece, and
/// the root alone of another (BEP 52, "piece layers").
pub fn proof_count(size: u64, piece_length: u64) -> u64
    requires piece { IsPieceLength piece_length }
    requires small { size ≤ MAX_LENGTH }
    ensures { result ≡ proof_count size piece_length }
{
    if size > piece_length {
        size.div_ceil(piece_length)
    } else {
        1
    }
}

/// The level of these hashes: that of a piece, or that of the root.
pub fn proof_level(size: u64, piece_length: u64) -> u32
    requires piece { IsPieceLength piece_length }
    requires small { size ≤ MAX_LENGTH }
    ensures { result ≡ proof_level size piece_length }
{
    if size > piece_length {
        piece_level(piece_length)
    } else {
        height_of(size.div_ceil(BLOCK_LENGTH as u64))
    }
}
