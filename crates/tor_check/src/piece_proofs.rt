//! Proofs that the hash of a piece stands in the tree of its file (BEP 52, "piece layers").
ghost use Rattle.std.specs.Prelude.{◌≡◌, ◌<◌, ◌≤◌, None, Err, IfErr, IfOk, IsSomeAnd, length, slice_get};
ghost use Rattle.std.specs.Option.{ForSome};
ghost use Rattle.tor_check.specs.PieceProofs.{IsPieceProof, piece_refusal};
ghost use Rattle.tor_check.specs.declared.piece_proofs.ProveError.TheVariants.{Index, Memory};
ghost use Rattle.tor_check.specs.steps.PieceProofs.{HasTree};
ghost use Rattle.tor_merkle.specs.Layer.{IsPieceLength};
ghost use Rattle.tor_merkle.specs.Proof.{proof_count};

use crate::torrent::{Torrent, ViewFile};
use std::alloc::Global;
use thiserror::Error;
use tor_merkle::{Hash, Proof, piece_level, prove};

/// Why there is no proof of a piece. The first that holds is answered.
#[derive(Debug, Drop, Error)]
pub enum ProveError {
    /// The torrent has no such file, or the file no such piece.
    #[error("P1 Index")]
    Index,
    /// The torrent has no v2 side, or the file is empty.
    #[error("P2 NoTree")]
    NoTree,
    /// Memory for the siblings was refused.
    #[error("out of memory")]
    Memory,
}

/// The hash of a piece of a file, counted from 0 in the file, and its siblings on the way to the file's root. A file of
/// at most one piece has one such hash, its root.
pub fn prove_piece(
    alloc: Global,
    torrent: &Torrent,
    file: u64,
    index: u64,
) -> Result<(Hash, Proof), ProveError>
    ensures refused { ForSome (piece_refusal torrent.now file index) (λ fault. result ≡ Err fault) }
    ensures answered { piece_refusal torrent.now file index ≡ None → IfErr result (λ fault. fault ≡ Memory) }
    ensures memory { result ≡ Err Memory → IsSomeAnd (slice_get torrent.now.files file)
        (λ told. torrent.now.piece_length < told.file.length) }
    ensures proved { IfOk result (λ answer. IsSomeAnd (slice_get torrent.now.files file)
        (λ told. IsPieceProof torrent.now.piece_length told index answer.0 answer.1.siblings.items)) }
    ensures few { IfOk result (λ answer. length answer.1.siblings.items ≤ 36) }
{
    let Some(told) = torrent.files().get(file as usize) else {
        return Err(ProveError::Index);
    };
    if !torrent.kind().has_v2() || told.file().length == 0 {
        return Err(ProveError::NoTree);
    }
    prove_in_file(alloc, told, torrent.piece_length(), index)
}

/// The hash of a piece of a file that has a tree, counted from 0 in the file, and its siblings on the way to the file's
/// root.
fn prove_in_file(
    alloc: Global,
    told: &ViewFile,
    piece_length: u64,
    index: u64,
) -> Result<(Hash, Proof), ProveError>
    requires allowed { IsPieceLength piece_length }
    requires tree { HasTree piece_length told.now }
    ensures refused { proof_count told.now.file.length piece_length ≤ index → result ≡ Err Index }
    ensures answered { index < proof_count told.now.file.length piece_length → IfErr result (λ fault. fault ≡ Memory) }
    ensures memory { result ≡ Err Memory → piece_length < told.now.file.length }
    ensures proved { IfOk result (λ answer.
        IsPieceProof piece_length told.now index answer.0 answer.1.siblings.items) }
    ensures few { IfOk result (λ answer. length answer.1.siblings.items ≤ 36) }
{
    if told.file().length <= piece_length {
        return match told.file().root {
            Some(root) if index == 0 => {
                let siblings = Vec::new(alloc);
                Ok((root, Proof { siblings }))
            }
            _ => Err(ProveError::Index),
        };
    }
    let layer = told.layer();
    match prove(alloc, layer, piece_level(piece_length), index) {
        Ok(proof) => Ok((layer[index as usize], proof)),
        Err(tor_merkle::ProveError::Index) => Err(ProveError::Index),
        Err(tor_merkle::ProveError::Memory) => Err(ProveError::Memory),
    }
}
