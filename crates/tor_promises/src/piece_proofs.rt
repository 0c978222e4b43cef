//! Proofs that the hash of a piece stands in the tree of its file.
ghost use Rattle.std.specs.Prelude.{◌≡◌, ◌<◌, ◌≤◌, None, Err, IfErr, IfOk, IsSomeAnd, length, slice_get};
ghost use Rattle.std.specs.Option.{ForSome};
ghost use Rattle.tor_check.specs.PieceProofs.{IsPieceProof, piece_refusal};
ghost use Rattle.tor_check.specs.declared.piece_proofs.ProveError.TheVariants.{Memory};

use std::alloc::Global;
use tor_check::{ProveError, Torrent, prove_piece};
use tor_merkle::{Hash, Proof};

/// The hash of a piece of a file of a torrent, and its siblings on the way to the file's root (BEP 52, "piece layers").
pub fn proof_of_piece(
    alloc: Global,
    torrent: &Torrent,
    file: u64,
    index: u64,
) -> Result<(Hash, Proof), ProveError>
    ensures refused { ForSome (piece_refusal torrent.now file index) (λ fault. result ≡ Err fault) }
    ensures answered { piece_refusal torrent.now file index ≡ None → IfErr result (λ fault. fault ≡ Memory) }
    ensures memory { result ≡ Err Memory → IsSomeAnd (slice_get torrent.now.files file)
        (λ told. torrent.now.piece_length < told.file.length) }
    ensures proved { IfOk result (λ answer. IsSomeAnd (slice_get torrent.now.files file)
        (λ told. IsPieceProof torrent.now.piece_length told index answer.0 answer.1.siblings.items)) }
    ensures few { IfOk result (λ answer. length answer.1.siblings.items ≤ 36) }
{
    prove_piece(alloc, torrent, file, index)
}
