//! Whether bytes are those of a piece.
ghost use Rattle.std.specs.Prelude.{◌≡◌, ◌<◌, ◌↔◌, IfOk, IsTrue};
ghost use Rattle.tor_merkle.specs.Layer.{IsPieceLength};
ghost use Rattle.tor_view.specs.PieceBytes.{IsPiece};

use crate::piece_hash::hash_of_piece;
use crate::size::piece_size;
use std::alloc::{AllocError, Global};
use tor_merkle::Hash;
use tor_merkle::laws::piece_length_bounds;

/// Whether these are the bytes of the piece at an index of a file of `size` bytes, as many as the piece has, if this is
/// its hash (BEP 52, "piece layers", "pieces root").
pub fn is_piece(
    alloc: Global,
    size: u64,
    piece_length: u64,
    index: u64,
    hash: &Hash,
    bytes: &[u8],
) -> Result<bool, AllocError>
    requires { IsPieceLength piece_length }
    ensures { IfOk result (λ is. IsTrue is ↔ IsPiece size piece_length index hash.now bytes.now) }
{
    piece_length_bounds();
    if bytes.is_empty() {
        return Ok(false);
    }
    if bytes.len() as u64 != piece_size(size, piece_length, index) {
        return Ok(false);
    }
    let own = hash_of_piece(alloc, size, piece_length, bytes)?;
    Ok(own == *hash)
}
