//! Which piece of which file a proof is of.
ghost use Rattle.std.specs.Prelude.{◌≡◌, ◌<◌, ◌≤◌, IsNone};
ghost use Rattle.tor_c.specs.Proofs.{claim_fault, piece_size};
ghost use Rattle.tor_merkle.specs.Layer.{IsPieceLength};
ghost use Rattle.tor_merkle.specs.declared.TheConstants.{MAX_LENGTH};

use crate::{BAD_LENGTH, BAD_PIECE_LENGTH};
use tor_merkle::laws::piece_length_bounds;
use tor_merkle::{Hash, MAX_LENGTH, is_piece_length};
use tor_view::piece_size;

/// Which piece of which file a proof is of.
#[derive(Clone, Copy)]
pub struct Claim {
    /// The root of the file (BEP 52, "pieces root").
    pub root: Hash,
    /// The bytes of the file.
    pub size: u64,
    /// In bytes.
    pub piece_length: u64,
    /// Of the piece in the file.
    pub index: u64,
}

impl Claim {
    /// The answer to a claim of a file that there cannot be.
    pub fn fault(&self) -> Option<u32>
        ensures value { result ≡ claim_fault self.now }
        ensures allowed { IsNone result → IsPieceLength self.now.piece_length }
        ensures some { IsNone result → 0 < self.now.size }
        ensures small { IsNone result → self.now.size ≤ MAX_LENGTH }
    {
        if self.size == 0 || self.size > MAX_LENGTH {
            return Some(BAD_LENGTH);
        }
        if !is_piece_length(self.piece_length) {
            return Some(BAD_PIECE_LENGTH);
        }
        None
    }

    /// How many bytes the piece has; none if the file has no such piece.
    pub fn piece_size(&self) -> u64
        requires allowed { IsPieceLength self.now.piece_length }
        requires small { self.now.size ≤ MAX_LENGTH }
        ensures { result ≡ piece_size self.now }
    {
        piece_length_bounds();
        piece_size(self.size, self.piece_length, self.index)
    }
}
