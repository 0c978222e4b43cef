//! Pieces of units in memory, whose sums are owed until many can be hashed together.
ghost use Rattle.std.specs.Prelude.{◌≡◌, ◌+◌, ◌<◌, ◌^◌, ◌%◌, ◌++◌, [], ℕ, List, IfOk, OnOk, length};
ghost use Rattle.tor_v1.specs.Piece.{IsV1PieceLength, piece_sums, zeros};

use crate::worker::WorkerSums;
use std::alloc::{AllocError, Global};
use tor_source::zeros;
use tor_tree::Kind;
use tor_v1::laws::length_of_sums;

/// The pieces of units whose bytes stand in memory, one after the other, and the sums that it owes them, in the order
/// in which they came. Each unit ends at a piece's end, so that its pieces wait for those of the next one.
#[derive(Drop)]
pub struct OwingPieces {
    sums: WorkerSums,
}

impl OwingPieces {
    ghost use Rattle.tor_sums.specs.steps.OwingPieces.{OwesPieces};

    /// Of no unit, for pieces of so many bytes.
    pub fn new(alloc: Global, piece_length: u64) -> Result<OwingPieces, AllocError>
        requires { IsV1PieceLength piece_length }
        ensures { IfOk result (OwesPieces piece_length []) }
    {
        let sums = WorkerSums::of_kind(alloc, Kind::V1, piece_length, 8 * piece_length)?;
        Ok(OwingPieces { sums })
    }

    /// Takes the pieces of a unit, of these bytes and so many zeros after them, and gives room for their sums. No
    /// memory is asked for later for them. After an error it is of no use.
    pub fn add_unit(
        &mut self,
        alloc: Global,
        piece_length: u64,
        bytes: &[u8],
        count: u64,
    ) -> Result<Vec<u8>, AllocError>
        requires pieces { IsV1PieceLength piece_length }
        requires small { length bytes.now + count < 2 ^ 58 }
        requires whole { (length bytes.now + count) % piece_length ≡ 0 }
        ensures room { IfOk result (λ room.
            length room.items ≡ length (piece_sums piece_length (bytes.now ++ zeros count))) }
        ensures owes { (owed : List ℕ) → OwesPieces piece_length owed self.old → OnOk result
            (OwesPieces piece_length (owed ++ piece_sums piece_length (bytes.now ++ zeros count)) self.new) }
    {
        length_of_sums();
        self.sums.feed_pieces(bytes)?;
        self.sums.feed_zeros(count)?;
        self.sums.reserve()?;
        let pieces = (bytes.len() as u64 + count).div_ceil(piece_length);
        let room = zeros(alloc, 20 * pieces as usize)?;
        Ok(room)
    }

    /// Hashes what waits, and gives all sums that are owed, one after another. It takes no memory.
    pub fn finish(self, alloc: Global) -> Vec<u8>
        requires { (piece_length : ℕ) × (owed : List ℕ) × OwesPieces piece_length owed self }
        ensures { (piece_length : ℕ) (owed : List ℕ) → OwesPieces piece_length owed self → result.items ≡ owed }
    {
        self.sums.finish(alloc)
    }
}
