//! The tree over a content that was fed to its end.

ghost use Rattle.std.specs.Prelude.{◌≡◌, ◌≤◌, ◌↔◌, [], IsNone, IfSome};
ghost use Rattle.tor_merkle.specs.Layer.{IsPieceLength, pieces_root, piece_roots, piece_layer};

use crate::MAX_PIECE_LENGTH;
use crate::hash::Hash;
use crate::pieces::PieceTree;
use crate::trail::History;
use std::marker::Model;

/// The tree over a content of which no byte is missing. It keeps one hash a piece, and no leaves.
#[derive(Drop)]
pub struct FedTree {
    pub(crate) piece_length: u64,
    // How many bytes were fed.
    pub(crate) count: u64,
    pub(crate) tree: PieceTree,
    pub(crate) fed: History<u8>,
}

impl Model for FedTree {
    ghost use Rattle.tor_merkle.specs.Feeding.{Feeding};
    ghost use Rattle.tor_merkle.specs.steps.Blocks.{KeepsFed};

    ghost Value = { Feeding };

    ghost view = { λ t. record { piece_length = t.piece_length; bytes = t.fed.items } };

    ghost invariant = { λ t. KeepsFed t.piece_length t.count t.tree t.fed.items };
}

impl FedTree {
    /// How many bytes a piece has.
    pub fn piece_length(&self) -> u64
        ensures value { result ≡ self.now.piece_length }
        ensures allowed { IsPieceLength self.now.piece_length }
        ensures small { self.now.piece_length ≤ MAX_PIECE_LENGTH }
    {
        self.piece_length
    }

    /// The Merkle root of the content (BEP 52, "pieces root"), and the 32-byte hashes of the layer where one covers
    /// one piece, in the order of the pieces ("piece layers"); no hash if there is at most one piece. `None`
    /// if no byte was fed.
    pub fn finish(self) -> Option<(Hash, Vec<Hash>)>
        ensures empty { IsNone result ↔ (self.bytes ≡ []) }
        ensures root { IfSome result (λ sums. sums.0 ≡ pieces_root self.bytes) }
        ensures layer { IfSome result (λ sums. sums.1.items ≡ piece_layer self.bytes self.piece_length) }
    {
        if self.count == 0 {
            return None;
        }
        Some(self.tree.finish())
    }

    /// The root of each piece that was fed, widened by zero leaves to a whole piece, in order: of a run of pieces of
    /// a longer file, its layer's hashes (BEP 52, "piece layers"). It takes no memory.
    pub fn piece_roots(self) -> Vec<Hash>
        ensures { result.items ≡ piece_roots self.bytes self.piece_length }
    {
        self.tree.piece_roots()
    }
}
