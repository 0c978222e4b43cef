//! Root and piece layer of a content that is fed in parts, and the roots of the pieces of a part of a longer file.

ghost use Rattle.std.specs.Prelude.{◌≡◌, ◌+◌, ◌^◌, ◌≤◌, ◌↔◌, [], ◌++◌, length, OnOk, OnErr, IsOk, IsNone, IfOk, IfSome};
ghost use Rattle.std.specs.Int.{div_ceil};
ghost use Rattle.tor_merkle.specs.Layer.{IsPieceLength, pieces_root, piece_roots, piece_layer};

use crate::blocks::BlockHasher;
use crate::fed_tree::FedTree;
use crate::hash::Hash;
use crate::piece_length::piece_level;
use crate::{MAX_LENGTH, MAX_PIECE_LENGTH};
use std::alloc::{AllocError, Global};
use std::marker::Model;

/// A content that is fed in parts of any lengths. It keeps one hash a piece, and no leaves.
#[derive(Drop)]
pub struct Feed {
    piece_length: u64,
    blocks: BlockHasher,
}

impl Model for Feed {
    ghost use Rattle.tor_merkle.specs.Feeding.{Feeding};
    ghost use Rattle.tor_merkle.specs.steps.Blocks.{KeepsFeeding};

    ghost Value = { Feeding };

    ghost view = { λ f. record { piece_length = f.piece_length; bytes = f.blocks.bytes } };

    ghost invariant = { λ f. KeepsFeeding f.piece_length f.blocks };
}

impl Feed {
    /// A feed of no byte, for pieces of `piece_length` bytes (BEP 52, "piece length").
    pub fn new(alloc: Global, piece_length: u64) -> Feed
        requires { IsPieceLength piece_length }
        ensures piece_length { result.piece_length ≡ piece_length }
        ensures empty { result.bytes ≡ [] }
    {
        Feed {
            piece_length,
            blocks: BlockHasher::new(alloc, piece_level(piece_length)),
        }
    }

    /// How many bytes were fed.
    pub fn count(&self) -> u64
        ensures value { result ≡ length self.now.bytes }
        ensures small { length self.now.bytes ≤ MAX_LENGTH }
    {
        self.blocks.count()
    }

    /// How many bytes a piece has.
    pub fn piece_length(&self) -> u64
        ensures value { result ≡ self.now.piece_length }
        ensures allowed { IsPieceLength self.now.piece_length }
        ensures small { self.now.piece_length ≤ MAX_PIECE_LENGTH }
    {
        self.piece_length
    }

    /// Adds `bytes` at the end of the content, which has at most 2^50 bytes in all. Memory can only be refused
    /// if they begin a piece.
    pub fn feed(&mut self, bytes: &[u8]) -> Result<(), AllocError>
        requires { length self.old.bytes + length bytes.now ≤ MAX_LENGTH }
        ensures piece_length { self.new.piece_length ≡ self.old.piece_length }
        ensures ok { OnOk result (self.new.bytes ≡ self.old.bytes ++ bytes.now) }
        ensures err { OnErr result (self.new ≡ self.old) }
        ensures within { div_ceil (length self.old.bytes + length bytes.now) self.old.piece_length
            ≤ div_ceil (length self.old.bytes) self.old.piece_length → IsOk result }
    {
        let total = self.blocks.count() + bytes.len() as u64;
        let pieces = total.div_ceil(self.piece_length) as usize;
        self.blocks.reserve(pieces)?;
        self.blocks.feed(bytes);
        Ok(())
    }

    /// The tree over what was fed. It takes no memory.
    pub fn end(self) -> FedTree
        ensures { result ≡ self }
    {
        let Feed {
            piece_length,
            blocks,
        } = self;
        blocks.end(piece_length)
    }

    /// The tree over what was fed and these last bytes, whose blocks are hashed side by side. The content has at most
    /// 2^50 bytes in all. Memory can only be refused if they begin a piece.
    pub fn end_with(self, last: &[u8]) -> Result<FedTree, AllocError>
        requires { length self.bytes + length last.now ≤ MAX_LENGTH }
        ensures piece_length { IfOk result (λ tree. tree.piece_length ≡ self.piece_length) }
        ensures bytes { IfOk result (λ tree. tree.bytes ≡ self.bytes ++ last.now) }
        ensures within { div_ceil (length self.bytes + length last.now) self.piece_length
            ≤ div_ceil (length self.bytes) self.piece_length → IsOk result }
    {
        let Feed {
            piece_length,
            mut blocks,
        } = self;
        let total = blocks.count() + last.len() as u64;
        blocks.reserve(total.div_ceil(piece_length) as usize)?;
        Ok(blocks.end_with(piece_length, last))
    }

    /// The Merkle root of the content (BEP 52, "pieces root"), and the 32-byte hashes of the layer where one covers
    /// one piece, in the order of the pieces ("piece layers"); no hash if there is at most one piece. `None`
    /// if no byte was fed.
    pub fn finish(self) -> Option<(Hash, Vec<Hash>)>
        ensures empty { IsNone result ↔ (self.bytes ≡ []) }
        ensures root { IfSome result (λ sums. sums.0 ≡ pieces_root self.bytes) }
        ensures layer { IfSome result (λ sums. sums.1.items ≡ piece_layer self.bytes self.piece_length) }
    {
        self.end().finish()
    }

    /// The root of each piece that was fed, widened by zero leaves to a whole piece, in order: of a run of pieces of
    /// a longer file, its layer's hashes (BEP 52, "piece layers"). It takes no memory.
    pub fn piece_roots(self) -> Vec<Hash>
        ensures { result.items ≡ piece_roots self.bytes self.piece_length }
    {
        self.end().piece_roots()
    }
}
