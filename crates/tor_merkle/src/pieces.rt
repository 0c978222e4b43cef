//! The tree over leaves that come one after another, piece by piece.

ghost use Rattle.std.specs.Prelude.{◌≡◌, ◌+◌, ◌-◌, ◌^◌, ◌<◌, ◌≤◌, [], ◌∷◌, ◌++◌, length, OnOk};
ghost use Rattle.std.specs.Prelude.{IsOk, nat_le, if◌then◌else◌, vec_len, vec_capacity};
ghost use Rattle.std.specs.Int.{div_ceil};
ghost use Rattle.tor_merkle.specs.steps.Node.{nodes};
ghost use Rattle.tor_merkle.specs.Stack.{padded_root};
ghost use Rattle.tor_merkle.specs.steps.Pieces.{EndsPiece, ClosesPiece};

use crate::hash::Hash;
use crate::stack::Stack;
use crate::trail::History;
use std::alloc::{AllocError, Global};
use std::marker::Model;

// One stack for the leaves of the present piece, one for the pieces before it, and the layer. A
// piece is closed when the leaf after it comes, so that the only piece of a content never is.
#[derive(Drop)]
pub(crate) struct PieceTree {
    // A piece has 2^height blocks.
    height: u32,
    blocks: Stack,
    pieces: Stack,
    layer: Vec<Hash>,
    leaves: History<Hash>,
}

impl Model for PieceTree {
    ghost use Rattle.std.specs.Prelude.{vec_capacity};
    ghost use Rattle.tor_merkle.specs.steps.Pieces.{Growing, KeepsPieces};

    ghost Value = { Growing };

    ghost view = { λ t. record { height = t.height; leaves = t.leaves.items; capacity = vec_capacity t.layer } };

    ghost invariant = { λ t. KeepsPieces t.height t.leaves.items t.blocks t.pieces t.layer.items };
}

impl PieceTree {
    pub(crate) fn new(alloc: Global, height: u32) -> PieceTree
        requires { height ≤ 16 }
        ensures height { result.height ≡ height }
        ensures leaves { result.leaves ≡ [] }
    {
        PieceTree {
            height,
            blocks: Stack::new(0),
            pieces: Stack::new(height),
            layer: Vec::new(alloc),
            leaves: History::new(),
        }
    }

    // Makes room for the hashes of so many pieces.
    pub(crate) fn reserve(&mut self, pieces: usize) -> Result<(), AllocError>
        ensures height { self.new.height ≡ self.old.height }
        ensures leaves { self.new.leaves ≡ self.old.leaves }
        ensures kept { self.old.capacity ≤ self.new.capacity }
        ensures room { OnOk result (pieces ≤ self.new.capacity) }
        ensures there { pieces ≤ self.old.capacity → IsOk result }
    {
        self.layer.reserve(pieces.saturating_sub(self.layer.len()))
    }

    // Adds the leaf of the next block.
    pub(crate) fn push(&mut self, leaf: Hash)
        requires small { length self.old.leaves < 2 ^ 36 }
        requires room { div_ceil (length self.old.leaves) (2 ^ self.old.height) ≤ self.old.capacity }
        ensures height { self.new.height ≡ self.old.height }
        ensures leaves { self.new.leaves ≡ self.old.leaves ++ leaf ∷ [] }
        ensures capacity { self.old.capacity ≤ self.new.capacity }
    {
        let leaves = self.leaves.with(&[leaf]);
        if self.blocks.len() == 1 << self.height {
            close_piece(
                self.height,
                &mut self.blocks,
                &mut self.pieces,
                &mut self.layer,
            );
        }
        self.blocks.push(leaf);
        self.leaves = leaves;
    }

    // Adds the leaves of the next blocks.
    pub(crate) fn push_all(&mut self, leaves: &[Hash])
        requires small { length self.old.leaves + length leaves.now ≤ 2 ^ 36 }
        requires room { div_ceil (length self.old.leaves + length leaves.now) (2 ^ self.old.height)
            ≤ self.old.capacity }
        ensures height { self.new.height ≡ self.old.height }
        ensures leaves { self.new.leaves ≡ self.old.leaves ++ leaves.now }
        ensures capacity { self.old.capacity ≤ self.new.capacity }
    {
        'leaves: for leaf in leaves {
            self.push(*leaf);
        }
    }

    // The root of the tree over all leaves, and the hashes of the pieces if there is more than one.
    pub(crate) fn finish(self) -> (Hash, Vec<Hash>)
        requires some { 0 < length self.leaves }
        requires room { div_ceil (length self.leaves) (2 ^ self.height) ≤ self.capacity }
        ensures root { result.0 ≡ padded_root 0 self.leaves }
        ensures layer { result.1.items
            ≡ (if nat_le (length self.leaves) (2 ^ self.height) then [] else nodes 0 self.leaves self.height) }
    {
        let PieceTree {
            height,
            mut blocks,
            mut pieces,
            mut layer,
            leaves: _leaves,
        } = self;
        if pieces.is_empty() {
            return (blocks.root(), layer);
        }
        close_piece(height, &mut blocks, &mut pieces, &mut layer);
        (pieces.root(), layer)
    }

    // The hash of each piece, the last widened if it is short.
    pub(crate) fn piece_roots(self) -> Vec<Hash>
        requires { div_ceil (length self.leaves) (2 ^ self.height) ≤ self.capacity }
        ensures { result.items ≡ nodes 0 self.leaves self.height }
    {
        let PieceTree {
            height,
            mut blocks,
            mut pieces,
            mut layer,
            leaves: _leaves,
        } = self;
        if !blocks.is_empty() {
            close_piece(height, &mut blocks, &mut pieces, &mut layer);
        }
        layer
    }
}

// Ends the present piece, widened by zero subtrees if it is short.
fn close_piece(height: u32, blocks: &mut Stack, pieces: &mut Stack, layer: &mut Vec<Hash>)
    requires { EndsPiece height blocks.old pieces.old (vec_len layer.old) (vec_capacity layer.old) }
    ensures closed { ClosesPiece height blocks.old blocks.new pieces.old pieces.new layer.old.items layer.new.items }
    ensures capacity { vec_capacity layer.old ≤ vec_capacity layer.new }
{
    let hash = blocks.subtree(height);
    *blocks = Stack::new(0);
    pieces.push(hash);
    // There is room.
    let _ = layer.push(hash);
}
