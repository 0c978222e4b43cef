//! Bytes that come in parts, cut into blocks, whose leaves go into the tree of the pieces.

ghost use Rattle.std.specs.Prelude.{◌≡◌, ◌+◌, ◌*◌, ◌%◌, ◌^◌, ◌<◌, ◌≤◌, ◌↔◌, []};
ghost use Rattle.std.specs.Prelude.{◌-◌, ◌++◌, length, OnOk, IsOk};
ghost use Rattle.std.specs.Int.{div_ceil};
ghost use Rattle.tor_merkle.specs.declared.run.TheConstants.{RUN_LENGTH};
ghost use Rattle.tor_merkle.specs.steps.Blocks.{FitsBlock, FitsRun, KeepsFeeding, after_bytes};

use crate::fed_tree::FedTree;
use crate::pieces::PieceTree;
use crate::run::{LEAST_RUN, RUN_LENGTH, push_run};
use crate::trail::History;
use crate::{BLOCK_LENGTH, MAX_LENGTH};
use sha2::{Digest, Sha256};
use std::alloc::{AllocError, Global};
use std::marker::Model;

// The running hash of the present block, and the tree over the blocks before it.
#[derive(Drop)]
pub(crate) struct BlockHasher {
    count: u64,
    hasher: Sha256,
    tree: PieceTree,
    fed: History<u8>,
}

impl Model for BlockHasher {
    ghost use Rattle.tor_merkle.specs.steps.Blocks.{Blocks, KeepsBlocks};

    ghost Value = { Blocks };

    ghost view = { λ b. record { height = b.tree.height; bytes = b.fed.items; capacity = b.tree.capacity } };

    ghost invariant = { λ b. KeepsBlocks b.count b.hasher b.tree.leaves b.fed.items };
}

impl BlockHasher {
    // For pieces of 2^height blocks.
    pub(crate) fn new(alloc: Global, height: u32) -> BlockHasher
        requires { height ≤ 16 }
        ensures height { result.height ≡ height }
        ensures bytes { result.bytes ≡ [] }
    {
        BlockHasher {
            count: 0,
            hasher: Sha256::new(),
            tree: PieceTree::new(alloc, height),
            fed: History::new(),
        }
    }

    // How many bytes were fed.
    pub(crate) fn count(&self) -> u64
        ensures { result ≡ length self.now.bytes }
    {
        self.count
    }

    // Makes room for the hashes of so many pieces.
    pub(crate) fn reserve(&mut self, pieces: usize) -> Result<(), AllocError>
        ensures height { self.new.height ≡ self.old.height }
        ensures bytes { self.new.bytes ≡ self.old.bytes }
        ensures kept { self.old.capacity ≤ self.new.capacity }
        ensures room { OnOk result (pieces ≤ self.new.capacity) }
        ensures there { pieces ≤ self.old.capacity → IsOk result }
    {
        self.tree.reserve(pieces)
    }

    // Adds bytes of any number, for whose pieces there is room.
    pub(crate) fn feed(&mut self, bytes: &[u8])
        requires small { length self.old.bytes + length bytes.now ≤ MAX_LENGTH }
        requires room { div_ceil (length self.old.bytes + length bytes.now) (BLOCK_LENGTH * 2 ^ self.old.height)
            ≤ self.old.capacity }
        ensures height { self.new.height ≡ self.old.height }
        ensures bytes { self.new.bytes ≡ self.old.bytes ++ bytes.now }
        ensures capacity { self.old.capacity ≤ self.new.capacity }
    {
        let mut rest = bytes;
        'parts: while !rest.is_empty() {
            if self.count % BLOCK_LENGTH as u64 == 0 && rest.len() >= LEAST_RUN {
                let blocks = rest.len().min(RUN_LENGTH) / BLOCK_LENGTH;
                let (run, later) = rest.split_at(blocks * BLOCK_LENGTH);
                self.add_run(run);
                rest = later;
            } else {
                let length = rest.len().min(self.room_in_block());
                let (part, later) = rest.split_at(length);
                self.add(part);
                rest = later;
            }
        }
    }

    // Adds at most eight whole blocks, if none is begun.
    fn add_run(&mut self, run: &[u8])
        requires { FitsRun self.old run.now }
        ensures height { self.new.height ≡ self.old.height }
        ensures bytes { self.new.bytes ≡ self.old.bytes ++ run.now }
        ensures capacity { self.old.capacity ≤ self.new.capacity }
    {
        let fed = self.fed.with(run);
        push_run(&mut self.tree, run);
        self.count += run.len() as u64;
        self.fed = fed;
    }

    // How many bytes the present block lacks.
    fn room_in_block(&self) -> usize
        ensures { result + length self.now.bytes % BLOCK_LENGTH ≡ BLOCK_LENGTH }
    {
        BLOCK_LENGTH - (self.count % BLOCK_LENGTH as u64) as usize
    }

    // Adds bytes of one block.
    fn add(&mut self, part: &[u8])
        requires { FitsBlock self.old part.now }
        ensures height { self.new.height ≡ self.old.height }
        ensures bytes { self.new.bytes ≡ self.old.bytes ++ part.now }
        ensures capacity { self.old.capacity ≤ self.new.capacity }
    {
        let fed = self.fed.with(part);
        self.hasher.update(part);
        self.count += part.len() as u64;
        if self.count % BLOCK_LENGTH as u64 == 0 {
            let leaf = self.hasher.finalize_reset();
            self.tree.push(leaf);
        }
        self.fed = fed;
    }

    // The tree with the leaf of the last block, whole or short, for pieces of so many bytes.
    pub(crate) fn end(self, piece_length: u64) -> FedTree
        requires { KeepsFeeding piece_length self }
        ensures piece_length { result.piece_length ≡ piece_length }
        ensures bytes { result.bytes ≡ self.bytes }
    {
        let BlockHasher {
            count,
            hasher,
            mut tree,
            fed,
        } = self;
        let leaf = hasher.finalize();
        if count % BLOCK_LENGTH as u64 > 0 {
            tree.push(leaf);
        }
        FedTree {
            piece_length,
            count,
            tree,
            fed,
        }
    }

    // Adds the last bytes, for whose pieces there is room, and gives the tree for pieces of so many bytes.
    pub(crate) fn end_with(self, piece_length: u64, last: &[u8]) -> FedTree
        requires { KeepsFeeding piece_length (after_bytes self last.now) }
        ensures piece_length { result.piece_length ≡ piece_length }
        ensures bytes { result.bytes ≡ self.bytes ++ last.now }
    {
        let mut blocks = self;
        let (front, run) = last.split_at(last.len() - blocks.last_run(last.len()));
        blocks.feed(front);
        if run.is_empty() {
            return blocks.end(piece_length);
        }
        blocks.end_with_run(piece_length, run)
    }

    // How many of so many last bytes are hashed at once, from the beginning of a block on; none if they are few.
    fn last_run(&self, count: usize) -> usize
        ensures within { result ≤ count }
        ensures few { result ≤ RUN_LENGTH }
        ensures whole { 0 < result → (length self.now.bytes + (count - result)) % BLOCK_LENGTH ≡ 0 }
    {
        let begun = self.room_in_block() % BLOCK_LENGTH;
        let run = count.saturating_sub(begun) % RUN_LENGTH;
        if run < LEAST_RUN { 0 } else { run }
    }

    // The tree with the leaves of at most eight last blocks, if none is begun.
    fn end_with_run(self, piece_length: u64, run: &[u8]) -> FedTree
        requires keeps { KeepsFeeding piece_length (after_bytes self run.now) }
        requires whole { length self.bytes % BLOCK_LENGTH ≡ 0 }
        requires few { length run.now ≤ RUN_LENGTH }
        ensures piece_length { result.piece_length ≡ piece_length }
        ensures bytes { result.bytes ≡ self.bytes ++ run.now }
    {
        let BlockHasher {
            count,
            hasher: _,
            mut tree,
            fed,
        } = self;
        push_run(&mut tree, run);
        FedTree {
            piece_length,
            count: count + run.len() as u64,
            tree,
            fed: fed.with(run),
        }
    }
}
