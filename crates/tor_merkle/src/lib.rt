//! The Merkle trees of BitTorrent v2 (BEP 52): a content cut into blocks of 16,384 bytes, its root
//! ("pieces root") and its piece layer ("piece layers").
//!
//! ```rust
//! use tor_merkle::{Feed, leaf};
//!
//! let mut feed = Feed::new(alloc, 16_384);
//! feed.feed(b"ab")?;
//! feed.feed(b"c")?;
//! let sums = feed.finish();
//! assert!(rt; matches!(&sums, Some((root, layer)) if *root == leaf(b"abc") && layer.is_empty()));
//! ```
//!
//! - [`leaf`], [`pair`], [`zero`] (`hash.rt`): the hash of a block, of two hashes, of a subtree past the end.
//! - [`whole`] (`plain.rt`): root and piece layer of a content that lies in memory.
//! - [`Feed`] (`feed.rt`): the same of a content that is fed in parts, or the hashes of a run of pieces of a
//!   longer one; it keeps no leaves. Ended, it is a [`FedTree`] (`fed_tree.rt`). Below them stand the cut into blocks
//!   (`blocks.rt`), of which up to eight are hashed at once (`run.rt`), and the tree of the pieces (`pieces.rt`).
//! - [`Stack`] (`stack.rt`): the root over hashes that come one after another.
//! - [`layer_root`], [`layer_subtree`] (`layer.rt`): that over hashes that lie in a slice. Below them stand eight
//!   neighbouring nodes, hashed at once (`eight.rt`).
//! - [`is_piece_length`], [`piece_level`] (`piece_length.rt`): which numbers of bytes a piece may have, and the level
//!   of its hash.
//! - [`Proof`] (`proof.rt`): that a hash stands at an index of a tree: [`prove`] makes, [`verify`] (`judge.rt`) judges
//!   one, and [`collide`] (`collision.rt`) shows what two different ones for one index are worth. [`proof_count`] and
//!   [`proof_level`] tell over how many hashes those of a file are, and of which level.
//! - [`laws`] (`laws.rt`): laws over the definitions of `specs/`.
//!
//! `digits.rt` has digits in base two, and [`height_of`] a tree; `trail.rt` what came so far, which only proofs read.
#![tactic(auto)]

mod blocks;
mod collision;
mod digits;
mod eight;
mod fed_tree;
mod feed;
mod hash;
mod judge;
pub mod laws;
mod layer;
mod piece_length;
mod pieces;
mod plain;
mod proof;
mod run;
mod stack;
mod trail;

/// How many bytes a block has (BEP 52, "pieces root").
pub const BLOCK_LENGTH: usize = 16_384;

/// How many bytes a piece has at the least (BEP 52, "piece length").
pub const MIN_PIECE_LENGTH: u64 = 16_384;

/// How many bytes a piece has at the most: a limit of this profile.
pub const MAX_PIECE_LENGTH: u64 = 1 << 30;

/// How many bytes a content has at the most: a limit of this profile.
pub const MAX_LENGTH: u64 = 1 << 50;

pub use collision::collide;
pub use digits::height_of;
pub use fed_tree::FedTree;
pub use feed::Feed;
pub use hash::{Hash, leaf, pair, zero};
pub use judge::verify;
pub use layer::{layer_root, layer_subtree};
pub use piece_length::{is_piece_length, piece_level};
pub use plain::whole;
pub use proof::{Proof, ProveError, proof_count, proof_level, prove};
pub use stack::Stack;
