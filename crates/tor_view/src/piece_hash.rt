//! The hash of a piece of a file.
ghost use Rattle.std.specs.Prelude.{◌≡◌, ◌<◌, ◌≤◌, IfOk, length};
ghost use Rattle.tor_merkle.specs.PieceHash.{merkle_hash};
ghost use Rattle.tor_merkle.specs.Block.{leaves};
ghost use Rattle.tor_merkle.specs.Layer.{IsPieceLength, piece_level, pieces_root};
ghost use Rattle.tor_merkle.specs.Stack.{padded_subtree};

use std::alloc::{AllocError, Global};
use tor_merkle::laws::root_of_short_content;
use tor_merkle::{FedTree, Feed, Hash};

/// The Merkle hash of the bytes of a piece, of a file of so many bytes (BEP 52, "piece layers", "pieces root").
pub fn hash_of_piece(
    alloc: Global,
    size: u64,
    piece_length: u64,
    bytes: &[u8],
) -> Result<Hash, AllocError>
    requires allowed { IsPieceLength piece_length }
    requires some { 0 < length bytes.now }
    requires one { length bytes.now ≤ piece_length }
    ensures { IfOk result (λ hash. hash ≡ merkle_hash piece_length size bytes.now) }
{
    let tree = Feed::new(alloc, piece_length).end_with(bytes)?;
    if size > piece_length {
        return Ok(widened_root(tree));
    }
    Ok(plain_root(tree))
}

/// The root of a tree over the bytes of one piece, widened by zero leaves to a whole piece.
fn widened_root(tree: FedTree) -> Hash
    requires some { 0 < length tree.bytes }
    requires one { length tree.bytes ≤ tree.piece_length }
    ensures { result ≡ padded_subtree (piece_level tree.piece_length) 0 (leaves tree.bytes) }
{
    root_of_short_content();
    match tree.piece_roots().first().copied() {
        Some(hash) => hash,
        None => unreachable!(),
    }
}

/// The root of a tree over some bytes.
fn plain_root(tree: FedTree) -> Hash
    requires { 0 < length tree.bytes }
    ensures { result ≡ pieces_root tree.bytes }
{
    match tree.finish() {
        Some(sums) => {
            let hash = sums.0;
            hash
        }
        None => unreachable!(),
    }
}
