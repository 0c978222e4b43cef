//! What contents sum up to: their pieces roots, their piece layers, and the SHA-1 of their pieces.
ghost use Rattle.std.specs.Prelude.{◌≡◌, ◌≤◌, ◌<◌, ◌^◌, All, IfOk, [], length, map, true};
ghost use Rattle.tor_merkle.specs.Layer.{IsPieceLength, piece_layer};
ghost use Rattle.tor_merkle.specs.declared.TheConstants.{MAX_LENGTH};
ghost use Rattle.tor_sums.specs.Sums.{lists_of};
ghost use Rattle.tor_meta.specs.steps.Contents.{bytes_of};
ghost use Rattle.tor_merkle.specs.Layer.{root_of};
ghost use Rattle.tor_v1.specs.Content.{v1_pieces};
ghost use Rattle.tor_v1.specs.Piece.{IsV1PieceLength, max_piece_length};

use std::alloc::{AllocError, Global};
use tor_engine::Sums;
use tor_merkle::{FedTree, Feed, Hash};
use tor_v1::{Entry, PieceSums};

/// Sums of no file.
pub(crate) fn no_sums(alloc: Global) -> Sums
    ensures roots { result.roots.items ≡ [] }
    ensures layers { result.layers.items ≡ [] }
    ensures pieces { result.pieces.items ≡ [] }
{
    Sums {
        lengths: Vec::new(alloc),
        roots: Vec::new(alloc),
        layers: Vec::new(alloc),
        pieces: Vec::new(alloc),
    }
}

/// The pieces root and the layer of each content.
pub(crate) fn sum_trees(
    alloc: Global,
    piece_length: u64,
    contents: &[&[u8]],
) -> Result<(Vec<Option<Hash>>, Vec<Vec<Hash>>), AllocError>
    requires piece { IsPieceLength piece_length }
    requires small { All (λ content. length content.now ≤ MAX_LENGTH) contents.now }
    ensures roots { IfOk result (λ sums. sums.0.items ≡ map root_of (bytes_of contents.entry.now)) }
    ensures layers { IfOk result (λ sums.
        lists_of sums.1.items ≡ map (λ content. piece_layer content piece_length) (bytes_of contents.entry.now)) }
{
    let mut roots = Vec::with_capacity(alloc, contents.len())?;
    let mut layers = Vec::with_capacity(alloc, contents.len())?;
    for content in contents {
        let (root, layer) = sum_tree(alloc, piece_length, content)?;
        roots.push(root)?;
        layers.push(layer)?;
    }
    Ok((roots, layers))
}

/// The pieces root and the layer of one content.
fn sum_tree(
    alloc: Global,
    piece_length: u64,
    content: &[u8],
) -> Result<(Option<Hash>, Vec<Hash>), AllocError>
    requires piece { IsPieceLength piece_length }
    requires small { length content.now ≤ MAX_LENGTH }
    ensures root { IfOk result (λ sums. sums.0 ≡ root_of content.now) }
    ensures layer { IfOk result (λ sums. sums.1.items ≡ piece_layer content.now piece_length) }
{
    let tree = Feed::new(alloc, piece_length).end_with(content)?;
    Ok(tree_of(alloc, tree))
}

/// The pieces root and the layer of the content that was fed.
pub(crate) fn tree_of(alloc: Global, tree: FedTree) -> (Option<Hash>, Vec<Hash>)
    ensures root { result.0 ≡ root_of tree.bytes }
    ensures layer { result.1.items ≡ piece_layer tree.bytes tree.piece_length }
{
    match tree.finish() {
        Some(sums) => {
            let root = sums.0;
            (Some(root), sums.1)
        }
        None => (None, Vec::new(alloc)),
    }
}

/// The joined SHA-1 of each piece of the contents of the entries; padding counts as zeros.
pub(crate) fn sum_pieces(
    alloc: Global,
    piece_length: u64,
    entries: &[Entry],
    contents: &[&[u8]],
) -> Result<Vec<u8>, AllocError>
    requires piece { IsV1PieceLength piece_length }
    requires small { All (λ entry. entry.pad ≡ true → entry.length ≤ max_piece_length) entries.now }
    ensures { IfOk result (λ pieces. pieces.items ≡ v1_pieces piece_length entries.now (bytes_of contents.entry.now)) }
{
    let mut sums = PieceSums::new(alloc, piece_length);
    let mut left = contents.iter();
    for entry in entries {
        if entry.pad {
            sums.feed_zeros(entry.length)?;
            continue;
        }
        let Some(content) = left.next() else {
            continue;
        };
        sums.feed(content)?;
    }
    Ok(sums.finish())
}
