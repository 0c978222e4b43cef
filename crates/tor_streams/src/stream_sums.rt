//! What the contents of readers sum up to, from what their chunks do.
ghost use Rattle.std.specs.Prelude.{◌≡◌, ◌*◌, ◌^◌, ◌<◌, ◌≤◌, ℕ, List, Some, IfOk, length, map};
ghost use Rattle.tor_merkle.specs.Block.{leaves};
ghost use Rattle.tor_merkle.specs.Layer.{IsPieceLength, piece_layer, piece_roots, pieces_root, root_of};
ghost use Rattle.tor_merkle.specs.declared.TheConstants.{BLOCK_LENGTH};
ghost use Rattle.tor_merkle.specs.Stack.{padded_subtree};
ghost use Rattle.tor_streams.specs.Streams.{AreSumsOfContents};
ghost use Rattle.tor_sums.specs.UnitNodes.{node_over};
ghost use Rattle.tor_streams.specs.steps.ChunkNodes.{AreNodesOf, AreNodesOfOne, IsRunNode, IsTreeChunking, SumUpCuts};
ghost use Rattle.tor_streams.specs.steps.Cuts.{IsChunking};
ghost use Rattle.tor_sums.specs.steps.Run.{HasRoomAt};
ghost use Rattle.tor_sums.specs.steps.Trees.{AreTreesOf};

use crate::chunking::Chunking;
use std::alloc::{AllocError, Global};
use tor_merkle::{BLOCK_LENGTH, Hash, height_of, layer_root, layer_subtree, piece_level};
use tor_sums::{FileTrees, Sums, Trees, UnitSums, append, node_over_pieces, sums_with, trees_of};

/// What contents of these lengths sum up to, from what their chunks do, in order.
pub(crate) fn sums_of_chunks(
    alloc: Global,
    chunking: Chunking,
    lengths: Vec<u64>,
    chunks: &[UnitSums],
) -> Result<Sums, AllocError>
    requires cut { IsChunking chunking }
    requires chunks { (contents : List (List ℕ)) × SumUpCuts chunking contents lengths.items chunks.now }
    ensures { (contents : List (List ℕ)) → SumUpCuts chunking contents lengths.items chunks.now →
        IfOk result (AreSumsOfContents chunking.kind chunking.tail chunking.piece_length contents) }
{
    let trees = trees_of_stream(alloc, chunking, &lengths, chunks)?;
    sums_with(alloc, lengths, chunks, trees)
}

/// The trees of contents, if the kind has them.
fn trees_of_stream(
    alloc: Global,
    chunking: Chunking,
    lengths: &[u64],
    chunks: &[UnitSums],
) -> Result<Option<Trees>, AllocError>
    requires cut { IsChunking chunking }
    requires chunks { (contents : List (List ℕ)) × SumUpCuts chunking contents lengths.now chunks.now }
    ensures { (contents : List (List ℕ)) → SumUpCuts chunking contents lengths.now chunks.now →
        IfOk result (AreTreesOf chunking.kind chunking.piece_length contents) }
{
    if !chunking.kind.has_v2() {
        return Ok(None);
    }
    let contents = ChunkTrees {
        chunking,
        rest: chunks,
    };
    let trees = trees_of(alloc, lengths, contents)?;
    Ok(Some(trees))
}

/// The contents that are left: what their chunks sum up to.
#[derive(Drop)]
struct ChunkTrees<'a> {
    chunking: Chunking,
    rest: &'a [UnitSums],
}

impl<'a> FileTrees for ChunkTrees<'a> {
    ghost may_tell = { λ chunks lengths. IsTreeChunking chunks.chunking
        × ((contents : List (List ℕ)) × AreNodesOf chunks.chunking contents lengths chunks.rest.now) };

    ghost are_of = { λ chunks piece_length contents. (piece_length ≡ chunks.chunking.piece_length)
        × AreNodesOf chunks.chunking contents (map length contents) chunks.rest.now };

    // The content has `size` bytes.
    fn next(&mut self, alloc: Global, size: u64) -> Result<(Option<Hash>, Vec<Hash>), AllocError> {
        let count = size.div_ceil(self.chunking.size) as usize;
        let (own, later) = self.rest.split_at(count.min(self.rest.len()));
        self.rest = later;
        let tree = tree_of_content(alloc, self.chunking, size, own)?;
        Ok(tree)
    }
}

/// The root and the layer of one content.
fn tree_of_content(
    alloc: Global,
    chunking: Chunking,
    length: u64,
    own: &[UnitSums],
) -> Result<(Option<Hash>, Vec<Hash>), AllocError>
    requires cut { IsTreeChunking chunking }
    requires own { (content : List ℕ) × AreNodesOfOne chunking content length own.now }
    ensures { (content : List ℕ) → AreNodesOfOne chunking content length own.now → IfOk result (λ tree.
        (tree.0 ≡ root_of content) × (tree.1.items ≡ piece_layer content chunking.piece_length)) }
{
    if length > chunking.size {
        let (root, layer) = tree_of_chunks(alloc, chunking, length, own)?;
        return Ok((Some(root), layer));
    }
    if own.len() == 0 {
        return Ok((None, Vec::new(alloc)));
    }
    let one = &own[0];
    let layer = Vec::from_slice(alloc, &one.layer)?;
    Ok((Some(one.hash), layer))
}

/// The root and the layer of a content of several chunks.
fn tree_of_chunks(
    alloc: Global,
    chunking: Chunking,
    length: u64,
    own: &[UnitSums],
) -> Result<(Hash, Vec<Hash>), AllocError>
    requires cut { IsTreeChunking chunking }
    requires several { chunking.size < length }
    requires own { (content : List ℕ) × AreNodesOfOne chunking content length own.now }
    ensures { (content : List ℕ) → AreNodesOfOne chunking content length own.now → IfOk result (λ tree.
        (tree.0 ≡ pieces_root content) × (tree.1.items ≡ piece_layer content chunking.piece_length)) }
{
    let level = piece_level(chunking.size);
    let mut hashes = Vec::with_capacity(alloc, own.len())?;
    let mut layer = Vec::with_capacity(alloc, length.div_ceil(chunking.piece_length) as usize)?;
    let mut left = length;
    'chunks: for one in own {
        let count = left.min(chunking.size);
        let (hash, below) = node_in_tree(alloc, chunking.piece_length, level, count, one)?;
        hashes.push(hash)?;
        append(&mut layer, below)?;
        left -= count;
    }
    Ok((layer_root(&hashes, level), layer))
}

/// The node that a chunk of so many bytes has at a level of a longer content's tree, and its hashes in the layer.
fn node_in_tree(
    alloc: Global,
    piece_length: u64,
    level: u32,
    count: u64,
    one: &UnitSums,
) -> Result<(Hash, Vec<Hash>), AllocError>
    requires pieces { IsPieceLength piece_length }
    requires room { HasRoomAt piece_length count level }
    requires one { (run : List ℕ) × IsRunNode piece_length count run one.now }
    ensures { (run : List ℕ) → IsRunNode piece_length count run one.now →
        IfOk result (λ node. (node.0, node.1.items) ≡ node_over piece_length (Some level) run) }
{
    let layer = layer_of_chunk(alloc, piece_length, count, one)?;
    Ok(node_over_pieces(piece_length, level, layer))
}

/// The hashes that a chunk of so many bytes has in the layer of a longer content.
fn layer_of_chunk(
    alloc: Global,
    piece_length: u64,
    count: u64,
    one: &UnitSums,
) -> Result<Vec<Hash>, AllocError>
    requires pieces { IsPieceLength piece_length }
    requires one { (run : List ℕ) × IsRunNode piece_length count run one.now }
    ensures { (run : List ℕ) → IsRunNode piece_length count run one.now →
        IfOk result (λ layer. layer.items ≡ piece_roots run piece_length) }
{
    if count > piece_length {
        let layer = Vec::from_slice(alloc, &one.layer)?;
        return Ok(layer);
    }
    let root = widened_root(&one.hash, count, piece_level(piece_length));
    Ok(vec![in alloc; root]?)
}

/// The root of a content of so many bytes, widened by zero leaves to a level.
fn widened_root(root: &Hash, count: u64, level: u32) -> Hash
    requires level { level ≤ 16 }
    requires some { 0 < count }
    requires room { count ≤ BLOCK_LENGTH * 2 ^ level }
    ensures { (content : List ℕ) → length content ≡ count → root.now ≡ pieces_root content →
        result ≡ padded_subtree level 0 (leaves content) }
{
    let height = height_of(count.div_ceil(BLOCK_LENGTH as u64));
    layer_subtree(&[*root], height, level - height)
}
