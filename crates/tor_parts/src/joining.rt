//! What the files of a plan sum up to, from the hashes of all their pieces.
ghost use Rattle.std.specs.Prelude.{◌≡◌, ◌≤◌, [], All, IfOk, List, None, drop, false, length, map, replicate, take};
ghost use Rattle.std.specs.Prelude.{true, ℕ};
ghost use Rattle.std.specs.Int.{div_ceil};
ghost use Rattle.tor_engine.specs.Rows.{IsRowOf};
ghost use Rattle.tor_sums.specs.Sums.{AreSumsOfPlan, lists_of};
ghost use Rattle.tor_merkle.specs.Layer.{IsPieceLength};
ghost use Rattle.tor_merkle.specs.declared.TheConstants.{MAX_LENGTH};
ghost use Rattle.tor_parts.specs.steps.Trees.{AreNoTrees, AreTreesOver};
ghost use Rattle.tor_parts.specs.Joining.{layer_over, layers_over, pieces_of_lengths, root_over, roots_over};
ghost use Rattle.tor_tree.specs.Kinds.{has_v2};

use std::alloc::{AllocError, Global};
use tor_engine::Sums;
use tor_merkle::laws::piece_roots_fit_a_layer;
use tor_merkle::{Hash, layer_root, piece_level};
use tor_plan::Plan;
use tor_tree::Kind;

/// What the files of a plan sum up to, from the hashes of all their pieces, one piece after another, and from the
/// joined SHA-1 of the pieces. Whatever the hashes are, a file of several pieces has its own as its layer, and the root
/// over them; a file of one piece has its hash as its root, and no layer; a V1 has neither.
pub fn join_sums(
    alloc: Global,
    plan: &Plan,
    hashes: &[Hash],
    pieces: Vec<u8>,
) -> Result<Sums, AllocError>
    requires counted { has_v2 plan.now.kind ≡ true →
        length hashes.now ≡ pieces_of_lengths plan.now.piece_length plan.now.lengths }
    ensures lengths { IfOk result (λ sums. sums.lengths.items ≡ plan.now.lengths) }
    ensures roots { has_v2 plan.now.kind ≡ true → IfOk result (λ sums.
        sums.roots.items ≡ roots_over plan.now.piece_length plan.now.lengths hashes.now) }
    ensures layers { has_v2 plan.now.kind ≡ true → IfOk result (λ sums.
        lists_of sums.layers.items ≡ layers_over plan.now.piece_length plan.now.lengths hashes.now) }
    ensures bare { has_v2 plan.now.kind ≡ false → IfOk result (λ sums.
        (sums.roots.items ≡ replicate (length plan.now.lengths) None)
        × (lists_of sums.layers.items ≡ replicate (length plan.now.lengths) [])) }
    ensures pieces { IfOk result (λ sums. sums.pieces.items ≡ pieces.items) }
    ensures summed { (contents : List (List ℕ)) → map length contents ≡ plan.now.lengths →
        IsRowOf plan.now contents plan.now.units hashes.now pieces.items →
        IfOk result (AreSumsOfPlan plan.now contents) }
{
    // What every plan keeps to is told with its units.
    let _planned = plan.units();
    let lengths = Vec::from_slice(alloc, plan.lengths())?;
    let trees = trees_of_kind(alloc, plan.kind(), plan.piece_length(), &lengths, hashes)?;
    let Trees { roots, layers } = trees;
    Ok(Sums {
        lengths,
        roots,
        layers,
        pieces,
    })
}

/// The root and the layer of each file, in their order.
#[derive(Drop)]
struct Trees {
    roots: Vec<Option<Hash>>,
    layers: Vec<Vec<Hash>>,
}

/// The root and the layer of each file, whose pieces have these hashes, if the kind has trees; else none.
fn trees_of_kind(
    alloc: Global,
    kind: Kind,
    piece_length: u64,
    lengths: &[u64],
    hashes: &[Hash],
) -> Result<Trees, AllocError>
    requires piece { has_v2 kind ≡ true → IsPieceLength piece_length }
    requires small { All (λ m. m ≤ MAX_LENGTH) lengths.now }
    requires counted { has_v2 kind ≡ true → length hashes.now ≡ pieces_of_lengths piece_length lengths.now }
    ensures trees { has_v2 kind ≡ true → IfOk result (AreTreesOver piece_length lengths.now hashes.now) }
    ensures none { has_v2 kind ≡ false → IfOk result (AreNoTrees lengths.now) }
{
    if kind.has_v2() {
        trees_over(alloc, piece_length, lengths, hashes)
    } else {
        no_trees(alloc, lengths)
    }
}

/// The root and the layer of each file, whose pieces have these hashes.
fn trees_over(
    alloc: Global,
    piece_length: u64,
    lengths: &[u64],
    hashes: &[Hash],
) -> Result<Trees, AllocError>
    requires piece { IsPieceLength piece_length }
    requires small { All (λ m. m ≤ MAX_LENGTH) lengths.now }
    requires counted { length hashes.now ≡ pieces_of_lengths piece_length lengths.now }
    ensures { IfOk result (AreTreesOver piece_length lengths.now hashes.now) }
{
    let mut roots = Vec::with_capacity(alloc, lengths.len())?;
    let mut layers = Vec::with_capacity(alloc, lengths.len())?;
    let mut rest = hashes;
    'files: for length in lengths {
        let (own, later) = own_of(piece_length, *length, rest);
        rest = later;
        let layer = layer_over(alloc, piece_length, *length, own)?;
        roots.push(root_over(piece_length, *length, own))?;
        layers.push(layer)?;
    }
    Ok(Trees { roots, layers })
}

/// The hashes of the pieces of a file, and those of later files.
fn own_of<'a>(piece_length: u64, size: u64, hashes: &'a [Hash]) -> (&'a [Hash], &'a [Hash])
    requires piece { IsPieceLength piece_length }
    requires there { div_ceil size piece_length ≤ length hashes.now }
    ensures own { result.0.now ≡ take (div_ceil size piece_length) hashes.now }
    ensures later { result.1.now ≡ drop (div_ceil size piece_length) hashes.now }
{
    hashes.split_at(size.div_ceil(piece_length) as usize)
}

/// The root of a file of so many bytes whose pieces have these hashes.
fn root_over(piece_length: u64, size: u64, own: &[Hash]) -> Option<Hash>
    requires piece { IsPieceLength piece_length }
    requires small { size ≤ MAX_LENGTH }
    requires counted { length own.now ≡ div_ceil size piece_length }
    ensures { result ≡ root_over piece_length size own.now }
{
    piece_roots_fit_a_layer();
    if size <= piece_length {
        own.first().copied()
    } else {
        Some(layer_root(own, piece_level(piece_length)))
    }
}

/// Its layer.
fn layer_over(
    alloc: Global,
    piece_length: u64,
    size: u64,
    own: &[Hash],
) -> Result<Vec<Hash>, AllocError>
    ensures { IfOk result (λ layer. layer.items ≡ layer_over piece_length size own.now) }
{
    if size <= piece_length {
        Ok(Vec::new(alloc))
    } else {
        Vec::from_slice(alloc, own)
    }
}

/// No root and no hash of a layer for each of these files.
fn no_trees(alloc: Global, lengths: &[u64]) -> Result<Trees, AllocError>
    ensures { IfOk result (AreNoTrees lengths.now) }
{
    let mut roots = Vec::with_capacity(alloc, lengths.len())?;
    let mut layers = Vec::with_capacity(alloc, lengths.len())?;
    'files: for _ in 0..lengths.len() {
        roots.push(None)?;
        layers.push(Vec::new(alloc))?;
    }
    Ok(Trees { roots, layers })
}
