//! The `piece layers` of a torrent (BEP 52, "piece layers").
ghost use Rattle.std.specs.Prelude.{◌≡◌, List, IfOk, length};
ghost use Rattle.std.specs.List.{AllZip};
ghost use Rattle.tor_bencode.specs.Data.{dictionary};
ghost use Rattle.tor_bencode.specs.View.{view, pairs_view};
ghost use Rattle.tor_sums.specs.Sums.{lists_of};
ghost use Rattle.tor_meta.specs.steps.Layers.{pairs_of_map};
ghost use Rattle.tor_spec.specs.Facts.{Facts, listed, layers_in, roots_in};
ghost use Rattle.tor_spec.specs.PieceLayers.{piece_layers};
ghost use Rattle.tor_tree.specs.TidyTree.{HasItsRoot};

use crate::fields::items::{joined_hashes, string};
use std::alloc::{AllocError, Global};
use std::collections::BTreeMap;
use tor_bencode::Item;
use tor_merkle::Hash;
use tor_tree::FilePath;

/// The layer of each file that is longer than one piece, by its root; of files with one root that of the first.
pub fn piece_layers(
    alloc: Global,
    piece_length: u64,
    files: &[(FilePath, u64)],
    roots: &[Option<Hash>],
    layers: &[Vec<Hash>],
) -> Result<Item, AllocError>
    requires rooted { AllZip HasItsRoot files.now roots.now }
    requires layered { length layers.now ≡ length files.now }
    ensures { (facts : List Facts) → listed facts ≡ files.now → roots_in facts ≡ roots.now →
        layers_in facts ≡ lists_of layers.now →
        IfOk result (λ item. view item ≡ dictionary (piece_layers piece_length facts)) }
{
    let by_root = by_root(alloc, piece_length, files, roots, layers)?;
    Ok(Item::Dict(pairs(alloc, by_root)?))
}

/// The joined hashes of each such layer by its root.
fn by_root(
    alloc: Global,
    piece_length: u64,
    files: &[(FilePath, u64)],
    roots: &[Option<Hash>],
    layers: &[Vec<Hash>],
) -> Result<BTreeMap<Hash, Vec<u8>>, AllocError>
    requires rooted { AllZip HasItsRoot files.now roots.now }
    requires layered { length layers.now ≡ length files.now }
    ensures { (facts : List Facts) → listed facts ≡ files.now → roots_in facts ≡ roots.now →
        layers_in facts ≡ lists_of layers.now →
        IfOk result (λ map. pairs_of_map map.entries ≡ piece_layers piece_length facts) }
{
    let mut by_root = BTreeMap::new(alloc);
    let mut left = files.len();
    // From the last file on, so that the first of one root stays.
    'files: while left > 0 {
        left -= 1;
        if files[left].1 > piece_length {
            let Some(root) = roots[left] else {
                unreachable!();
            };
            by_root.insert(root, joined_hashes(alloc, &layers[left])?)?;
        }
    }
    Ok(by_root)
}

/// The pairs of a dictionary that has these layers by their roots.
fn pairs(
    alloc: Global,
    by_root: BTreeMap<Hash, Vec<u8>>,
) -> Result<Vec<(Vec<u8>, Item)>, AllocError>
    ensures { IfOk result (λ pairs. pairs_view pairs.items ≡ pairs_of_map by_root.entries) }
{
    let mut pairs = Vec::with_capacity(alloc, by_root.len())?;
    for (root, layer) in by_root {
        let root = Vec::from_slice(alloc, &root)?;
        pairs.push((root, string(layer)))?;
    }
    Ok(pairs)
}
