//! The layers of files, which files of one root share.
ghost use Rattle.std.specs.Prelude.{◌≡◌, None, IfOk, OnOk, length, replicate};
ghost use Rattle.tor_bencode.specs.Find.{keys_in};
ghost use Rattle.tor_check.specs.steps.Layers.{IsKept, IsShared, hashes_of, seen};
ghost use Rattle.tor_check.specs.steps.Views.{layer_for};

use crate::layer_keys::Layers;
use crate::layer_texts::layer_at;
use std::alloc::{AllocError, Global};
use std::sync::ArcSlice;
use tor_merkle::Hash;
use tor_tree::TreeFile;

/// Room for the layers of so many roots.
pub fn no_layers(alloc: Global, count: usize) -> Result<Vec<Option<ArcSlice<Hash>>>, AllocError>
    ensures { IfOk result (λ layers. layers.items ≡ replicate count None) }
{
    let mut layers = Vec::with_capacity(alloc, count)?;
    'roots: for _ in 0..count {
        layers.push(None)?;
    }
    Ok(layers)
}

/// The layer of a file; a file of at most one piece has none. `shared` has the layers of earlier files, each at the
/// index of its root among the keys of the layers.
pub fn layer_of(
    alloc: Global,
    layers: &Layers<'_, '_>,
    file: &TreeFile,
    shared: &mut [Option<ArcSlice<Hash>>],
) -> Result<Option<ArcSlice<Hash>>, AllocError>
    requires one_each { length shared.old ≡ length (keys_in (seen layers.now)) }
    requires shared { IsKept (IsShared (seen layers.now)) (seen layers.now) shared.old }
    ensures value { IfOk result (λ layer.
        hashes_of layer ≡ layer_for layers.now.piece_length (seen layers.now) file.now) }
    ensures shared { IsKept (IsShared (seen layers.now)) (seen layers.now) shared.new }
{
    if file.length <= layers.piece_length {
        return Ok(None);
    }
    let Some((index, text)) = layer_at(layers, file) else {
        return Ok(None);
    };
    if let Some(layer) = &shared[index] {
        return Ok(Some(layer.clone()?));
    }
    let (hashes, _) = text.as_chunks::<32>();
    let layer = ArcSlice::from_slice(alloc, hashes)?;
    shared[index] = Some(layer.clone()?);
    Ok(Some(layer))
}
