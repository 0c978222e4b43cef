//! Whether each piece layer has the length and the root of its files (BEP 52, "piece layers"). A layer is hashed once,
//! however many files have its root.
ghost use Rattle.std.specs.Prelude.{◌≡◌, ◌==◌, ◌≤◌, ◌<◌, ◌*◌, ℕ, Bool, false, not, Some, All, length, slice_get};
ghost use Rattle.std.specs.Prelude.{unwrap_or};
ghost use Rattle.std.specs.Int.{div_ceil};
ghost use Rattle.std.specs.List.{list_any};
ghost use Rattle.std.specs.Str.{bytes_eq};
ghost use Rattle.tor_check.specs.steps.Layers.{IsJudged, IsKept, has_faulty_layer, seen};
ghost use Rattle.tor_merkle.specs.Layer.{IsPieceLength, piece_level};
ghost use Rattle.tor_merkle.specs.Stack.{padded_root};
ghost use Rattle.tor_spec.specs.valid.Layers.{hashes_in, root_of_file};
ghost use Rattle.tor_merkle.specs.declared.TheConstants.{MAX_LENGTH};

use crate::layer_keys::Layers;
use crate::layer_texts::{count_layers, layer_at, root_of};
use std::alloc::Global;
use tor_merkle::laws::piece_roots_fit_a_layer;
use tor_merkle::{layer_root, piece_level};
use tor_tree::TreeFile;

/// Whether a layer is not one hash for each piece of its file, or has not the file's root.
pub fn has_faulty(alloc: Global, layers: &Layers<'_, '_>, files: &[TreeFile]) -> bool
    requires piece_length { IsPieceLength layers.now.piece_length }
    requires small { All (λ file. file.length ≤ MAX_LENGTH) files.now }
    ensures { result ≡ list_any (has_faulty_layer layers.now.piece_length (seen layers.now)) files.now }
{
    let mut memory = no_marks(alloc, count_layers(layers));
    let judged = memory.as_mut_slice();
    'files: for file in files {
        if has_faulty_layer(layers, file, judged) {
            return true;
        }
    }
    false
}

/// A mark for each of so many roots, none of them set. If memory for them is refused, there is none, and each layer is
/// hashed as often as files have it.
fn no_marks(alloc: Global, count: usize) -> Vec<bool>
    ensures { (i : ℕ) (mark : Bool) → slice_get result.items i ≡ Some mark → mark ≡ false }
{
    match vec![in alloc; false; count] {
        Ok(marks) => marks,
        Err(_) => Vec::new(alloc),
    }
}

/// Whether the layer of a file is not one hash for each of its pieces, or has not its root. `judged` has a mark for
/// each root that was found to be that of its layer.
fn has_faulty_layer(layers: &Layers<'_, '_>, file: &TreeFile, judged: &mut [bool]) -> bool
    requires piece_length { IsPieceLength layers.now.piece_length }
    requires small { file.now.length ≤ MAX_LENGTH }
    requires judged { IsKept (IsJudged layers.now.piece_length (seen layers.now)) (seen layers.now) judged.old }
    ensures value { result ≡ has_faulty_layer layers.now.piece_length (seen layers.now) file.now }
    ensures judged { IsKept (IsJudged layers.now.piece_length (seen layers.now)) (seen layers.now) judged.new }
{
    if file.length <= layers.piece_length {
        return false;
    }
    let Some((index, text)) = layer_at(layers, file) else {
        return true;
    };
    if has_other_length(layers.piece_length, text, file) {
        return true;
    }
    if is_marked(judged, index) {
        return false;
    }
    if is_other(layers.piece_length, text, file) {
        return true;
    }
    if index < judged.len() {
        judged[index] = true;
    }
    false
}

/// Whether the mark at an index is there and set.
fn is_marked(judged: &[bool], index: usize) -> bool
    ensures { result ≡ unwrap_or (slice_get judged.now index) false }
{
    index < judged.len() && judged[index]
}

/// Whether the text of a layer is not 32 bytes for each piece of a file.
pub fn has_other_length(piece_length: u64, text: &[u8], file: &TreeFile) -> bool
    requires { 0 < piece_length }
    ensures { result ≡ not (length text.now == 32 * div_ceil file.now.length piece_length) }
{
    text.len() as u128 != 32 * u128::from(file.length.div_ceil(piece_length))
}

/// Whether a file has another root than the layer of this text, which has 32 bytes for each of its pieces.
fn is_other(piece_length: u64, text: &[u8], file: &TreeFile) -> bool
    requires piece_length { IsPieceLength piece_length }
    requires long { piece_length < file.now.length }
    requires small { file.now.length ≤ MAX_LENGTH }
    requires shaped { length text.now ≡ 32 * div_ceil file.now.length piece_length }
    ensures { result
        ≡ not (bytes_eq (padded_root (piece_level piece_length) (hashes_in text.now)) (root_of_file file.now)) }
{
    piece_roots_fit_a_layer();
    let (hashes, _) = text.as_chunks::<32>();
    layer_root(hashes, piece_level(piece_length)).as_slice() != root_of(file)
}
