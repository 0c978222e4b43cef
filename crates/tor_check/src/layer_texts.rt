//! What the dictionary of piece layers has for a file.
ghost use Rattle.std.specs.Prelude.{◌≡◌, ◌<◌, [], Some, IfSome, length, option_map, slice_get, unwrap_or};
ghost use Rattle.std.specs.Option.{option_copied};
ghost use Rattle.tor_bencode.specs.Find.{keys_in};
ghost use Rattle.tor_check.specs.steps.Layers.{seen};
ghost use Rattle.tor_spec.specs.valid.Layers.{layer_text, root_of_file};

use crate::layer_keys::Layers;
use tor_bencode::ItemRef;
use tor_tree::TreeFile;

/// The joined hashes that the layers have for a file.
pub fn layer_text<'a>(layers: &Layers<'_, 'a>, file: &TreeFile) -> Option<&'a [u8]>
    ensures { option_copied result ≡ layer_text (seen layers.now) file.now }
{
    let (_, text) = layer_at(layers, file)?;
    Some(text)
}

/// The joined hashes that the layers have for a file; no byte, if there are none.
pub fn text_of_layer<'a>(layers: &Layers<'_, 'a>, file: &TreeFile) -> &'a [u8]
    ensures { result.now ≡ unwrap_or (layer_text (seen layers.now) file.now) [] }
{
    layer_text(layers, file).unwrap_or(b"")
}

/// The joined hashes that the layers have for a file, and the index of its root among their keys.
pub fn layer_at<'a>(layers: &Layers<'_, 'a>, file: &TreeFile) -> Option<(usize, &'a [u8])>
    ensures text { option_map (λ found. found.1.now) result ≡ layer_text (seen layers.now) file.now }
    ensures index { IfSome result (λ found.
        slice_get (keys_in (seen layers.now)) found.0 ≡ Some (root_of_file file.now)) }
{
    match layers.item?.get_in_order(root_of(file))? {
        (index, ItemRef::Bytes(text)) => Some((index, text)),
        _ => None,
    }
}

/// How many keys the layers have.
pub fn count_layers(layers: &Layers<'_, '_>) -> usize
    ensures { result ≡ length (keys_in (seen layers.now)) }
{
    match layers.item {
        Some(item) => item.count_keys(),
        None => 0,
    }
}

/// The root of a file; no byte, if it has none.
pub fn root_of(file: &TreeFile) -> &[u8]
    ensures { result.now ≡ root_of_file file.now }
{
    match &file.root {
        Some(root) => root.as_slice(),
        None => b"",
    }
}
