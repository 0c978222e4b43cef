//! The piece layers of a torrent (BEP 52, "piece layers"), judged: whether they are there and have their lengths.
ghost use Rattle.std.specs.Prelude.{◌≡◌, ◌<◌, true, false, None, IfErr, OnOk, option_map};
ghost use Rattle.std.specs.List.{list_any};
ghost use Rattle.tor_bencode.specs.Lawful.{HasRisingKeys};
ghost use Rattle.tor_bencode.specs.RefView.{view};
ghost use Rattle.tor_check.specs.steps.Judged.{IsHeadOf, Names, first_in, layer_conditions};
ghost use Rattle.tor_check.specs.steps.Layers.{seen};
ghost use Rattle.tor_check.specs.declared.refusal.Refusal.TheVariants.{LayerAbsent, LayerLength, LayerRoot};
ghost use Rattle.tor_check.specs.steps.Sides.{AreSidesOf, first_of_both};
ghost use Rattle.tor_merkle.specs.Layer.{IsPieceLength};
ghost use Rattle.tor_spec.specs.valid.Layers.{is_long, is_misshaped, lacks_layer, lacks_layers};
ghost use Rattle.tor_spec.specs.valid.Parts.{info_of, kind_of};
ghost use Rattle.tor_tree.specs.Kinds.{has_v2};

use crate::head::CommonKeys;
use crate::layer_keys::{Layers, layers_of};
use crate::layer_roots::{has_faulty, has_other_length};
use crate::layer_texts::{layer_text, text_of_layer};
use crate::refusal::Refusal;
use crate::sides::Sides;
use std::alloc::Global;
use tor_bencode::ItemRef;
use tor_tree::TreeFile;

/// The piece layers of a v2 side: V18 to V21.
pub fn judge_layers(
    alloc: Global,
    root: &ItemRef<'_>,
    head: &CommonKeys<'_, '_>,
    sides: &Sides,
) -> Result<(), Refusal>
    requires keys { HasRisingKeys (view root.now) }
    requires head { IsHeadOf (view root.now) head.now }
    requires sides { AreSidesOf (info_of (view root.now)) sides.now }
    requires judged { first_of_both (info_of (view root.now)) ≡ None }
    requires allowed { has_v2 (kind_of (info_of (view root.now))) ≡ true → IsPieceLength head.now.piece_length }
    ensures accepted { OnOk result (first_in layer_conditions (view root.now) ≡ None) }
    ensures refused { IfErr result (Names (first_in layer_conditions (view root.now))) }
{
    if !head.kind.has_v2() {
        return Ok(());
    }
    let layers = layers_of(root, head.piece_length);
    if lacks_layers(&layers, &sides.files) {
        return Err(Refusal::LayersAbsent);
    }
    // Of most torrents no layer has a fault, and then each is looked for once.
    if has_faulty(alloc, &layers, &sides.files) {
        return Err(fault_of(&layers, &sides.files));
    }
    Ok(())
}

/// What is wrong with the layers of files, of which some layer has a fault.
fn fault_of(layers: &Layers<'_, '_>, files: &[TreeFile]) -> Refusal
    requires some { 0 < layers.now.piece_length }
    ensures absent { list_any (lacks_layer layers.now.piece_length (seen layers.now)) files.now ≡ true
        → result ≡ LayerAbsent }
    ensures misshaped { list_any (lacks_layer layers.now.piece_length (seen layers.now)) files.now ≡ false
        → list_any (is_misshaped layers.now.piece_length (seen layers.now)) files.now ≡ true → result ≡ LayerLength }
    ensures other { list_any (lacks_layer layers.now.piece_length (seen layers.now)) files.now ≡ false
        → list_any (is_misshaped layers.now.piece_length (seen layers.now)) files.now ≡ false → result ≡ LayerRoot }
{
    if lacks_a_layer(layers, files) {
        return Refusal::LayerAbsent;
    }
    if has_misshaped(layers, files) {
        return Refusal::LayerLength;
    }
    Refusal::LayerRoot
}

/// Whether layers are needed and absent, or no dictionary.
fn lacks_layers(layers: &Layers<'_, '_>, files: &[TreeFile]) -> bool
    ensures { result ≡ lacks_layers layers.now.piece_length files.now
        (option_map (λ item. view item.now) layers.now.item) }
{
    match layers.item {
        Some(ItemRef::Dict(_)) => false,
        Some(_) => true,
        None => has_long(layers.piece_length, files),
    }
}

/// Whether a file is longer than a piece.
fn has_long(piece_length: u64, files: &[TreeFile]) -> bool
    ensures { result ≡ list_any (is_long piece_length) files.now }
{
    files.iter().any(|file| file.length > piece_length)
}

/// Whether a file that is to have a layer has none.
fn lacks_a_layer(layers: &Layers<'_, '_>, files: &[TreeFile]) -> bool
    ensures { result ≡ list_any (lacks_layer layers.now.piece_length (seen layers.now)) files.now }
{
    'files: for file in files {
        if lacks_layer(layers, file) {
            return true;
        }
    }
    false
}

fn lacks_layer(layers: &Layers<'_, '_>, file: &TreeFile) -> bool
    ensures { result ≡ lacks_layer layers.now.piece_length (seen layers.now) file.now }
{
    file.length > layers.piece_length && layer_text(layers, file).is_none()
}

/// Whether a layer is not 32 bytes for each piece of its file.
fn has_misshaped(layers: &Layers<'_, '_>, files: &[TreeFile]) -> bool
    requires { 0 < layers.now.piece_length }
    ensures { result ≡ list_any (is_misshaped layers.now.piece_length (seen layers.now)) files.now }
{
    'files: for file in files {
        if is_misshaped(layers, file) {
            return true;
        }
    }
    false
}

fn is_misshaped(layers: &Layers<'_, '_>, file: &TreeFile) -> bool
    requires { 0 < layers.now.piece_length }
    ensures { result ≡ is_misshaped layers.now.piece_length (seen layers.now) file.now }
{
    if file.length <= layers.piece_length {
        return false;
    }
    has_other_length(layers.piece_length, text_of_layer(layers, file), file)
}
