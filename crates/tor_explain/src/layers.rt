//! What is wrong with piece layers: V18 to V21.
ghost use Rattle.std.specs.Prelude.{◌<◌, ◌≡◌, false, true, IfSome, length};
ghost use Rattle.tor_bencode.specs.Lawful.{HasRisingKeys};
ghost use Rattle.tor_bencode.specs.RefView.{view};

use crate::line::Line;
use crate::shape::{Shape, tell_shape};
use crate::sums::piece_length_of;
use std::alloc::{AllocError, Global};
use tor_bencode::ItemRef;
use tor_bencode::laws::values_have_rising_keys;
use tor_merkle::{is_piece_length, layer_root, piece_level};
use tor_tree::{TreeFault, TreeFile, from_item_ref};

/// What is looked for in the layer of a file that is longer than a piece.
#[derive(Clone, Copy)]
pub(crate) enum Lack {
    /// It is not there: V19.
    Absent,
    /// It has not 32 bytes for each piece: V20.
    Length,
    /// It has not the root of its file: V21.
    Root,
}

/// Tells that the layers are no dictionary, or absent where a file needs one.
pub(crate) fn tell_no_layers(
    alloc: Global,
    line: &mut Line,
    root: &ItemRef<'_>,
    info: &ItemRef<'_>,
) -> Result<bool, AllocError>
    ensures nothing { result ≡ Ok false → line.new ≡ line.old }
    ensures told { result ≡ Ok true → 0 < length line.new }
{
    if let Some(layers) = root.get(b"piece layers") {
        return Ok(tell_shape(line, "piece layers", Some(layers), Shape::Dictionary));
    }
    'files: for file in &files_of_tree(alloc, info)? {
        if file.length > piece_length_of(info) {
            line.say("piece layers: not there, and ");
            line.cite_path(&file.path);
            line.say(" is longer than a piece");
            return Ok(true);
        }
    }
    Ok(false)
}

/// Tells the first file whose layer lacks something.
pub(crate) fn tell_layer(
    alloc: Global,
    line: &mut Line,
    lack: Lack,
    root: &ItemRef<'_>,
    info: &ItemRef<'_>,
) -> Result<bool, AllocError>
    requires { HasRisingKeys (view root.now) }
    ensures nothing { result ≡ Ok false → line.new ≡ line.old }
    ensures told { result ≡ Ok true → 0 < length line.new }
{
    let Some(layers) = layers_of(root) else {
        return Ok(false);
    };
    let mut right = vec![in alloc; false; layers.count_keys()]?;
    'files: for file in &files_of_tree(alloc, info)? {
        if file.length > piece_length_of(info)
            && tell_file(line, lack, layers, piece_length_of(info), file, &mut right)
        {
            return Ok(true);
        }
    }
    Ok(false)
}

fn layers_of<'t, 'a>(root: &'t ItemRef<'a>) -> Option<&'t ItemRef<'a>>
    requires { HasRisingKeys (view root.now) }
    ensures { IfSome result (λ layers. HasRisingKeys (view layers.now)) }
{
    values_have_rising_keys();
    root.get(b"piece layers")
}

/// The files of the file tree; none if it has a fault.
pub(crate) fn files_of_tree(
    alloc: Global,
    info: &ItemRef<'_>,
) -> Result<Vec<TreeFile>, AllocError> {
    let Some(tree) = info.get(b"file tree") else {
        return Ok(Vec::new(alloc));
    };
    match from_item_ref(alloc, tree) {
        Ok(files) => Ok(files),
        Err(TreeFault::Memory) => Err(AllocError),
        Err(_) => Ok(Vec::new(alloc)),
    }
}

// Of layers that were found to have their root, `right` has the index.
fn tell_file(
    line: &mut Line,
    lack: Lack,
    layers: &ItemRef<'_>,
    piece_length: u64,
    file: &TreeFile,
    right: &mut [bool],
) -> bool
    requires rising { HasRisingKeys (view layers.now) }
    requires some { 0 < piece_length }
    ensures nothing { result ≡ false → line.new ≡ line.old }
    ensures told { result ≡ true → 0 < length line.new }
{
    let root: &[u8] = match &file.root {
        Some(root) => root.as_slice(),
        None => b"",
    };
    let Some((index, ItemRef::Bytes(text))) = layers.get_in_order(root) else {
        return tell_absent(line, file);
    };
    match lack {
        Lack::Absent => false,
        Lack::Length => tell_length(
            line,
            file,
            text.len() as u64,
            file.length.div_ceil(piece_length),
        ),
        Lack::Root => {
            if right.get(index) == Some(&true) {
                return false;
            }
            if is_root_of(text, piece_length, root) {
                if index < right.len() {
                    right[index] = true;
                }
                return false;
            }
            tell_other_root(line, file)
        }
    }
}

fn tell_absent(line: &mut Line, file: &TreeFile) -> bool
    ensures nothing { result ≡ false → line.new ≡ line.old }
    ensures told { result ≡ true → 0 < length line.new }
{
    line.say("piece layers: no hash list for the root of ");
    line.cite_path(&file.path);
    true
}

fn tell_length(line: &mut Line, file: &TreeFile, size: u64, pieces: u64) -> bool
    ensures nothing { result ≡ false → line.new ≡ line.old }
    ensures told { result ≡ true → 0 < length line.new }
{
    if u128::from(size) == 32 * u128::from(pieces) {
        return false;
    }
    line.say("piece layers: ");
    line.number(size);
    line.say(" bytes for ");
    line.cite_path(&file.path);
    line.say(", where 32 for each of ");
    line.number(pieces);
    line.say(" pieces have to be");
    true
}

fn tell_other_root(line: &mut Line, file: &TreeFile) -> bool
    ensures nothing { result ≡ false → line.new ≡ line.old }
    ensures told { result ≡ true → 0 < length line.new }
{
    line.say("piece layers: the hashes for ");
    line.cite_path(&file.path);
    line.say(" do not give its pieces root");
    true
}

// Whether the hashes of this text give the root.
fn is_root_of(text: &[u8], piece_length: u64, root: &[u8]) -> bool {
    if !is_piece_length(piece_length) {
        return false;
    }
    let level = piece_level(piece_length);
    let (hashes, _) = text.as_chunks::<32>();
    if hashes.is_empty() || hashes.len() as u64 > 2_u64.pow(36 - level) {
        return false;
    }
    layer_root(hashes, level).as_slice() == root
}
