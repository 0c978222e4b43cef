//! What the sides of a torrent tell of its files.
ghost use Rattle.std.specs.Prelude.{◌≡◌, ◌<◌, ◌^◌, IfOk, IfNone, map, sum_by};
ghost use Rattle.tor_check.specs.steps.Layers.{seen};
ghost use Rattle.tor_check.specs.steps.Listed.{files_from};
ghost use Rattle.tor_check.specs.steps.Views.{viewed};
ghost use Rattle.tor_check.specs.declared.listed.Listed.{Listed as ListedFacts};
ghost use Rattle.tor_spec.specs.valid.Layers.{pieces_in};
ghost use Rattle.tor_spec.specs.valid.ListSide.{without_padding};
ghost use Rattle.tor_spec.specs.valid.View.{entry_of_file, file_of_both, file_of_list, lettered};
ghost use Rattle.tor_check.specs.steps.Listed.{file_of_listed};

use crate::layer_keys::Layers;
use crate::layer_texts::count_layers;
use crate::listed::Listed;
use crate::marks::Marks;
use crate::shared_layers::{layer_of, no_layers};
use crate::torrent::ViewFile;
use std::alloc::{AllocError, Global};
use tor_tree::{FilePath, TreeFile};
use tor_v1::{Entry, pad_entry};

/// Gives each file of a tree the letters of both sides: its own, if the tree has its `attr`, or else those that the v1
/// side has for it.
pub fn take_letters(files: &mut Vec<TreeFile>, listed: &[Listed])
    ensures { files.new.items ≡ lettered (without_padding (files_from listed.now)) files.old.items }
{
    let mut count = 0;
    'listed: for one in listed {
        if one.path.is_none() {
            continue;
        }
        if count == files.len() {
            return;
        }
        add_letters(&mut files[count], one);
        count += 1;
    }
}

/// Gives a file of a tree the letters of the v1 side, if the tree has no `attr` of the file.
fn add_letters(file: &mut TreeFile, listed: &Listed)
    ensures { file.new ≡ file_of_both (file_of_listed listed.now) file.old }
{
    if file.has_attr {
        return;
    }
    file.has_attr = listed.marks.has_attr;
    file.exec = listed.marks.exec;
    file.hidden = listed.marks.hidden;
}

/// The files of a tree, each with its layer.
pub fn views_of_tree(
    alloc: Global,
    layers: &Layers<'_, '_>,
    files: Vec<TreeFile>,
) -> Result<Vec<ViewFile>, AllocError>
    ensures { IfOk result (λ views. views.items ≡ map (viewed layers.now.piece_length (seen layers.now)) files.items) }
{
    let mut memory = no_layers(alloc, count_layers(layers))?;
    let shared = memory.as_mut_slice();
    let mut views = Vec::with_capacity(alloc, files.len())?;
    'files: for file in files {
        let layer = layer_of(alloc, layers, &file, shared)?;
        views.push(ViewFile { file, layer })?;
    }
    Ok(views)
}

/// The files of the v1 side, without padding.
pub fn views_of_list(alloc: Global, listed: Vec<Listed>) -> Result<Vec<ViewFile>, AllocError>
    ensures { IfOk result (λ views. views.items ≡ map file_of_list (without_padding (files_from listed.items))) }
{
    let mut views = Vec::with_capacity(alloc, listed.len())?;
    'listed: for Listed { path, marks } in listed {
        if let Some(path) = path {
            views.push(view_of(path, marks))?;
        }
    }
    Ok(views)
}

/// A file of the v1 side.
fn view_of(path: FilePath, marks: Marks) -> ViewFile
    ensures { result ≡ file_of_list (file_of_listed (record { path = Some path; marks = marks })) }
{
    ViewFile {
        file: TreeFile {
            path,
            length: marks.length.unsigned_abs(),
            root: None,
            has_attr: marks.has_attr,
            exec: marks.exec,
            hidden: marks.hidden,
        },
        layer: None,
    }
}

/// The entries of the v1 side, padding among them.
pub fn entries_of(alloc: Global, listed: &[Listed]) -> Result<Vec<Entry>, AllocError>
    ensures { IfOk result (λ entries. entries.items ≡ map entry_of_file (files_from listed.now)) }
{
    let mut entries = Vec::with_capacity(alloc, listed.len())?;
    'listed: for file in listed {
        entries.push(entry_of(alloc, file)?)?;
    }
    Ok(entries)
}

fn entry_of(alloc: Global, file: &Listed) -> Result<Entry, AllocError>
    ensures { IfOk result (λ entry. entry ≡ entry_of_file (file_of_listed file.now)) }
{
    let length = file.marks.length.unsigned_abs();
    match &file.path {
        Some(path) => Ok(Entry {
            path: path.copy(alloc)?,
            length,
            pad: false,
            exec: file.marks.exec,
            hidden: file.marks.hidden,
        }),
        None => pad_entry(alloc, length),
    }
}

/// How many pieces the files of a tree have, each counted by itself.
pub fn pieces_of_tree(piece_length: u64, files: &[TreeFile]) -> u64
    requires some { 0 < piece_length }
    requires few { sum_by (λ file. pieces_in piece_length file.length) files.now < 2 ^ 64 }
    ensures { result ≡ sum_by (λ file. pieces_in piece_length file.length) files.now }
{
    let mut count: u64 = 0;
    'files: for file in files {
        count = count.saturating_add(file.length.div_ceil(piece_length));
    }
    count
}
