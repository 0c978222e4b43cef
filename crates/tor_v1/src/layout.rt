//! The entries of a list of files, in one of three layouts.
ghost use Rattle.std.specs.Prelude.{◌≡◌, ◌↔◌, ◌&&◌, ◌||◌, Err, IfOk, IsTrue, map, count_by, nat_lt};
ghost use Rattle.std.specs.List.{list_any};
ghost use Rattle.tor_v1.specs.Entries.{aligned_entries, file_entry, v1_entries, with_letters};
ghost use Rattle.tor_v1.specs.Piece.{IsV1PieceLength};
ghost use Rattle.tor_v1.specs.Reserved.{is_reserved, takes_reserved};
ghost use Rattle.tor_v1.specs.declared.layout.LayoutError.TheVariants.{ReservedPad, Memory};

use crate::entry::{Entry, file_entry, is_reserved};
use crate::letters::put_letters;
use crate::padding::{pad_entry, padding_length};
use std::alloc::{AllocError, Global};
use thiserror::Error;
use tor_tree::{FileList, FilePath};

/// How files stand in the content of a version 1 torrent.
#[derive(Clone, Copy, Debug, PartialEq, Eq)]
pub enum Layout {
    /// One directly after the other.
    Joined,
    /// Each that is not empty at the beginning of a piece, with padding directly after each that ends inside one and
    /// has a later file with bytes.
    Aligned,
    /// As `Aligned`, and the last file with bytes has padding too if it ends inside a piece.
    AlignedTail,
}

/// Why files have no entries.
#[derive(Debug, Drop, Error)]
pub enum LayoutError {
    /// They are to be aligned, and one has a path that only padding may have.
    #[error("Y1 ReservedPad")]
    ReservedPad,
    /// Memory for the entries was refused.
    #[error("out of memory")]
    Memory,
}

impl From<AllocError> for LayoutError {
    ghost from_gives = { λ _ e. e ≡ Memory };

    fn from(_error: AllocError) -> LayoutError {
        LayoutError::Memory
    }
}

/// The entries of the files, in the order of the list, each with the letters of its file (BEP 3, "info dictionary"; BEP
/// 47, "padding files" and "attr").
pub fn lay_out(
    alloc: Global,
    list: &FileList,
    piece_length: u64,
    layout: Layout,
) -> Result<Vec<Entry>, LayoutError>
    requires { IsV1PieceLength piece_length }
    ensures made { IfOk result (λ entries. entries.items
        ≡ with_letters list.now.attrs (v1_entries layout piece_length list.now.files)) }
    ensures reserved { (result ≡ Err ReservedPad) ↔ IsTrue (takes_reserved layout list.now.files) }
{
    let files = list.files();
    if is_refused(layout, files) {
        return Err(LayoutError::ReservedPad);
    }
    let mut entries = entries_without_letters(alloc, files, piece_length, layout)?;
    put_letters(&mut entries, list.attrs());
    Ok(entries)
}

/// The entries of files whose letters and reserved paths do not matter, as to cut their bytes into units of work.
pub fn entries_without_letters(
    alloc: Global,
    files: &[(FilePath, u64)],
    piece_length: u64,
    layout: Layout,
) -> Result<Vec<Entry>, AllocError>
    requires { IsV1PieceLength piece_length }
    ensures { IfOk result (λ entries. entries.items ≡ v1_entries layout piece_length files.now) }
{
    match layout {
        Layout::Joined => joined_entries(alloc, files),
        Layout::Aligned => aligned(alloc, files, piece_length, false),
        Layout::AlignedTail => aligned(alloc, files, piece_length, true),
    }
}

/// Whether the files are to be aligned, and only padding may have one of their paths.
fn is_refused(layout: Layout, files: &[(FilePath, u64)]) -> bool
    ensures { result ≡ takes_reserved layout files.now }
{
    match layout {
        Layout::Joined => false,
        Layout::Aligned | Layout::AlignedTail => any_reserved(files),
    }
}

/// Whether only padding may have one of the paths.
fn any_reserved(files: &[(FilePath, u64)]) -> bool
    ensures { result ≡ list_any (λ file. is_reserved file.0) files.now }
{
    files.iter().any(|file| is_reserved(&file.0))
}

/// An entry for each file.
fn joined_entries(alloc: Global, files: &[(FilePath, u64)]) -> Result<Vec<Entry>, AllocError>
    ensures { IfOk result (λ entries. entries.items ≡ map file_entry files.now) }
{
    let mut entries = Vec::with_capacity(alloc, files.len())?;
    for (path, length) in files {
        entries.push(file_entry(alloc, path, *length)?)?;
    }
    Ok(entries)
}

/// An entry for each file, and padding after each that needs it: with a tail also after the last with bytes.
fn aligned(
    alloc: Global,
    files: &[(FilePath, u64)],
    piece_length: u64,
    tail: bool,
) -> Result<Vec<Entry>, AllocError>
    requires { IsV1PieceLength piece_length }
    ensures { IfOk result (λ entries. entries.items ≡ aligned_entries tail piece_length files.now) }
{
    // How many files with bytes are still to come.
    let mut later = count_with_bytes(files);
    let mut entries = Vec::with_capacity(alloc, files.len())?;
    'files: for (path, length) in files {
        entries.push(file_entry(alloc, path, *length)?)?;
        if *length > 0 {
            later -= 1;
        }
        let lack = padding_length(*length, piece_length);
        if is_padded(lack, later, tail) {
            entries.push(pad_entry(alloc, lack)?)?;
        }
    }
    Ok(entries)
}

/// Whether padding follows a file that lacks so many bytes, if so many later ones are not empty.
fn is_padded(lack: u64, later: usize, tail: bool) -> bool
    ensures { result ≡ (nat_lt 0 lack && (tail || nat_lt 0 later)) }
{
    lack > 0 && (tail || later > 0)
}

/// How many of the files are not empty.
fn count_with_bytes(files: &[(FilePath, u64)]) -> usize
    ensures { result ≡ count_by (λ file. nat_lt 0 file.1) files.now }
{
    files.iter().filter(|file| file.1 > 0).count()
}
