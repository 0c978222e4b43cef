//! The v1 side of a torrent (BEP 3, "info dictionary"), judged.
ghost use Rattle.std.specs.Prelude.{◌≡◌, ◌⊎◌, ◌<◌, true, false, None, Some, Err, IfErr, IfOk, OnOk};
ghost use Rattle.std.specs.Prelude.{MatchOption};
ghost use Rattle.std.specs.Prelude.{int_lt, pos, unsigned_abs, sum_by, codes, nat_lt, option_map};
ghost use Rattle.std.specs.Int.{div_ceil};
ghost use Rattle.std.specs.List.{list_any};
ghost use Rattle.tor_bencode.specs.Find.{value_of};
ghost use Rattle.tor_bencode.specs.RefView.{view};
ghost use Rattle.tor_check.specs.Refusals.{of_list_error};
ghost use Rattle.tor_check.specs.steps.Judged.{IsFirst};
ghost use Rattle.tor_check.specs.steps.Listed.{all_listed, first_after_sizes, first_of_list, size_of_listed};
ghost use Rattle.tor_check.specs.steps.Listed.{sized_files, takes_files};
ghost use Rattle.tor_check.specs.declared.refusal.Refusal.TheVariants.{FileShape, Memory};
ghost use Rattle.tor_spec.specs.valid.ListSide.{is_no_sums, list_length, list_shape, side_size};
ghost use Rattle.tor_spec.specs.valid.Parts.{name_of, piece_length_of};
ghost use Rattle.tor_tree.specs.FileList.{list_fault};
ghost use Rattle.tor_tree.specs.Properties.{as_string};
ghost use Rattle.tor_merkle.specs.declared.TheConstants.{MAX_LENGTH};
ghost use Rattle.tor_tree.specs.declared.lists.TheConstants.{MAX_TOTAL};

use crate::head::CommonKeys;
use crate::listed::{Listed, read_list_of};
use crate::marks::read_marks;
use crate::parts::text;
use crate::refusal::Refusal;
use std::alloc::{AllocError, Global};
use tor_bencode::ItemRef;
use tor_merkle::MAX_LENGTH;
use tor_tree::{FileList, FilePath, MAX_TOTAL, Name};

/// What the v1 side says.
#[derive(Drop)]
pub struct ListSide {
    /// The files in their order, padding among them.
    pub files: Vec<Listed>,
    /// The bytes of all of them.
    pub size: u64,
}

/// The v1 side, or its first fault.
pub fn read_list(alloc: Global, head: &CommonKeys<'_, '_>) -> Result<ListSide, Refusal>
    requires name { head.now.name ≡ name_of (view head.now.info.now) }
    requires piece_length { head.now.piece_length ≡ piece_length_of (view head.now.info.now) }
    requires some { 0 < head.now.piece_length }
    ensures files { IfOk result (λ side. side.files.items ≡ all_listed (view head.now.info.now)) }
    ensures size { IfOk result (λ side. side.size ≡ side_size (view head.now.info.now)) }
    ensures accepted { OnOk result (first_of_list (view head.now.info.now) ≡ None) }
    ensures refused { IfErr result (IsFirst (first_of_list (view head.now.info.now))) }
    ensures memory { result ≡ Err Memory → takes_files (view head.now.info.now) ≡ true }
{
    let files = read_files(alloc, head.info, &head.name)?;
    let size = match judge_sizes(alloc, head.info, &files) {
        Ok(size) => size,
        Err(refusal) => return Err(refusal),
    };
    if has_link(&files) {
        return Err(Refusal::Symlink);
    }
    if lacks_sums(head.info, size, head.piece_length) {
        return Err(Refusal::PiecesLength);
    }
    Ok(ListSide { files, size })
}

/// The bytes of all files of a side, padding among them, if their paths and lengths have no fault.
fn judge_sizes(alloc: Global, info: &ItemRef<'_>, files: &[Listed]) -> Result<u64, Refusal>
    requires read { files.now ≡ all_listed (view info.now) }
    requires shaped { list_shape (view info.now) ≡ false }
    ensures size { IfOk result (λ size. size ≡ side_size (view info.now)) }
    ensures first { OnOk result (first_of_list (view info.now) ≡ first_after_sizes (view info.now)) }
    ensures refused { IfErr result (IsFirst (first_of_list (view info.now))) }
    ensures memory { result ≡ Err Memory → list_length (view info.now) ≡ false }
{
    // The contract speaks of it alone.
    let _info = info;
    if has_negative(files) {
        return Err(Refusal::FileLength);
    }
    if let Err(refusal) = judge_files(alloc, files) {
        return Err(refusal);
    }
    if has_long(files) {
        return Err(Refusal::TooLarge);
    }
    match size_of(files) {
        Some(size) => Ok(size),
        None => Err(Refusal::TooLarge),
    }
}

/// The files that `files` lists, or the one of `length`.
fn read_files(alloc: Global, info: &ItemRef<'_>, name: &Name) -> Result<Vec<Listed>, Refusal>
    requires { name.now ≡ name_of (view info.now) }
    ensures read { IfOk result (λ files. files.items ≡ all_listed (view info.now)) }
    ensures shaped { OnOk result (list_shape (view info.now) ≡ false) }
    ensures refused { IfErr result (λ refusal.
        ((refusal ≡ FileShape) × (list_shape (view info.now) ≡ true)) ⊎ (refusal ≡ Memory)) }
    ensures memory { result ≡ Err Memory → takes_files (view info.now) ≡ true }
{
    match info.get(b"files") {
        Some(ItemRef::List(entries)) => read_list_of(alloc, entries),
        Some(_) => Err(Refusal::FileShape),
        None => {
            let Some(marks) = read_marks(info) else {
                return Err(Refusal::FileShape);
            };
            let path = Some(FilePath::of_name(alloc, name)?);
            Ok(vec![in alloc; Listed { path, marks }]?)
        }
    }
}

fn has_negative(files: &[Listed]) -> bool
    ensures { result ≡ list_any (λ file. int_lt file.marks.length (pos 0)) files.now }
{
    files.iter().any(|file| file.marks.length < 0)
}

fn has_link(files: &[Listed]) -> bool
    ensures { result ≡ list_any (λ file. file.marks.link) files.now }
{
    files.iter().any(|file| file.marks.link)
}

/// Judges paths and lengths of the files, as those of a list.
fn judge_files(alloc: Global, files: &[Listed]) -> Result<(), Refusal>
    ensures accepted { OnOk result (list_fault (sized_files files.now) ≡ None) }
    ensures refused { IfErr result (λ refusal. (refusal ≡ Memory)
        ⊎ (option_map of_list_error (list_fault (sized_files files.now)) ≡ Some refusal)) }
{
    let sized = sized_files(alloc, files)?;
    match FileList::build(alloc, sized) {
        Ok(_) => Ok(()),
        Err(fault) => Err(Refusal::from(fault)),
    }
}

/// Paths and lengths of the files, without padding.
fn sized_files(alloc: Global, files: &[Listed]) -> Result<Vec<(FilePath, u64)>, AllocError>
    ensures { IfOk result (λ sized. sized.items ≡ sized_files files.now) }
{
    let mut sized = Vec::with_capacity(alloc, files.len())?;
    'files: for file in files {
        if let Some(path) = &file.path {
            sized.push((path.copy(alloc)?, file.marks.length.unsigned_abs()))?;
        }
    }
    Ok(sized)
}

/// Whether a length is too large, padding's too.
fn has_long(files: &[Listed]) -> bool
    ensures { result ≡ list_any (λ file. nat_lt MAX_LENGTH (unsigned_abs file.marks.length)) files.now }
{
    files
        .iter()
        .any(|file| file.marks.length.unsigned_abs() > MAX_LENGTH)
}

/// The bytes of all files, padding among them; None if they are too many.
fn size_of(files: &[Listed]) -> Option<u64>
    ensures { MatchOption result (nat_lt MAX_TOTAL (sum_by size_of_listed files.now) ≡ true)
        (λ size. (nat_lt MAX_TOTAL (sum_by size_of_listed files.now) ≡ false)
        × (size ≡ sum_by size_of_listed files.now)) }
{
    let mut total: u64 = 0;
    'files: for file in files {
        total = total.saturating_add(file.marks.length.unsigned_abs());
    }
    (total <= MAX_TOTAL).then_some(total)
}

/// Whether `pieces` is not 20 bytes for each piece of so many bytes.
fn lacks_sums(info: &ItemRef<'_>, size: u64, piece_length: u64) -> bool
    requires { 0 < piece_length }
    ensures { result ≡ is_no_sums (div_ceil size piece_length) (as_string (value_of (codes "pieces") (view info.now))) }
{
    match text(info, b"pieces") {
        Some(sums) => sums.len() as u128 != 20 * u128::from(size.div_ceil(piece_length)),
        None => true,
    }
}
