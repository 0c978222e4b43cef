//! The entries of a torrent's files, in the layout that its head asks for.
ghost use Rattle.std.specs.Prelude.{◌≡◌, ◌<◌, ◌≤◌, ◌^◌, true, All, IfOk};
ghost use Rattle.tor_meta.specs.Head.{settings_of};
ghost use Rattle.tor_meta.specs.steps.Sums.{IsJudged};
ghost use Rattle.tor_spec.specs.Settings.{layout_of};
ghost use Rattle.tor_v1.specs.Entries.{v1_entries, with_letters};
ghost use Rattle.tor_v1.specs.Piece.{max_piece_length};

use crate::head::Head;
use std::alloc::{AllocError, Global};
use tor_merkle::laws::piece_length_bounds;
use tor_spec::laws::entries_fit;
use tor_tree::FileList;
use tor_v1::{Entry, LayoutError, entries_without_letters, lay_out};

/// Those that stand in the torrent, each with the letters of its file.
pub(crate) fn entries(alloc: Global, head: &Head, list: &FileList) -> Result<Vec<Entry>, AllocError>
    requires { IsJudged head.now list.now.files }
    ensures made { IfOk result (λ entries. entries.items ≡ with_letters list.now.attrs
        (v1_entries (layout_of (settings_of head.now)) head.now.piece_length list.now.files)) }
    ensures small { IfOk result (λ entries. All (λ entry. entry.length < 2 ^ 63) entries.items) }
{
    piece_length_bounds();
    entries_fit();
    match lay_out(alloc, list, head.piece_length, head.layout()) {
        Ok(entries) => Ok(entries),
        Err(LayoutError::Memory) => Err(AllocError),
        Err(LayoutError::ReservedPad) => unreachable!(),
    }
}

/// Those whose bytes are hashed, for which letters do not matter.
pub(crate) fn entries_to_hash(
    alloc: Global,
    head: &Head,
    list: &FileList,
) -> Result<Vec<Entry>, AllocError>
    requires { IsJudged head.now list.now.files }
    ensures made { IfOk result (λ entries. entries.items
        ≡ v1_entries (layout_of (settings_of head.now)) head.now.piece_length list.now.files) }
    ensures padding { IfOk result (λ entries.
        All (λ entry. entry.pad ≡ true → entry.length ≤ max_piece_length) entries.items) }
{
    piece_length_bounds();
    entries_fit();
    entries_without_letters(alloc, list.files(), head.piece_length, head.layout())
}
