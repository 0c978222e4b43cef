//! The list of files of version 1.
ghost use Rattle.std.specs.Prelude.{◌≡◌, ◌↔◌, Err, IfOk, IsTrue};
ghost use Rattle.tor_v1.specs.Entries.{v1_entries, with_letters};
ghost use Rattle.tor_v1.specs.Piece.{IsV1PieceLength};
ghost use Rattle.tor_v1.specs.Reserved.{takes_reserved};
ghost use Rattle.tor_v1.specs.declared.layout.LayoutError.TheVariants.{ReservedPad};

use std::alloc::Global;
use tor_tree::FileList;
use tor_v1::{Entry, Layout, LayoutError, lay_out};

/// The entries of files in one of three layouts, with their letters (BEP 3, "info dictionary"; BEP 47, "padding files"
/// and "attr").
pub fn entries_of(
    alloc: Global,
    list: &FileList,
    piece_length: u64,
    layout: Layout,
) -> Result<Vec<Entry>, LayoutError>
    requires { IsV1PieceLength piece_length }
    ensures made { IfOk result (λ entries. entries.items
        ≡ with_letters list.now.attrs (v1_entries layout piece_length list.now.files)) }
    ensures reserved { (result ≡ Err ReservedPad) ↔ IsTrue (takes_reserved layout list.now.files) }
{
    lay_out(alloc, list, piece_length, layout)
}
