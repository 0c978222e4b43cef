//! Laws over the definitions, as contracts of functions that do nothing.
ghost use Rattle.std.specs.Prelude.{◌≡◌, ◌≢◌, ◌↔◌, ◌<◌, ◌≤◌, ℕ, Bool, List, Option, length, None, true};
ghost use Rattle.std.specs.Prelude.{◌%◌, ◌++◌, slice_index_or};
ghost use Rattle.tor_bencode.specs.Data.{Data};
ghost use Rattle.tor_plan.specs.Entries.{empty_unit};
ghost use Rattle.tor_view.specs.Files.{AllHold, AreFewer, AreThere, OneFails, file_found, file_spans, found_at};
ghost use Rattle.tor_view.specs.Files.{has_bytes_of, no_span};
ghost use Rattle.tor_view.specs.Bitfield.{bitfield};
ghost use Rattle.tor_view.specs.FileBytes.{has_byte_of, piece_of_byte};
ghost use Rattle.tor_view.specs.Pieces.{IsCut, pieces_of, right_pieces};
ghost use Rattle.tor_view.specs.declared.files.FileState.TheVariants.{Bad, Missing, Short, Whole};
ghost use Rattle.tor_view.specs.declared.spans.FileSpan.{FileSpan};
ghost use Rattle.tor_spec.specs.Verified.{verified_pieces};
ghost use Rattle.tor_spec.specs.valid.Conditions.{refusal_of};
ghost use Rattle.tor_spec.specs.valid.View.{View, view_of};

/// What a recheck finds in runs of joined bytes is found as well by judging units of one piece each, whichever contents
/// are short or missing.
pub fn pieces_are_verified_by_units()
    ensures { (view : View) (contents : List (List ℕ)) → IsCut view →
        verified_pieces view contents ≡ right_pieces view contents 0 (pieces_of view) }
{}

/// There are as many units as pieces.
pub fn pieces_are_counted()
    ensures { (view : View) → IsCut view → length (pieces_of view) ≡ view.piece_count }
{}

/// What a torrent describes that was accepted can be cut into pieces.
pub fn valid_torrents_are_cut()
    ensures { (root : Data) → refusal_of root ≡ None → IsCut (view_of root) }
{}

/// What the state of a file says: whether it is there, and as long as it should be, and whether each piece that has
/// bytes of it holds.
pub fn states_of_files()
    ensures missing { (held : List Bool) (span : FileSpan) (there : Option ℕ) →
        ((file_found held span there).state ≡ Missing) ↔ (there ≡ None) }
    ensures short { (held : List Bool) (span : FileSpan) (there : Option ℕ) →
        ((file_found held span there).state ≡ Short) ↔ AreFewer there span.length }
    ensures bad { (held : List Bool) (span : FileSpan) (there : Option ℕ) →
        ((file_found held span there).state ≡ Bad) ↔ (AreThere there span.length × OneFails held span) }
    ensures whole { (held : List Bool) (span : FileSpan) (there : Option ℕ) →
        ((file_found held span there).state ≡ Whole) ↔ (AreThere there span.length × AllHold held span) }
{}

/// An empty file is whole exactly if it is there.
pub fn empty_files_are_whole()
    ensures { (view : View) (lengths : List (Option ℕ)) (held : List Bool) (file : ℕ) → IsCut view →
        (slice_index_or (file_spans view) file no_span).length ≡ 0 →
        ((found_at (file_spans view) lengths held file).state ≡ Whole) ↔ (slice_index_or lengths file None ≢ None) }
{}

/// There is one span for each file, no piece in it is past the last one, and it has just the pieces that have bytes of
/// the file.
pub fn spans_are_of_pieces()
    ensures counted { (view : View) → IsCut view → length (file_spans view) ≡ length view.files }
    ensures within { (view : View) (file : ℕ) → IsCut view →
        (slice_index_or (file_spans view) file no_span).after ≤ view.piece_count }
    ensures bytes { (view : View) (file piece : ℕ) → IsCut view → piece < view.piece_count →
        (has_bytes_of file (slice_index_or (pieces_of view) piece empty_unit) ≡ true)
        ↔ (((slice_index_or (file_spans view) file no_span).first ≤ piece)
        × (piece < (slice_index_or (file_spans view) file no_span).after)) }
{}

/// If bits fill their bytes, the bitfield of them and of others behind them is both bitfields joined.
pub fn bitfields_are_joined()
    ensures { (bits others : List Bool) → length bits % 8 ≡ 0 →
        bitfield (bits ++ others) ≡ bitfield bits ++ bitfield others }
{}

/// A piece has a byte of a file exactly if it is one of the file's bytes, and the piece of that byte.
pub fn pieces_have_their_bytes()
    ensures { (view : View) (file b piece : ℕ) → IsCut view → piece < view.piece_count →
        (has_byte_of file b (slice_index_or (pieces_of view) piece empty_unit) ≡ true)
        ↔ ((b < (slice_index_or (file_spans view) file no_span).length)
        × (piece_of_byte (record { piece_length = view.piece_length; span = slice_index_or (file_spans view) file no_span }) b
        ≡ piece)) }
{}
