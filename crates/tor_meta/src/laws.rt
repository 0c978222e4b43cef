//! Laws over the definitions alone.
ghost use Rattle.std.specs.Int.{div_ceil};
ghost use Rattle.std.specs.Prelude.{◌≡◌, ◌⊎◌, ◌≤◌, ◌<◌, ◌^◌, ℕ, All, List, None, map};
ghost use Rattle.std.specs.List.Sorted.{IsPermutation, IsStrictlySortedBy};
ghost use Rattle.tor_bencode.specs.Data.{Data};
ghost use Rattle.tor_meta.specs.Contents.{IsMadeOf};
ghost use Rattle.tor_merkle.specs.Layer.{IsPieceLength};
ghost use Rattle.tor_meta.specs.PieceLength.{auto_piece_length};
ghost use Rattle.tor_meta.specs.Refusal.{contents_refusal};
ghost use Rattle.tor_meta.specs.declared.order.TheConstants.{MAX_SPAN};
ghost use Rattle.tor_spec.specs.Facts.{File};
ghost use Rattle.tor_spec.specs.Made.{HaveOneLayer, IsViewOfMade};
ghost use Rattle.tor_spec.specs.Settings.{Settings};
ghost use Rattle.tor_spec.specs.valid.Conditions.{IsTorrentOf};
ghost use Rattle.tor_spec.specs.valid.View.{view_of};
ghost use Rattle.tor_tree.specs.Name.{name_fault};
ghost use Rattle.tor_tree.specs.Path.{IsFilePath, path_cmp};

/// What is made of files that are not refused is a torrent, and what it describes is what it was made of, in the order
/// of the paths; if files longer than a piece that have one root have one layer.
pub fn what_is_made_is_valid()
    ensures { (settings : Settings) (files : List File) (bytes : List ℕ) → name_fault settings.name ≡ None →
        All (λ file. IsFilePath file.path) files → contents_refusal settings files ≡ None →
        HaveOneLayer settings.piece_length files → IsMadeOf settings files bytes →
        (root : Data) × (sorted : List File) × IsTorrentOf root bytes × IsPermutation files sorted
        × IsStrictlySortedBy path_cmp (map (λ file. file.path) sorted) × IsViewOfMade settings sorted (view_of root) }
{}

/// The limit of the pieces of a unit of work.
pub fn limit_of_spans()
    ensures { MAX_SPAN ≡ 1024 }
{}

/// What the chosen piece length is: allowed, and longer for more bytes, if it changes at all. Contents of at most 2^50
/// bytes have at most 2^21 pieces of it, but for those from 2^49 bytes on that get pieces of 2^28.
pub fn auto_piece_lengths()
    ensures allowed { (size : ℕ) → IsPieceLength (auto_piece_length size) }
    ensures grows { (one more : ℕ) → one ≤ more → auto_piece_length one ≤ auto_piece_length more }
    ensures few { (size : ℕ) → size ≤ 2 ^ 50 → (div_ceil size (auto_piece_length size) ≤ 2 ^ 21)
        ⊎ ((auto_piece_length size ≡ 2 ^ 28) × (2 ^ 49 < size)) }
{}
