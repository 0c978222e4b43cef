//! Laws over the definitions alone.
ghost use Rattle.std.specs.Prelude.{◌≡◌, ◌<◌, ◌^◌, true, All, ℕ, List, map, replicate};
ghost use Rattle.tor_bencode.specs.Lawful.{IsLawful};
ghost use Rattle.tor_spec.specs.Facts.{Facts, File};
ghost use Rattle.tor_spec.specs.Made.{AreMade, IsViewOfMade};
ghost use Rattle.tor_spec.specs.Makeable.{AreMakeable};
ghost use Rattle.tor_spec.specs.Metainfo.{facts_of_files, metainfo, pieces_of_files, root_dictionary};
ghost use Rattle.tor_spec.specs.Settings.{Settings};
ghost use Rattle.tor_spec.specs.Verified.{verified_pieces};
ghost use Rattle.tor_spec.specs.valid.Conditions.{IsTorrentOf};
ghost use Rattle.tor_spec.specs.valid.View.{view_of};
ghost use Rattle.tor_merkle.specs.Layer.{IsPieceLength};
ghost use Rattle.tor_tree.specs.declared.attr.Attr.{Attr};
ghost use Rattle.tor_v1.specs.Entries.{v1_entries, with_letters};
ghost use Rattle.tor_v1.specs.declared.layout.Layout.{Layout};

/// The root dictionary of a torrent is a lawful tree, so its bytes are the spelling of that tree alone.
pub fn torrents_are_lawful()
    ensures { (settings : Settings) (facts : List Facts) (pieces : List ℕ) → AreMakeable settings facts →
        IsLawful (root_dictionary settings facts pieces) }
{}

/// The entries of files have lengths of 63 bits if the files do, with letters too, and padding is less than a piece.
pub fn entries_fit()
    ensures small { (layout : Layout) (piece_length : ℕ) (files : List (List (List ℕ) × ℕ)) →
        IsPieceLength piece_length → All (λ file. file.1 < 2 ^ 63) files →
        All (λ entry. entry.length < 2 ^ 63) (v1_entries layout piece_length files) }
    ensures lettered { (attrs : List Attr) (layout : Layout) (piece_length : ℕ) (files : List (List (List ℕ) × ℕ)) →
        IsPieceLength piece_length → All (λ file. file.1 < 2 ^ 63) files →
        All (λ entry. entry.length < 2 ^ 63) (with_letters attrs (v1_entries layout piece_length files)) }
    ensures padding { (layout : Layout) (piece_length : ℕ) (files : List (List (List ℕ) × ℕ)) →
        IsPieceLength piece_length →
        All (λ entry. entry.pad ≡ true → entry.length < piece_length) (v1_entries layout piece_length files) }
{}

/// The torrent that the maker is to write, of files that it accepts, is one that a validator accepts. It describes
/// those files: their paths, lengths and letters, and their roots and layers if there is a v2 side.
pub fn made_torrents_are_valid()
    ensures valid { (settings : Settings) (files : List File) → AreMade settings files → IsTorrentOf
        (root_dictionary settings (facts_of_files settings.piece_length files) (pieces_of_files settings files))
        (metainfo settings files) }
    ensures view { (settings : Settings) (files : List File) → AreMade settings files →
        IsViewOfMade settings files (view_of
        (root_dictionary settings (facts_of_files settings.piece_length files) (pieces_of_files settings files))) }
{}

/// The contents of which a torrent was made verify every piece of it.
pub fn own_contents_verify_every_piece()
    ensures { (settings : Settings) (files : List File) → AreMade settings files →
        let view = view_of
        (root_dictionary settings (facts_of_files settings.piece_length files) (pieces_of_files settings files)) in
        verified_pieces view (map (λ file. file.content) files) ≡ replicate view.piece_count true }
{}
