//! Laws over the definitions, as contracts of functions that do nothing.
ghost use Rattle.std.specs.Prelude.{◌≡◌, ◌<◌, ◌≤◌, ℕ, ◌+◌, ◌*◌, ◌^◌, List, [], ◌∷◌, ◌++◌, count_by};
ghost use Rattle.std.specs.Prelude.{filter, length, map, nat_lt, sum_by};
ghost use Rattle.std.specs.Int.{div_ceil};
ghost use Rattle.tor_tree.specs.Letters.{no_letters};
ghost use Rattle.tor_tree.specs.declared.attr.Attr.{Attr};
ghost use Rattle.tor_v1.specs.Content.{file_entries, AreContentsOf, joined_content, v1_pieces};
ghost use Rattle.tor_v1.specs.Entries.{has_bytes, padding_length, v1_entries, with_letters};
ghost use Rattle.tor_v1.specs.Piece.{piece_sums, pieces_of, zeros};
ghost use Rattle.tor_v1.specs.declared.entry.Entry.{Entry};
ghost use Rattle.tor_v1.specs.declared.layout.Layout.{Layout};
ghost use Rattle.tor_v1.specs.declared.runs.TheConstants.{MAX_PIECE_IN_RUN};

/// Each piece of a content has 20 bytes of its sums.
pub fn length_of_sums()
    ensures { (piece_length : ℕ) (content : List ℕ) →
        length (piece_sums piece_length content) ≡ 20 * div_ceil (length content) piece_length }
{}

/// No piece is in two contents of which the first has whole pieces: the sums of the joined contents are theirs, joined.
pub fn sums_of_joined()
    ensures { (piece_length count : ℕ) (whole rest : List ℕ) → 0 < piece_length →
        length whole ≡ count * piece_length →
        piece_sums piece_length (whole ++ rest) ≡ piece_sums piece_length whole ++ piece_sums piece_length rest }
{}

/// No piece is in two contents of which the first has whole pieces: the pieces of the joined contents are theirs.
pub fn pieces_of_joined()
    ensures { (piece_length count : ℕ) (whole rest : List ℕ) → 0 < piece_length →
        length whole ≡ count * piece_length →
        pieces_of piece_length (whole ++ rest) ≡ pieces_of piece_length whole ++ pieces_of piece_length rest }
{}

/// No byte has a piece, and so none has a sum; a content of at most one piece is that piece.
pub fn pieces_of_few_bytes()
    ensures none { (piece_length : ℕ) → 0 < piece_length → pieces_of piece_length [] ≡ [] }
    ensures no_sums { (piece_length : ℕ) → 0 < piece_length → piece_sums piece_length [] ≡ [] }
    ensures one { (piece_length : ℕ) (content : List ℕ) → 0 < length content → length content ≤ piece_length →
        pieces_of piece_length content ≡ content ∷ [] }
{}

/// So many zeros are so long.
pub fn length_of_zeros()
    ensures { (count : ℕ) → length (zeros count) ≡ count }
{}

/// Some file has bytes exactly if the files with bytes are not none.
pub fn files_with_bytes()
    ensures { (files : List (List (List ℕ) × ℕ)) →
        has_bytes files ≡ nat_lt 0 (count_by (λ file. nat_lt 0 file.1) files) }
{}

/// The entries that are no padding are the files, in order.
pub fn entries_of_files()
    ensures { (layout : Layout) (piece_length : ℕ) (files : List (List (List ℕ) × ℕ)) →
        map (λ entry. (entry.path, entry.length)) (file_entries (v1_entries layout piece_length files)) ≡ files }
{}

/// Letters change no path, no length and no padding, and so neither which files there are nor the content.
pub fn letters_change_no_content()
    ensures paths { (attrs : List Attr) (entries : List Entry) →
        map (λ entry. entry.path) (with_letters attrs entries) ≡ map (λ entry. entry.path) entries }
    ensures lengths { (attrs : List Attr) (entries : List Entry) →
        map (λ entry. entry.length) (with_letters attrs entries) ≡ map (λ entry. entry.length) entries }
    ensures pads { (attrs : List Attr) (entries : List Entry) →
        map (λ entry. entry.pad) (with_letters attrs entries) ≡ map (λ entry. entry.pad) entries }
    ensures size { (attrs : List Attr) (entries : List Entry) →
        sum_by (λ entry. entry.length) (with_letters attrs entries) ≡ sum_by (λ entry. entry.length) entries }
    ensures content { (attrs : List Attr) (entries : List Entry) (contents : List (List ℕ)) →
        joined_content (with_letters attrs entries) contents ≡ joined_content entries contents }
    ensures pieces { (piece_length : ℕ) (attrs : List Attr) (entries : List Entry) (contents : List (List ℕ)) →
        v1_pieces piece_length (with_letters attrs entries) contents ≡ v1_pieces piece_length entries contents }
{}

/// The entries that are no padding have the letters of their files: those of the first file the first.
pub fn letters_of_files()
    ensures files { (attrs : List Attr) (layout : Layout) (piece_length : ℕ) (files : List (List (List ℕ) × ℕ)) →
        length attrs ≡ length files → map (λ entry. record { exec = entry.exec; hidden = entry.hidden })
        (file_entries (with_letters attrs (v1_entries layout piece_length files))) ≡ attrs }
    ensures padding { (attrs : List Attr) (entries : List Entry) →
        filter (λ entry. entry.pad) (with_letters attrs entries) ≡ filter (λ entry. entry.pad) entries }
    ensures none { (layout : Layout) (piece_length : ℕ) (files : List (List (List ℕ) × ℕ)) →
        with_letters (map (λ file. no_letters) files) (v1_entries layout piece_length files) ≡
        v1_entries layout piece_length files }
{}

/// The content of a torrent is as long as its entries together.
pub fn length_of_content()
    ensures { (entries : List Entry) (contents : List (List ℕ)) → AreContentsOf entries contents →
        length (joined_content entries contents) ≡ sum_by (λ entry. entry.length) entries }
{}

/// A file and what it lacks are whole pieces; a file of no byte lacks none.
pub fn padding_fills_pieces()
    ensures whole { (piece_length size : ℕ) → 0 < piece_length →
        (count : ℕ) × (size + padding_length piece_length size ≡ count * piece_length) }
    ensures none { (piece_length : ℕ) → padding_length piece_length 0 ≡ 0 }
{}

/// The most bytes of a piece that is hashed with seven others.
pub fn limit_of_pieces_in_runs()
    ensures { MAX_PIECE_IN_RUN ≡ 2 ^ 24 }
{}
