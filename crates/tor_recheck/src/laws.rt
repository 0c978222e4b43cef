//! Laws over the definitions, as contracts of functions that do nothing.
ghost use Rattle.std.specs.Prelude.{◌≡◌, ◌≢◌, ◌↔◌, ◌<◌, ◌≤◌, ℕ, Bool, List, Option, [], false, length, map, None, true};
ghost use Rattle.std.specs.Prelude.{Some, option_map, slice_index_or, sum_by, unwrap_or};
ghost use Rattle.std.specs.List.{flat_map, range_with_len};
ghost use Rattle.tor_engine.specs.Readable.{error_of_fault};
ghost use Rattle.tor_view.specs.Files.{AllHold, AreThere, file_spans, found_at};
ghost use Rattle.tor_view.specs.Files.{held_pieces, no_span};
ghost use Rattle.tor_view.specs.Bitfield.{bitfield, set_count};
ghost use Rattle.tor_recheck.specs.Lots.{in_lot};
ghost use Rattle.tor_recheck.specs.Readable.{faults_seen, readable_held, readable_pieces};
ghost use Rattle.tor_recheck.specs.Recheck.{first_fault, of_engine_error};
ghost use Rattle.tor_source.specs.Source.{SourceFacts};
ghost use Rattle.tor_sums.specs.Contents.{contents_in};
ghost use Rattle.tor_sums.specs.Fault.{first_of};
ghost use Rattle.tor_view.specs.Pieces.{IsCut};
ghost use Rattle.tor_view.specs.declared.files.FileState.TheVariants.{Bad, Whole};
ghost use Rattle.tor_recheck.specs.declared.rechecking.TheConstants.{SPAN};
ghost use Rattle.tor_spec.specs.Verified.{merkle_pieces, verified_pieces};
ghost use Rattle.tor_spec.specs.valid.View.{View};
ghost use Rattle.tor_tree.specs.Kinds.{has_v2};
ghost use Rattle.tor_tree.specs.declared.kinds.Kind.TheVariants.{Hybrid};

/// The limit of the pieces that a worker takes at a time.
pub fn limit_of_rechecks()
    ensures { SPAN ≡ 16 }
{}

/// In version 1 and in version 2 those pieces hold that are there and right. In a hybrid these hold, and so does each
/// other one that is there and has its Merkle hash.
pub fn right_pieces_hold()
    ensures same { (view : View) (contents : List (List ℕ)) → IsCut view → view.kind ≢ Hybrid →
        held_pieces view contents ≡ verified_pieces view contents }
    ensures right { (view : View) (contents : List (List ℕ)) → IsCut view → (piece : ℕ) → piece < view.piece_count →
        slice_index_or (verified_pieces view contents) piece false ≡ true →
        slice_index_or (held_pieces view contents) piece false ≡ true }
    ensures merkle { (view : View) (contents : List (List ℕ)) → has_v2 view.kind ≡ true →
        held_pieces view contents ≡ merkle_pieces view.piece_length view.files contents }
{}

/// A recheck that keeps going sees first what one that stops answers. If it sees nothing, the pieces that can be read
/// are those that are there and right, and so are those that hold.
pub fn rechecks_agree<F>()
    ensures first { (facts : SourceFacts F) (view : View) → first_fault facts view
        ≡ option_map (λ fault. of_engine_error (error_of_fault fault)) (first_of Some (faults_seen facts view)) }
    ensures right { (facts : SourceFacts F) (view : View) → IsCut view → faults_seen facts view ≡ [] →
        readable_pieces facts view ≡ verified_pieces view (contents_in facts (length view.files)) }
    ensures held { (facts : SourceFacts F) (view : View) → IsCut view → faults_seen facts view ≡ [] →
        readable_held facts view ≡ held_pieces view (contents_in facts (length view.files)) }
{}

/// A file that is not empty is whole exactly if the pieces that have bytes of it hold, whichever files are short or
/// missing. So each file is whole if all pieces are there and right.
pub fn files_are_whole_by_their_pieces()
    ensures exactly { (view : View) (files : List (Option (List ℕ))) → IsCut view → (file : ℕ) →
        0 < (slice_index_or (file_spans view) file no_span).length →
        ((found_at (file_spans view) (map (option_map length) files)
        (held_pieces view (map (λ one. unwrap_or one []) files)) file).state ≡ Whole)
        ↔ AllHold (held_pieces view (map (λ one. unwrap_or one []) files))
        (slice_index_or (file_spans view) file no_span) }
    ensures all { (view : View) (files : List (Option (List ℕ))) → IsCut view →
        ((piece : ℕ) → piece < view.piece_count →
        slice_index_or (verified_pieces view (map (λ one. unwrap_or one []) files)) piece false ≡ true) →
        (file : ℕ) → 0 < (slice_index_or (file_spans view) file no_span).length →
        (found_at (file_spans view) (map (option_map length) files)
        (held_pieces view (map (λ one. unwrap_or one []) files)) file).state ≡ Whole }
{}

/// A piece that holds has bytes of each file in whose span it is. So a file that shares a piece with one which is
/// missing is bad, though all its bytes are there.
pub fn files_are_bad_beside_missing_ones()
    ensures bytes { (view : View) (contents : List (List ℕ)) → IsCut view → (file piece : ℕ) →
        (slice_index_or (file_spans view) file no_span).first ≤ piece →
        piece < (slice_index_or (file_spans view) file no_span).after →
        slice_index_or (held_pieces view contents) piece false ≡ true →
        0 < length (slice_index_or contents file []) }
    ensures bad { (view : View) (files : List (Option (List ℕ))) → IsCut view → (file other piece : ℕ) →
        (slice_index_or (file_spans view) file no_span).first ≤ piece →
        piece < (slice_index_or (file_spans view) file no_span).after →
        (slice_index_or (file_spans view) other no_span).first ≤ piece →
        piece < (slice_index_or (file_spans view) other no_span).after →
        slice_index_or files other None ≡ None →
        AreThere (slice_index_or (map (option_map length) files) file None)
        (slice_index_or (file_spans view) file no_span).length →
        (found_at (file_spans view) (map (option_map length) files)
        (held_pieces view (map (λ one. unwrap_or one []) files)) file).state ≡ Bad }
{}

/// The lots have each bit once, in order. So the bitfields of all lots, one after another, are that of all bits, and as
/// many are set in all lots together as in all bits.
pub fn lots_have_each_piece()
    ensures bits { (bits : List Bool) (lots : ℕ) → 0 < lots →
        flat_map (λ lot. in_lot lots lot bits) (range_with_len 0 lots) ≡ bits }
    ensures bytes { (bits : List Bool) (lots : ℕ) → 0 < lots →
        flat_map (λ lot. bitfield (in_lot lots lot bits)) (range_with_len 0 lots) ≡ bitfield bits }
    ensures counts { (bits : List Bool) (lots : ℕ) → 0 < lots →
        sum_by (λ lot. set_count (in_lot lots lot bits)) (range_with_len 0 lots) ≡ set_count bits }
{}
