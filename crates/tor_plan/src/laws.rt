//! Laws over the definitions, as contracts of functions that do nothing.
ghost use Rattle.std.specs.Prelude.{◌≡◌, ◌≢◌, ℕ, ◌+◌, ◌-◌, ◌*◌, ◌^◌, ◌<◌, ◌≤◌, Bool, min, All, List, length};
ghost use Rattle.std.specs.Prelude.{slice_index_or};
ghost use Rattle.std.specs.List.{flat_map};
ghost use Rattle.tor_plan.specs.Content.{layout_of_kind, unit_content};
ghost use Rattle.tor_plan.specs.Entries.{entry_units, lengths_of_entries};
ghost use Rattle.tor_plan.specs.EntryList.{IsEntryList, IsLaidOut};
ghost use Rattle.tor_plan.specs.Forest.{AreRuns};
ghost use Rattle.tor_plan.specs.PlanFacts.{IsPlan, IsPlanPieceLength, PlanFacts};
ghost use Rattle.tor_plan.specs.Pieces.{piece_of_unit, pieces_of_unit};
ghost use Rattle.tor_plan.specs.Positions.{positions_of_files, positions_of_unit};
ghost use Rattle.tor_plan.specs.WithinEntries.{IsInFile, IsUnitWithin, unit_length};
ghost use Rattle.tor_plan.specs.WithinFiles.{IsFileUnit};
ghost use Rattle.tor_plan.specs.declared.units.PlanUnit.{PlanUnit};
ghost use Rattle.tor_tree.specs.FileList.{IsFileList, lengths_of};
ghost use Rattle.tor_tree.specs.declared.kinds.Kind.{Kind};
ghost use Rattle.tor_tree.specs.declared.kinds.Kind.TheVariants.{V1, V2, Hybrid};
ghost use Rattle.tor_v1.specs.Content.{AreContentsOf, joined_content};
ghost use Rattle.tor_v1.specs.Entries.{v1_entries};
ghost use Rattle.tor_v1.specs.Piece.{piece_sums};
ghost use Rattle.tor_v1.specs.declared.entry.Entry.{Entry};

/// The files of a list are cut as their entries are. Those have the lengths of the files and may have a tail, and a
/// plan can be made of them.
pub fn files_are_cut_as_entries()
    ensures lengths { (kind : Kind) (tail : Bool) (piece_length : ℕ) (files : List (List (List ℕ) × ℕ)) →
        lengths_of_entries (v1_entries (layout_of_kind kind tail) piece_length files) ≡ lengths_of files }
    ensures laid_out { (kind : Kind) (tail : Bool) (piece_length : ℕ) (files : List (List (List ℕ) × ℕ)) →
        IsLaidOut kind piece_length (v1_entries (layout_of_kind kind tail) piece_length files) }
    ensures listed { (kind : Kind) (tail : Bool) (piece_length : ℕ) (files : List (List (List ℕ) × ℕ)) →
        IsFileList files → IsPlanPieceLength kind piece_length →
        IsEntryList kind piece_length (v1_entries (layout_of_kind kind tail) piece_length files) }
{}

/// The units have each byte of each entry once, in order: together they are the content of the entries.
pub fn entry_units_are_the_content()
    ensures { (kind : Kind) (piece_length span : ℕ) (entries : List Entry) (contents : List (List ℕ)) →
        0 < span * piece_length → IsLaidOut kind piece_length entries → AreContentsOf entries contents →
        flat_map (unit_content contents) (entry_units kind piece_length span entries)
        ≡ joined_content entries contents }
{}

/// The units name each byte of each file once, file by file and byte by byte.
pub fn entry_units_name_each_byte()
    ensures { (kind : Kind) (piece_length span : ℕ) (entries : List Entry) → 0 < span * piece_length →
        flat_map positions_of_unit (entry_units kind piece_length span entries)
        ≡ positions_of_files 0 (lengths_of_entries entries) }
{}

/// The parts of units are in their files, and no unit has more bytes than `span` pieces, zeros among them.
pub fn entry_units_are_within_files()
    ensures { (kind : Kind) (piece_length span : ℕ) (entries : List Entry) → 0 < span → 0 < piece_length →
        IsLaidOut kind piece_length entries →
        All (IsUnitWithin (lengths_of_entries entries) (span * piece_length))
        (entry_units kind piece_length span entries) }
{}

/// The pieces of the units are the units of one piece each, in order.
pub fn units_are_cut_into_pieces()
    ensures { (kind : Kind) (piece_length span : ℕ) (entries : List Entry) → 0 < piece_length → 0 < span →
        IsLaidOut kind piece_length entries →
        flat_map (pieces_of_unit piece_length) (entry_units kind piece_length span entries)
        ≡ entry_units kind piece_length 1 entries }
{}

/// The parts of a piece are in the files where those of its unit are, and it has no more bytes than a piece may have.
pub fn pieces_are_within_files()
    ensures { (lengths : List ℕ) (piece_length k : ℕ) (unit : PlanUnit) → All (IsInFile lengths) unit.parts →
        IsUnitWithin lengths piece_length (piece_of_unit piece_length unit k) }
{}

/// Each piece of a unit but the last is whole, and none is empty.
pub fn pieces_are_so_long()
    ensures { (piece_length k : ℕ) (unit : PlanUnit) →
        unit_length (piece_of_unit piece_length unit k) ≡ min (unit_length unit - k * piece_length) piece_length }
{}

/// In version 1 each unit but the last has `span` pieces, of files and zeros.
pub fn joined_entry_units_are_whole()
    ensures { (piece_length span : ℕ) (entries : List Entry) (k : ℕ) (unit : PlanUnit) →
        0 < span * piece_length → k + 1 < length (entry_units V1 piece_length span entries) →
        unit_length (slice_index_or (entry_units V1 piece_length span entries) k unit) ≡ span * piece_length }
{}

/// In the other kinds each unit but the last of a file has `span` pieces of that file, and nothing else.
pub fn separate_entry_units_are_whole()
    ensures { (kind : Kind) (piece_length span : ℕ) (entries : List Entry) → kind ≢ V1 → 0 < span * piece_length →
        All (IsFileUnit (lengths_of_entries entries) (span * piece_length))
        (entry_units kind piece_length span entries) }
{}

/// In version 1 and in a hybrid torrent no piece is in two units: the SHA-1 of the pieces of the whole content are
/// those of the pieces of each unit, joined.
pub fn pieces_are_in_entry_units()
    ensures { (kind : Kind) (piece_length span : ℕ) (entries : List Entry) (contents : List (List ℕ)) →
        kind ≢ V2 → 0 < piece_length → 0 < span * piece_length → IsLaidOut kind piece_length entries →
        AreContentsOf entries contents →
        flat_map (λ unit. piece_sums piece_length (unit_content contents unit))
        (entry_units kind piece_length span entries)
        ≡ piece_sums piece_length (joined_content entries contents) }
{}

/// In a hybrid torrent, whose files begin at pieces, the pieces of the files are those of the joined entries.
pub fn aligned_pieces_are_joined()
    ensures { (piece_length : ℕ) (entries : List Entry) → 0 < piece_length → IsLaidOut Hybrid piece_length entries →
        entry_units Hybrid piece_length 1 entries ≡ entry_units V1 piece_length 1 entries }
{}

/// The trees of a plan are runs of two or more of its units, apart and in order, each of at most 2^36 blocks.
pub fn trees_are_runs()
    ensures { (plan : PlanFacts) → IsPlan plan → AreRuns (length plan.units) 0 plan.trees }
{}

/// A plan has at most 2^62 units.
pub fn units_are_few()
    ensures { (plan : PlanFacts) → IsPlan plan → length plan.units ≤ 2 ^ 62 }
{}
