//! Laws over the definitions.
ghost use Rattle.std.specs.Prelude.{◌≡◌, ◌<◌, ◌*◌, ℕ, List, length, map, true};
ghost use Rattle.std.specs.List.{flat_map, range_with_len};
ghost use Rattle.tor_sums.specs.Fault.{first_byte_fault, units_fault};
ghost use Rattle.tor_plan.specs.Entries.{entry_units, lengths_of_entries};
ghost use Rattle.tor_plan.specs.PlanFacts.{IsPlan, PlanFacts};
ghost use Rattle.tor_plan.specs.declared.units.PlanUnit.{PlanUnit};
ghost use Rattle.tor_source.specs.Source.{SourceFacts};
ghost use Rattle.tor_tree.specs.Kinds.{has_v1, has_v2};
ghost use Rattle.tor_tree.specs.declared.kinds.Kind.{Kind};
ghost use Rattle.tor_v1.specs.Piece.{piece_sums};
ghost use Rattle.tor_v1.specs.declared.entry.Entry.{Entry};
ghost use Rattle.tor_engine.specs.Rows.{AreSameAt, IsRowOf, hashes_of_file, row_of_units, sums_of_pieces};
ghost use Rattle.tor_engine.specs.Rows.{units_between};
ghost use Rattle.tor_sums.specs.Sums.{plan_content};

pub use tor_streams::laws::limit_of_units;
pub use tor_sums::laws::{limit_of_workers, limits_of_buffers};

/// The first byte that fails in the order of the units is the first in the order of the files, however they are cut.
pub fn first_fault_of_units<F>()
    ensures { (facts : SourceFacts F) (kind : Kind) (piece_length span : ℕ) (entries : List Entry) →
        0 < span * piece_length → units_fault facts (entry_units kind piece_length span entries)
        ≡ first_byte_fault facts (lengths_of_entries entries) }
{}

/// The hashes of the pieces of all units of a plan, one after another, are those of the pieces of its files.
pub fn rows_are_of_files()
    ensures nodes { (plan : PlanFacts) (contents : List (List ℕ)) → IsPlan plan → has_v2 plan.kind ≡ true →
        map length contents ≡ plan.lengths →
        row_of_units plan contents plan.units ≡ flat_map (hashes_of_file plan.piece_length) contents }
    ensures sums { (plan : PlanFacts) (contents : List (List ℕ)) → IsPlan plan → has_v1 plan.kind ≡ true →
        map length contents ≡ plan.lengths →
        sums_of_pieces plan contents plan.units ≡ piece_sums plan.piece_length (plan_content plan contents) }
{}

/// Contents that have the same bytes at some units of a plan have the same hashes of their pieces.
pub fn rows_go_by_bytes()
    ensures { (plan : PlanFacts) → IsPlan plan → (contents other : List (List ℕ)) →
        map length contents ≡ plan.lengths → map length other ≡ plan.lengths → (from to : ℕ)
        (hashes : List (List ℕ)) (pieces : List ℕ) →
        AreSameAt contents other (units_between from to plan.units) →
        IsRowOf plan other (units_between from to plan.units) hashes pieces →
        IsRowOf plan contents (units_between from to plan.units) hashes pieces }
{}

/// If the units of a plan are dealt in so many runs, one after another, and the hashes of each run are those of some
/// contents, all are those of the same contents, which have at each run the bytes of the run's own.
pub fn shares_have_contents()
    ensures { (plan : PlanFacts) → IsPlan plan → (runs : ℕ) (units : ℕ → List PlanUnit)
        (others : ℕ → List (List ℕ)) (hashes : ℕ → List (List ℕ)) (pieces : ℕ → List ℕ) →
        flat_map units (range_with_len 0 runs) ≡ plan.units →
        ((run : ℕ) → run < runs → (map length (others run) ≡ plan.lengths)
        × IsRowOf plan (others run) (units run) (hashes run) (pieces run)) →
        (contents : List (List ℕ)) × (map length contents ≡ plan.lengths)
        × ((run : ℕ) → run < runs → AreSameAt contents (others run) (units run)
        × IsRowOf plan contents (units run) (hashes run) (pieces run)) }
{}
