//! Laws over the definitions, and the limit of lots.
ghost use Rattle.std.specs.Prelude.{◌≡◌, ◌↔◌, ◌<◌, ◌≤◌, ◌+◌, ◌/◌, ℕ, All, List, length, take};
ghost use Rattle.std.specs.List.{flat_map, range_with_len};
ghost use Rattle.std.specs.Prelude.{slice_index_or};
ghost use Rattle.tor_engine.specs.Rows.{IsRowOf};
ghost use Rattle.tor_engine.specs.declared.lot.PieceRow.{PieceRow};
ghost use Rattle.tor_parts.specs.Dealing.{bytes_of, dealt, first_byte, first_unit};
ghost use Rattle.tor_parts.specs.JoinedRows.{HasAllPieces};
ghost use Rattle.tor_parts.specs.LotCounts.{HasOwnPieces};
ghost use Rattle.tor_parts.specs.LotText.{IsLot, LotFacts, lot_bytes};
ghost use Rattle.tor_parts.specs.declared.lot_text.TheConstants.{MAX_LOTS};
ghost use Rattle.tor_plan.specs.PlanFacts.{IsPlan, PlanFacts};
ghost use Rattle.tor_plan.specs.WithinEntries.{unit_length};
ghost use Rattle.tor_plan.specs.declared.units.PlanUnit.{PlanUnit};

/// The units of the lots, one lot after another, are all units, each once and in order.
pub fn dealt_units_are_all()
    ensures { (lots : ℕ) (units : List PlanUnit) → 0 < lots →
        flat_map (λ lot. dealt lots lot units) (range_with_len 0 lots) ≡ units }
{}

/// A unit stands in a lot or after it exactly if it begins at the lot's first byte or after that.
pub fn units_are_dealt_by_bytes()
    ensures { (lots lot unit : ℕ) (units : List PlanUnit) → lot < lots → unit < length units →
        (first_unit lots lot units ≤ unit) ↔ (first_byte (bytes_of units) lots lot ≤ bytes_of (take unit units)) }
{}

/// A lot has at most an equal share of all bytes, rounded down, one byte and one unit more.
pub fn lots_are_balanced()
    ensures { (lots lot size : ℕ) (units : List PlanUnit) → lot < lots →
        All (λ unit. unit_length unit ≤ size) units →
        bytes_of (dealt lots lot units) ≤ bytes_of units / lots + 1 + size }
{}

/// The hashes of the lots, one lot after another, are those of all units, if each lot's are those of these contents at
/// its units.
pub fn rows_are_joined()
    ensures { (plan : PlanFacts) (contents : List (List ℕ)) (lots : ℕ) (hashes : ℕ → List (List ℕ))
        (pieces : ℕ → List ℕ) → 0 < lots →
        ((lot : ℕ) → lot < lots →
        IsRowOf plan contents (dealt lots lot plan.units) (hashes lot) (pieces lot)) →
        IsRowOf plan contents plan.units (flat_map hashes (range_with_len 0 lots))
        (flat_map pieces (range_with_len 0 lots)) }
{}

/// Rows that have, each for itself, as many hashes as the pieces of its lot want have as many as all pieces want.
pub fn rows_have_all_pieces()
    ensures { (plan : PlanFacts) → IsPlan plan → (rows : List PieceRow) → 0 < length rows →
        ((lot : ℕ) (d : PieceRow) → lot < length rows →
        HasOwnPieces plan (dealt (length rows) lot plan.units) (slice_index_or rows lot d)) →
        HasAllPieces plan rows }
{}

/// Bytes are those of one lot at most.
pub fn bytes_are_of_one_lot()
    ensures { (one other : LotFacts) → IsLot one → IsLot other → lot_bytes one ≡ lot_bytes other → one ≡ other }
{}

/// The most lots that a plan may be dealt in.
pub fn limit_of_lots()
    ensures { MAX_LOTS ≡ 65536 }
{}
