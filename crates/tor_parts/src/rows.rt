//! The hashes of all lots joined.
ghost use Rattle.std.specs.Prelude.{◌≡◌, ◌<◌, [], IfOk, List, None, false, length, map, replicate, true, ℕ};
ghost use Rattle.tor_sums.specs.Sums.{AreSumsOfPlan, lists_of};
ghost use Rattle.tor_parts.specs.Joining.{layers_over, roots_over};
ghost use Rattle.tor_parts.specs.JoinedRows.{AreRowsOf, AreRowsOfEach, AreSumsOfEach, HasAllPieces, hashes_of, sums_of};
ghost use Rattle.tor_tree.specs.Kinds.{has_v2};

use crate::joining::join_sums;
use std::alloc::{AllocError, Global};
use tor_engine::{PieceRow, Sums};
use tor_merkle::Hash;
use tor_plan::Plan;

/// What the files of a plan sum up to, from the hashes of its lots, in the order of their numbers. If the rows are
/// those of the same contents at all lots, these are the sums of the contents. If each lot was hashed of files of its
/// own, they are the sums of contents that have at each lot the bytes that these files have there.
pub fn join_rows(alloc: Global, plan: &Plan, rows: &[PieceRow]) -> Result<Sums, AllocError>
    requires some { 0 < length rows.now }
    requires counted { HasAllPieces plan.now rows.now }
    ensures lengths { IfOk result (λ sums. sums.lengths.items ≡ plan.now.lengths) }
    ensures roots { has_v2 plan.now.kind ≡ true → IfOk result (λ sums.
        sums.roots.items ≡ roots_over plan.now.piece_length plan.now.lengths (hashes_of rows.now)) }
    ensures layers { has_v2 plan.now.kind ≡ true → IfOk result (λ sums.
        lists_of sums.layers.items ≡ layers_over plan.now.piece_length plan.now.lengths (hashes_of rows.now)) }
    ensures bare { has_v2 plan.now.kind ≡ false → IfOk result (λ sums.
        (sums.roots.items ≡ replicate (length plan.now.lengths) None)
        × (lists_of sums.layers.items ≡ replicate (length plan.now.lengths) [])) }
    ensures pieces { IfOk result (λ sums. sums.pieces.items ≡ sums_of rows.now) }
    ensures summed { (contents : List (List ℕ)) → map length contents ≡ plan.now.lengths →
        AreRowsOf plan.now contents rows.now → IfOk result (AreSumsOfPlan plan.now contents) }
    ensures whole { (others : ℕ → List (List ℕ)) → AreRowsOfEach plan.now others rows.now →
        IfOk result (AreSumsOfEach plan.now others (length rows.now)) }
{
    // What every plan keeps to is told with its units.
    let _planned = plan.units();
    let (hashes, pieces) = hashes_and_sums(alloc, rows)?;
    join_sums(alloc, plan, &hashes, pieces)
}

/// The hashes and the sums of all rows, one row after another.
fn hashes_and_sums(alloc: Global, rows: &[PieceRow]) -> Result<(Vec<Hash>, Vec<u8>), AllocError>
    ensures { IfOk result (λ both. (both.0.items ≡ hashes_of rows.now) × (both.1.items ≡ sums_of rows.now)) }
{
    let mut hashes = Vec::new(alloc);
    let mut pieces = Vec::new(alloc);
    'rows: for row in rows {
        hashes.extend_from_slice(&row.hashes)?;
        pieces.extend_from_slice(&row.pieces)?;
    }
    Ok((hashes, pieces))
}
