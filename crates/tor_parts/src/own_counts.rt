//! Whether a lot has as many hashes as its pieces want.
ghost use Rattle.std.specs.Prelude.{◌≡◌, ◌↔◌, ◌<◌, ◌≤◌, ◌*◌, ◌^◌, All, IsTrue, length, sum_by};
ghost use Rattle.std.specs.Prelude.{if◌then◌else◌};
ghost use Rattle.std.specs.Int.{div_ceil};
ghost use Rattle.tor_engine.specs.Rows.{AreInFiles, units_between};
ghost use Rattle.tor_parts.specs.LotCounts.{HasOwnPieces, pieces_of_parts, pieces_of_units};
ghost use Rattle.tor_plan.specs.WithinEntries.{unit_length};
ghost use Rattle.tor_tree.specs.Kinds.{has_v1, has_v2};

use tor_engine::{PieceRow, unit_length};
use tor_plan::{Part, Plan, PlanUnit};

/// Whether a row has, for the units from the number `from` on and before the number `to`, a Merkle hash for each piece
/// of their files, and 20 bytes of SHA-1 for each piece of all their bytes; and none of either if the kind has none.
pub fn has_own_pieces(plan: &Plan, from: usize, to: usize, row: &PieceRow) -> bool
    requires ordered { from ≤ to }
    requires within { to ≤ length plan.now.units }
    ensures { IsTrue result ↔ HasOwnPieces plan.now (units_between from to plan.now.units) row.now }
{
    let units = units_between(plan, from, to);
    row.hashes.len() as u128 == wanted_hashes(plan, units)
        && row.pieces.len() as u128 == wanted_sums(plan, units)
}

/// How many Merkle hashes the pieces of units have.
fn wanted_hashes(plan: &Plan, units: &[PlanUnit]) -> u128
    requires small { All (λ unit. unit_length unit ≤ 2 ^ 40) units.now }
    requires few { length units.now ≤ 2 ^ 62 }
    ensures { result ≡ (if has_v2 plan.now.kind then pieces_of_parts plan.now.piece_length units.now else 0) }
{
    // What every plan keeps to is told with its units.
    let _planned = plan.units();
    if plan.kind().has_v2() {
        pieces_of_parts(units, plan.piece_length())
    } else {
        0
    }
}

/// How many bytes of SHA-1 they have.
fn wanted_sums(plan: &Plan, units: &[PlanUnit]) -> u128
    requires small { All (λ unit. unit_length unit ≤ 2 ^ 40) units.now }
    requires few { length units.now ≤ 2 ^ 62 }
    ensures { result ≡ (if has_v1 plan.now.kind then pieces_of_units plan.now.piece_length units.now * 20 else 0) }
{
    // What every plan keeps to is told with its units.
    let _planned = plan.units();
    if plan.kind().has_v1() {
        pieces_of_units(units, plan.piece_length()) * 20
    } else {
        0
    }
}

/// How many pieces of files units have.
fn pieces_of_parts(units: &[PlanUnit], piece_length: u64) -> u128
    requires piece { 0 < piece_length }
    requires small { All (λ unit. unit_length unit ≤ 2 ^ 40) units.now }
    requires few { length units.now ≤ 2 ^ 62 }
    ensures { result ≡ pieces_of_parts piece_length units.now }
{
    let mut count: u128 = 0;
    'units: for unit in units {
        count += pieces_of_unit(unit, piece_length);
    }
    count
}

/// How many pieces of files a unit has.
fn pieces_of_unit(unit: &PlanUnit, piece_length: u64) -> u128
    requires piece { 0 < piece_length }
    requires small { unit_length unit.now ≤ 2 ^ 40 }
    ensures count { result ≡ sum_by (λ part. div_ceil part.length piece_length) unit.now.parts }
    ensures few { result ≤ 2 ^ 40 }
{
    count_of(unit.parts.as_slice(), piece_length)
}

/// How many pieces parts have.
fn count_of(parts: &[Part], piece_length: u64) -> u128
    requires { 0 < piece_length }
    ensures { result ≡ sum_by (λ part. div_ceil part.length piece_length) parts.now }
{
    let mut count: u128 = 0;
    'parts: for part in parts {
        count += u128::from(part.length.div_ceil(piece_length));
    }
    count
}

/// How many pieces of all bytes units have.
fn pieces_of_units(units: &[PlanUnit], piece_length: u64) -> u128
    requires piece { 0 < piece_length }
    requires small { All (λ unit. unit_length unit ≤ 2 ^ 40) units.now }
    requires few { length units.now ≤ 2 ^ 62 }
    ensures count { result ≡ pieces_of_units piece_length units.now }
    ensures few { result ≤ length units.now * 2 ^ 40 }
{
    let mut count: u128 = 0;
    'units: for unit in units {
        count += u128::from(unit_length(unit).div_ceil(piece_length));
    }
    count
}

/// The units of a plan from one number on, and before another.
pub(crate) fn units_between(plan: &Plan, from: usize, to: usize) -> &[PlanUnit]
    requires ordered { from ≤ to }
    requires within { to ≤ length plan.now.units }
    ensures units { result.now ≡ units_between from to plan.now.units }
    ensures in_files { AreInFiles plan.now.lengths result.now }
    ensures small { All (λ unit. unit_length unit ≤ 2 ^ 40) result.now }
    ensures few { length result.now ≤ 2 ^ 62 }
{
    let (_, later) = plan.units().split_at(from);
    let (own, _) = later.split_at(to - from);
    own
}
