//! Whether rows have what all pieces of a plan want.
ghost use Rattle.std.specs.Prelude.{◌≡◌, ◌↔◌, ◌<◌, ◌≤◌, ◌*◌, ◌^◌, All, IsTrue, length};
ghost use Rattle.std.specs.Prelude.{if◌then◌else◌};
ghost use Rattle.std.specs.Int.{div_ceil};
ghost use Rattle.tor_parts.specs.Dealing.{bytes_of};
ghost use Rattle.tor_parts.specs.JoinedRows.{HasAllPieces, hashes_of, sums_of};
ghost use Rattle.tor_parts.specs.Joining.{pieces_of_lengths};
ghost use Rattle.tor_plan.specs.PlanFacts.{IsPlan};
ghost use Rattle.tor_tree.specs.Kinds.{has_v1, has_v2};

use crate::dealing::total_of;
use tor_engine::PieceRow;
use tor_plan::Plan;

/// Whether rows have, all together, as many Merkle hashes as the files of a plan have pieces, and 20 bytes of SHA-1 for
/// each piece of the whole content; and none of either if the kind has none.
pub fn has_all_pieces(plan: &Plan, rows: &[PieceRow]) -> bool
    ensures { IsTrue result ↔ HasAllPieces plan.now rows.now }
{
    hash_count(rows) == wanted_hashes(plan) && sum_count(rows) == wanted_sums(plan)
}

/// How many Merkle hashes rows have together.
fn hash_count(rows: &[PieceRow]) -> u128
    ensures { result ≡ length (hashes_of rows.now) }
{
    let mut count: u128 = 0;
    'rows: for row in rows {
        count += row.hashes.len() as u128;
    }
    count
}

/// How many bytes of SHA-1 rows have together.
fn sum_count(rows: &[PieceRow]) -> u128
    ensures { result ≡ length (sums_of rows.now) }
{
    let mut count: u128 = 0;
    'rows: for row in rows {
        count += row.pieces.len() as u128;
    }
    count
}

/// How many Merkle hashes the pieces of a plan have.
fn wanted_hashes(plan: &Plan) -> u128
    ensures { result ≡ (if has_v2 plan.now.kind then pieces_of_lengths plan.now.piece_length plan.now.lengths else 0) }
{
    // What every plan keeps to is told with its units.
    let _planned = plan.units();
    if plan.kind().has_v2() {
        piece_count(plan.piece_length(), plan.lengths())
    } else {
        0
    }
}

/// How many bytes of SHA-1 they have.
fn wanted_sums(plan: &Plan) -> u128
    ensures { result ≡ (if has_v1 plan.now.kind
        then div_ceil (bytes_of plan.now.units) plan.now.piece_length * 20 else 0) }
{
    if plan.kind().has_v1() {
        total_of(plan.units()).div_ceil(u128::from(plan.piece_length())) * 20
    } else {
        0
    }
}

/// How many pieces files of these lengths have, each by itself.
fn piece_count(piece_length: u64, lengths: &[u64]) -> u128
    requires { 0 < piece_length }
    ensures { result ≡ pieces_of_lengths piece_length lengths.now }
{
    let mut count: u128 = 0;
    'lengths: for length in lengths {
        count += u128::from(length.div_ceil(piece_length));
    }
    count
}
