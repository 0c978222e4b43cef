//! Whether a plan has pieces enough for a buffer of eight.
ghost use Rattle.std.specs.Prelude.{◌*◌, ◌≤◌};
ghost use Rattle.tor_plan.specs.PlanFacts.{IsPlan};

use tor_plan::{Plan, PlanUnit};

/// How many bytes and zeros a plan has, or eight of its pieces if it has more. A buffer for these is made at once, so
/// that a worker takes no more memory for a few long pieces than it needs.
pub(crate) fn bytes_of_eight(plan: &Plan) -> u64
    requires { IsPlan plan.now }
    ensures { result ≤ 8 * plan.now.piece_length }
{
    let eight = 8 * plan.piece_length();
    let mut count: u64 = 0;
    'units: for unit in plan.units() {
        if count >= eight {
            return eight;
        }
        count = count.saturating_add(bytes_of(unit));
    }
    count.min(eight)
}

// How many bytes and zeros a unit has.
fn bytes_of(unit: &PlanUnit) -> u64 {
    let mut count = unit.zeros;
    'parts: for part in unit.parts.as_slice() {
        count = count.saturating_add(part.length.saturating_add(part.zeros));
    }
    count
}
