//! How many workers have something to do. No answer depends on it.
ghost use Rattle.std.specs.Prelude.{◌≤◌};
ghost use Rattle.tor_sums.specs.How.{IsHow, workers_of};

use crate::pieces::present::length_told;
use tor_plan::PlanUnit;
use tor_sums::{How, MAX_WORKERS};

/// By no more workers than there are units with a byte that is there, by the lengths that were told: one worker passes
/// over any number of others, and what several of them found would be held more than once while it is joined.
pub(crate) fn with_work(how: How, units: &[PlanUnit], told: &[Option<u64>]) -> How
    ensures fewer { workers_of result ≤ workers_of how }
    ensures allowed { IsHow how → IsHow result }
{
    let most = begun_units(units, told).max(1);
    match how {
        How::One => How::One,
        How::Halves(workers) => How::Halves(workers.min(most)),
        How::Board(workers) => How::Board(workers.min(most)),
    }
}

/// How many of the units have a byte that is there, as far as there can be workers.
fn begun_units(units: &[PlanUnit], told: &[Option<u64>]) -> u32 {
    let mut count: u32 = 0;
    'units: for unit in units {
        if count >= MAX_WORKERS {
            return count;
        }
        if is_begun(unit, told) {
            count = count.saturating_add(1);
        }
    }
    count
}

/// Whether a unit has a byte that is there.
fn is_begun(unit: &PlanUnit, told: &[Option<u64>]) -> bool {
    'parts: for part in unit.parts.as_slice() {
        if part.start < length_told(told, part.file) {
            return true;
        }
    }
    false
}

/// Whether each worker gets four units and more, if so many pieces are joined to units of 16.
pub(crate) fn keeps_busy(count: usize, how: How) -> bool {
    match how {
        How::One => true,
        How::Halves(workers) | How::Board(workers) => count / 64 >= workers as usize,
    }
}
