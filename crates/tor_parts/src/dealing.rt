//! Which units of a plan each of so many lots has.
ghost use Rattle.std.specs.Prelude.{◌≡◌, ◌+◌, ◌^◌, ◌<◌, ◌≤◌, ℕ, All, IfOk, drop, length, slice_index, take};
ghost use Rattle.tor_plan.specs.WithinEntries.{unit_length};
ghost use Rattle.tor_parts.specs.Dealing.{bytes_of, first_byte, first_unit, units_before};

use std::alloc::{AllocError, Global};
use tor_engine::unit_length;
use tor_plan::{Plan, PlanUnit};

/// The number of the first unit of a lot, and of the first after it. Lots are counted from 0; each begins where its
/// share of all bytes does, and a unit belongs to the lot among whose bytes it begins. It goes over the units of the
/// plan three times at most, and takes no memory.
pub fn deal(plan: &Plan, lots: u32, lot: u32) -> (usize, usize)
    requires { lot < lots }
    ensures first { result.0 ≡ first_unit lots lot plan.now.units }
    ensures after { result.1 ≡ first_unit lots (lot + 1) plan.now.units }
    ensures ordered { result.0 ≤ result.1 }
    ensures within { result.1 ≤ length plan.now.units }
{
    let units = plan.units();
    let total = total_of(units);
    let first = first_unit(units, total, lots, u64::from(lot));
    let after = first_unit(units, total, lots, u64::from(lot) + 1);
    (first, after)
}

/// All bytes of units, those of padding among them.
pub(crate) fn total_of(units: &[PlanUnit]) -> u128
    requires small { All (λ unit. unit_length unit ≤ 2 ^ 40) units.now }
    requires few { length units.now ≤ 2 ^ 62 }
    ensures { result ≡ bytes_of units.now }
{
    let mut total: u128 = 0;
    'units: for unit in units {
        total += u128::from(unit_length(unit));
    }
    total
}

/// The number of the first unit of a lot; how many units there are, past the last lot.
fn first_unit(units: &[PlanUnit], total: u128, lots: u32, lot: u64) -> usize
    requires some { 0 < lots }
    requires small { All (λ unit. unit_length unit ≤ 2 ^ 40) units.now }
    requires few { length units.now ≤ 2 ^ 62 }
    requires total { total ≡ bytes_of units.now }
    ensures { result ≡ first_unit lots lot units.now }
{
    if lot < u64::from(lots) {
        units_before(units, first_byte(total, u128::from(lots), u128::from(lot)))
    } else {
        units.len()
    }
}

/// Where a lot begins among so many bytes.
fn first_byte(total: u128, lots: u128, lot: u128) -> u128
    requires { lot < lots }
    ensures { result ≡ first_byte total lots lot }
{
    let each = total / lots;
    let more = total % lots;
    lot * each + lot.min(more)
}

/// How many units begin before a byte.
fn units_before(units: &[PlanUnit], byte: u128) -> usize
    requires small { All (λ unit. unit_length unit ≤ 2 ^ 40) units.now }
    requires few { length units.now ≤ 2 ^ 62 }
    ensures { result ≡ units_before byte 0 units.now }
{
    let mut at: u128 = 0;
    'units: for (index, unit) in units.iter().enumerate() {
        if at >= byte {
            return index;
        }
        at += u128::from(unit_length(unit));
    }
    units.len()
}

/// The number of the first unit of each lot, and behind them how many units there are. It goes over the units of the
/// plan twice, however many lots there are.
pub fn deal_all(alloc: Global, plan: &Plan, lots: u32) -> Result<Vec<usize>, AllocError>
    requires { 0 < lots }
    ensures counted { IfOk result (λ firsts. length firsts.items ≡ lots + 1) }
    ensures first { IfOk result (λ firsts. (lot : ℕ) → lot ≤ lots →
        slice_index firsts.items lot ≡ first_unit lots lot plan.now.units) }
{
    let units = plan.units();
    let total = total_of(units);
    let mut firsts = Vec::with_capacity(alloc, lots as usize + 1)?;
    let mut unit = 0;
    let mut byte = 0;
    'lots: for lot in 0..lots {
        let first = first_byte(total, u128::from(lots), u128::from(lot));
        (unit, byte) = first_from(units, unit, byte, first);
        firsts.push(unit)?;
    }
    firsts.push(units.len())?;
    Ok(firsts)
}

/// From a unit on that begins at byte `at` the first that does not begin before a byte, and where it begins.
fn first_from(units: &[PlanUnit], from: usize, at: u128, byte: u128) -> (usize, u128)
    requires small { All (λ unit. unit_length unit ≤ 2 ^ 40) units.now }
    requires few { length units.now ≤ 2 ^ 62 }
    requires within { from ≤ length units.now }
    requires at { at ≡ bytes_of (take from units.now) }
    ensures first { result.0 ≡ from + units_before byte at (drop from units.now) }
    ensures at { result.1 ≡ bytes_of (take result.0 units.now) }
    ensures within { result.0 ≤ length units.now }
{
    let mut begins = at;
    'units: for index in from..units.len() {
        if begins >= byte {
            return (index, begins);
        }
        begins += u128::from(unit_length(&units[index]));
    }
    (units.len(), begins)
}
