//! What units give, joined in their order.
ghost use Rattle.std.specs.Prelude.{◌≡◌, ◌++◌, IfOk, List, OnErr, OnOk};
ghost use Rattle.std.specs.Fn.{FnReturnsAt};
ghost use Rattle.std.specs.List.{flat_map};

use crate::unit_sums::UnitSums;
use std::alloc::{AllocError, Global};
use tor_merkle::Hash;

/// Puts the items of one vector after those of another. Memory is asked for once, and for no more than both need; if
/// there is none, the items stay as they were.
pub fn append<T: Drop>(items: &mut Vec<T>, next: Vec<T>) -> Result<(), AllocError>
    ensures joined { OnOk result (items.new.items ≡ items.old.items ++ next.items) }
    ensures same { OnErr result (items.new.items ≡ items.old.items) }
{
    let mut next = next;
    items.append(&mut next)
}

/// What each of some units has, one after the other.
pub(crate) fn items_of_each<'a, T, U: Copy + 'a, F: Fn(&'a T) -> &'a [U]>(
    alloc: Global,
    units: &'a [T],
    items_of: F,
) -> Result<Vec<U>, AllocError>
    requires { F.IsAlwaysCallable items_of }
    ensures { (items : T → List U) →
        ((one : T) (own : _) → FnReturnsAt F.Fn items_of one own → own.now ≡ items one) →
        IfOk result (λ all. all.items ≡ flat_map items units.now) }
{
    let mut all = Vec::new(alloc);
    'units: for unit in units {
        all.extend_from_slice(items_of(unit))?;
    }
    Ok(all)
}

/// The joined SHA-1 of all units.
pub fn pieces_of_units(alloc: Global, units: &[UnitSums]) -> Result<Vec<u8>, AllocError>
    ensures { IfOk result (λ pieces. pieces.items ≡ flat_map (λ unit. unit.pieces.items) units.now) }
{
    items_of_each(alloc, units, |unit| unit.pieces.as_slice())
}

/// The layers of units, one after the other.
pub(crate) fn layer_of_units(alloc: Global, units: &[UnitSums]) -> Result<Vec<Hash>, AllocError>
    ensures { IfOk result (λ layer. layer.items ≡ flat_map (λ unit. unit.layer.items) units.now) }
{
    items_of_each(alloc, units, |unit| unit.layer.as_slice())
}
