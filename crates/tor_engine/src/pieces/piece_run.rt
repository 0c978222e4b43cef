//! Some pieces of a plan that stand one after another, as units to hash.
ghost use Rattle.std.specs.Prelude.{◌≡◌, ◌≤◌, ◌∷◌, [], IfOk};
ghost use Rattle.std.specs.List.{AllByRecursion};
ghost use Rattle.tor_plan.specs.Pieces.{pieces_of_unit};
ghost use Rattle.tor_plan.specs.PlanFacts.{IsPlan};
ghost use Rattle.tor_engine.specs.PieceHashes.{pieces_between, pieces_of_units};
ghost use Rattle.tor_engine.specs.Rows.{units_between};
ghost use Rattle.tor_engine.specs.steps.Pieces.{IsUnitToHash};

use std::alloc::{AllocError, Global};
use tor_plan::{Part, Parts, Plan, PlanUnit};
use tor_sums::append;

/// The pieces of a plan from the number `from` on, and before the number `to`. If they are joined, a unit whose pieces
/// are all wanted stays one unit, so that its files are opened once; each other piece is a unit by itself.
pub(crate) fn units_of_pieces(
    alloc: Global,
    plan: &Plan,
    from: usize,
    to: usize,
    joined: bool,
) -> Result<Vec<PlanUnit>, AllocError>
    requires { from ≤ to }
    ensures pieces { IfOk result (λ units.
        pieces_of_units plan.now.piece_length units.items ≡ pieces_between plan.now from to) }
    ensures units { IfOk result (λ units. AllByRecursion (IsUnitToHash plan.now) units.items) }
    ensures planned { IsPlan plan.now }
{
    let mut run = Vec::new(alloc);
    // Where the run begins and ends, counted from the first piece that was not looked at yet.
    let mut first = from;
    let mut after = to;
    'units: for unit in plan.units() {
        let pieces = pieces_in(alloc, plan, unit)?;
        let count = pieces.len();
        let own = wanted_units(alloc, plan, unit, pieces, first, after, joined)?;
        append(&mut run, own)?;
        first = first.saturating_sub(count);
        after = after.saturating_sub(count);
    }
    Ok(run)
}

/// The pieces of a unit, each as a unit.
fn pieces_in(alloc: Global, plan: &Plan, unit: &PlanUnit) -> Result<Vec<PlanUnit>, AllocError>
    requires planned { IsPlan plan.now }
    requires unit { IsUnitToHash plan.now unit.now }
    ensures { IfOk result (λ pieces. pieces.items ≡ pieces_of_unit plan.now.piece_length unit.now) }
{
    unit.pieces(alloc, plan.piece_length())
}

/// Of a unit that has these pieces, those from one number on, and before another: the unit itself, if they are joined
/// and all.
fn wanted_units(
    alloc: Global,
    plan: &Plan,
    unit: &PlanUnit,
    pieces: Vec<PlanUnit>,
    first: usize,
    after: usize,
    joined: bool,
) -> Result<Vec<PlanUnit>, AllocError>
    requires ordered { first ≤ after }
    requires unit { IsUnitToHash plan.now unit.now }
    requires pieces { pieces.items ≡ pieces_of_unit plan.now.piece_length unit.now }
    requires alone { AllByRecursion (λ piece. pieces_of_unit plan.now.piece_length piece ≡ piece ∷ []) pieces.items }
    ensures pieces { IfOk result (λ units.
        pieces_of_units plan.now.piece_length units.items ≡ units_between first after pieces.items) }
    ensures units { IfOk result (λ units. AllByRecursion (IsUnitToHash plan.now) units.items) }
{
    if joined && first == 0 && after >= pieces.len() {
        return Ok(vec![in alloc; copy_of(alloc, unit)?]?);
    }
    let mut before = pieces;
    before.truncate(after);
    let skipped = first.min(before.len());
    let own = before.split_off(skipped)?;
    Ok(own)
}

/// The same unit once more.
fn copy_of(alloc: Global, unit: &PlanUnit) -> Result<PlanUnit, AllocError>
    ensures { IfOk result (λ copy. copy ≡ unit.now) }
{
    let parts = Vec::from_slice(alloc, unit.parts.as_slice())?;
    Ok(PlanUnit {
        zeros: unit.zeros,
        parts: Parts::new(parts),
    })
}
