//! Files that are cut each by itself, as trees need it.
ghost use Rattle.std.specs.Prelude.{◌≡◌, ◌+◌, ◌<◌, ◌^◌, ◌++◌, All, IfOk, OnOk};
ghost use Rattle.tor_plan.specs.Pieces.{pieces_of_unit};
ghost use Rattle.tor_plan.specs.steps.Joined.{part_alone};
ghost use Rattle.tor_plan.specs.steps.Whole.{separate_pieces};

use crate::units::{Part, PlanUnit};
use std::alloc::{AllocError, Global};

/// The units of whole files that are cut every `size` bytes, each by itself, with the zeros after its last byte.
pub(crate) fn cut_each(
    alloc: Global,
    files: &[Part],
    size: u64,
) -> Result<Vec<PlanUnit>, AllocError>
    requires some { 0 < size }
    requires small { All (λ part. part.start + part.length < 2 ^ 64) files.now }
    ensures { IfOk result (λ units. units.items ≡ separate_pieces size files.now) }
{
    let mut units = Vec::new(alloc);
    'files: for part in files {
        append(&mut units, cut_file(alloc, *part, size)?)?;
    }
    Ok(units)
}

// The units of one file.
fn cut_file(alloc: Global, part: Part, size: u64) -> Result<Vec<PlanUnit>, AllocError>
    requires some { 0 < size }
    requires small { part.start + part.length < 2 ^ 64 }
    ensures { IfOk result (λ units. units.items ≡ pieces_of_unit size (part_alone part)) }
{
    let unit = unit_of(alloc, part)?;
    unit.pieces(alloc, size)
}

// The unit of one part.
fn unit_of(alloc: Global, part: Part) -> Result<PlanUnit, AllocError>
    ensures { IfOk result (λ unit. unit ≡ part_alone part) }
{
    let mut unit = PlanUnit::empty(alloc);
    unit.add_part(part)?;
    Ok(unit)
}

// Puts units after others.
fn append(units: &mut Vec<PlanUnit>, next: Vec<PlanUnit>) -> Result<(), AllocError>
    ensures { OnOk result (units.new.items ≡ units.old.items ++ next.items) }
{
    'units: for unit in next {
        units.push(unit)?;
    }
    Ok(())
}
