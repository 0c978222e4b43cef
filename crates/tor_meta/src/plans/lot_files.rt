//! Which files of a plan a lot has bytes of.
ghost use Rattle.std.specs.Prelude.{◌≡◌, ◌<◌, ◌||◌, ◌==◌, ℕ, All, IfOk, false, length, slice_index_or, vec_len};
ghost use Rattle.std.specs.List.{list_any};
ghost use Rattle.tor_meta.specs.Listing.{text_of_listing};
ghost use Rattle.tor_meta.specs.Lots.{has_bytes_of, plan_of_text};
ghost use Rattle.tor_parts.specs.Dealing.{dealt};

use crate::listed_files::plan_of_listing;
use crate::listing::Listing;
use std::alloc::{AllocError, Global};
use tor_parts::units_of_lot;
use tor_plan::{Part, PlanUnit};

/// Of each file of a listing, whether one of so many lots of its plan has bytes of it. Lots are counted from 0.
pub fn files_of_lot(
    alloc: Global,
    listing: &Listing,
    lots: u32,
    number: u32,
) -> Result<Vec<bool>, AllocError>
    requires within { number < lots }
    ensures count { IfOk result (λ own. length own.items ≡ length listing.now.list.files) }
    ensures own { IfOk result (λ own. (file : ℕ) → slice_index_or own.items file false
        ≡ has_bytes_of (dealt lots number (plan_of_text (text_of_listing listing.now)).units) file) }
{
    let plan = plan_of_listing(alloc, listing)?;
    let mut own = vec![in alloc; false; plan.lengths().len()]?;
    mark_units(units_of_lot(&plan, lots, number), &mut own);
    Ok(own)
}

// Marks the files of which units have bytes.
fn mark_units(units: &[PlanUnit], own: &mut Vec<bool>)
    requires { All (λ unit. All (λ part. part.file < vec_len own.old) unit.parts) units.now }
    ensures length { vec_len own.new ≡ vec_len own.old }
    ensures marked { (file : ℕ) → slice_index_or own.new.items file false
        ≡ (slice_index_or own.old.items file false || has_bytes_of units.now file) }
{
    'units: for unit in units {
        mark_parts(unit.parts.as_slice(), own);
    }
}

// Marks the files of which there are parts.
fn mark_parts(parts: &[Part], own: &mut Vec<bool>)
    requires { All (λ part. part.file < vec_len own.old) parts.now }
    ensures length { vec_len own.new ≡ vec_len own.old }
    ensures marked { (file : ℕ) → slice_index_or own.new.items file false
        ≡ (slice_index_or own.old.items file false || list_any (λ part. part.file == file) parts.now) }
{
    'parts: for part in parts {
        own[part.file as usize] = true;
    }
}
