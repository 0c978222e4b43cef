//! All bytes of the entries of a torrent, or of its files, as one unit.
ghost use Rattle.std.specs.Prelude.{◌≡◌, ◌≤◌, IfOk, OnOk};
ghost use Rattle.tor_tree.specs.declared.lists.TheConstants.{MAX_TOTAL};
ghost use Rattle.tor_plan.specs.Entries.{entries_length};
ghost use Rattle.tor_plan.specs.steps.Joined.{file_alone, joined};
ghost use Rattle.tor_plan.specs.steps.Whole.{unnamed, whole_unit};

use crate::units::{Part, PlanUnit};
use std::alloc::{AllocError, Global};
use tor_v1::Entry;

/// The entries, padding among them.
pub(crate) fn whole_of_entries(alloc: Global, entries: &[Entry]) -> Result<PlanUnit, AllocError>
    requires small { entries_length entries.now ≤ MAX_TOTAL }
    ensures { IfOk result (λ whole. whole ≡ whole_unit entries.now) }
{
    let mut whole = PlanUnit::empty(alloc);
    let mut index = 0;
    'entries: for entry in entries {
        if entry.pad {
            whole.add_zeros(entry.length);
        } else {
            add_file(&mut whole, index, entry.length)?;
            index += 1;
        }
    }
    Ok(whole)
}

/// Files of these lengths.
pub(crate) fn whole_of_lengths(alloc: Global, lengths: &[u64]) -> Result<PlanUnit, AllocError>
    ensures { IfOk result (λ whole. whole ≡ whole_unit (unnamed lengths.now)) }
{
    let mut whole = PlanUnit::empty(alloc);
    let mut index = 0;
    'files: for length in lengths {
        add_file(&mut whole, index, *length)?;
        index += 1;
    }
    Ok(whole)
}

// Adds a whole file, if it has bytes.
fn add_file(whole: &mut PlanUnit, file: u64, length: u64) -> Result<(), AllocError>
    ensures { OnOk result (whole.new ≡ joined whole.old (file_alone file length)) }
{
    if length > 0 {
        whole.add_part(Part {
            file,
            start: 0,
            length,
            zeros: 0,
        })?;
    }
    Ok(())
}
