//! Entries cut into units of work.
ghost use Rattle.std.specs.Prelude.{◌≡◌, IfOk};
ghost use Rattle.tor_plan.specs.EntryList.{IsEntryList};
ghost use Rattle.tor_plan.specs.PlanFacts.{IsPlanPieceLength, IsSpan, plan_of_entries};

use std::alloc::{AllocError, Global};
use tor_plan::Plan;
use tor_tree::Kind;
use tor_v1::Entry;

/// The plan of the entries of a torrent, in units of `span` pieces, or fewer at an end. Padding is in them as zeros.
pub fn plan_of(
    alloc: Global,
    entries: &[Entry],
    kind: Kind,
    piece_length: u64,
    span: u32,
) -> Result<Plan, AllocError>
    requires pieces { IsPlanPieceLength kind piece_length }
    requires span { IsSpan span }
    requires entries { IsEntryList kind piece_length entries.now }
    ensures { IfOk result (λ plan. plan ≡ plan_of_entries kind piece_length span entries.now) }
{
    Plan::of_entries(alloc, entries, kind, piece_length, span)
}
