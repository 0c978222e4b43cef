//! One lot of a plan, as bytes.
ghost use Rattle.std.specs.Prelude.{◌≡◌, ◌≤◌, ◌<◌, ℕ, IfErr, IfOk, List, MatchResult, None, length, map};
ghost use Rattle.tor_engine.specs.Rows.{AreSameAt};
ghost use Rattle.tor_merkle.specs.Layer.{pieces_root};
ghost use Rattle.tor_meta.specs.JudgedPlan.{bytes_of_plan};
ghost use Rattle.tor_meta.specs.Listing.{text_of_listing};
ghost use Rattle.tor_meta.specs.Lots.{IsLotOf, plan_of_text};
ghost use Rattle.tor_parts.specs.Dealing.{dealt};
ghost use Rattle.tor_parts.specs.OwnFiles.{HasToldOf, IsGivenOwn, IsOfFiles, files_of, own_fault};
ghost use Rattle.tor_parts.specs.declared.lot_text.TheConstants.{MAX_LOTS};
ghost use Rattle.tor_source.specs.Source.{SourceFacts};
ghost use Rattle.tor_sums.specs.Contents.{contents_in};
ghost use Rattle.tor_sums.specs.Fault.{IsFault};
ghost use Rattle.tor_sums.specs.How.{IsHow};
ghost use Rattle.tor_tree.specs.FileList.{lengths_of};

use crate::plans::JudgedPlan;
use std::alloc::Global;
use std::thread::Threads;
use tor_engine::{EngineError, How};
use tor_parts::{Lot, hash_own, write_lot};
use tor_source::Source;

/// The bytes of one of so many lots of a plan: file i of its listing is file i of the source. Lots are counted from 0.
/// The lengths of the files of which the lot has bytes are asked, in their order, then these bytes are read, and then
/// the lengths are asked again; no other file is asked for.
///
/// # Errors
///
/// The first fault of these files: `Read`, `Changed` or `Missing` for a length, then `Read` or `Changed` for a byte.
/// `Resources` at any place.
pub fn make_lot<S: Source, R: Threads + Sync>(
    rt: &R,
    alloc: Global,
    source: &S,
    plan: &JudgedPlan,
    lots: u32,
    number: u32,
    how: How,
) -> Result<Vec<u8>, EngineError<S::Fault>>
    requires how { IsHow how }
    requires within { number < lots }
    requires most { lots ≤ MAX_LOTS }
    ensures made { (facts : SourceFacts S.Fault) (contents : List (List ℕ)) → S.is_steady source.now facts →
        map length contents ≡ lengths_of plan.now.listing.list.files →
        AreSameAt contents (contents_in facts (length (lengths_of plan.now.listing.list.files)))
        (dealt lots number (plan_of_text (text_of_listing plan.now.listing)).units) →
        IfOk result (λ bytes. IsLotOf (plan_of_text (text_of_listing plan.now.listing))
        (pieces_root (bytes_of_plan plan.now)) lots number contents bytes.items) }
    ensures fault { (facts : SourceFacts S.Fault) → S.is_steady source.now facts → MatchResult result
        (λ _. own_fault facts (lengths_of plan.now.listing.list.files)
        (dealt lots number (plan_of_text (text_of_listing plan.now.listing)).units) ≡ None)
        (IsFault (own_fault facts (lengths_of plan.now.listing.list.files)
        (dealt lots number (plan_of_text (text_of_listing plan.now.listing)).units))) }
    ensures whole { IfOk result (λ bytes. (contents : List (List ℕ))
        × (map length contents ≡ lengths_of plan.now.listing.list.files)
        × IsLotOf (plan_of_text (text_of_listing plan.now.listing)) (pieces_root (bytes_of_plan plan.now)) lots number
        contents bytes.items) }
    ensures told { IfOk result (λ _. HasToldOf (S.answers source.now) (lengths_of plan.now.listing.list.files)
        (files_of (dealt lots number (plan_of_text (text_of_listing plan.now.listing)).units))) }
    ensures of_lot { IfErr result
        (IsOfFiles (files_of (dealt lots number (plan_of_text (text_of_listing plan.now.listing)).units))) }
    ensures gave { IfErr result (IsGivenOwn (S.answers source.now) (lengths_of plan.now.listing.list.files)) }
{
    let units = plan.units(alloc)?;
    let row = match hash_own(rt, alloc, source, &units, lots, number, how) {
        Ok(row) => row,
        Err(error) => return Err(error),
    };
    let lot = Lot {
        number,
        lots,
        plan: plan.digest(),
        row,
    };
    let bytes = write_lot(alloc, &lot)?;
    Ok(bytes)
}
