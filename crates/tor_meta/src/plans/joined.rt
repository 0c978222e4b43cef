//! The torrent of a plan and its lots, as bytes.
ghost use Rattle.std.specs.Prelude.{◌≡◌, ℕ, IfErr, IfOk, List, length, map, slice_index};
ghost use Rattle.tor_merkle.specs.Layer.{pieces_root};
ghost use Rattle.tor_meta.specs.Contents.{files_of};
ghost use Rattle.tor_spec.specs.Hashes.{HasInfo};
ghost use Rattle.tor_meta.specs.JudgedPlan.{bytes_of_plan};
ghost use Rattle.tor_meta.specs.Listing.{text_of_listing};
ghost use Rattle.tor_meta.specs.Lots.{AreAllLots, AreLotsOf, AreNotAll, IsJoinRefusal, IsJoined, IsTorrentOfLots};
ghost use Rattle.tor_meta.specs.Lots.{plan_of_text};
ghost use Rattle.tor_meta.specs.PlanText.{IsPlanText, PlanText, plan_bytes};
ghost use Rattle.tor_meta.specs.steps.Join.{texts_of};
ghost use Rattle.tor_parts.specs.LotText.{LotFacts};
ghost use Rattle.tor_spec.specs.Metainfo.{metainfo};
ghost use Rattle.tor_tree.specs.FileList.{lengths_of};

use crate::from_rows::torrent_of_rows;
use crate::join_error::JoinError;
use crate::listing_error::PlanError;
use crate::plans::lot_rows::rows_of_lots;
use crate::plans::{JudgedPlan, read_plan};
use std::alloc::Global;

/// The bytes of the torrent of a plan ([`write_plan`](crate::write_plan)) and its lots
/// ([`make_lot`](crate::make_lot)), in any order. Of whatever plan and lots it is the torrent of the plan's files with
/// the lots' hashes as layers, the roots over them, and the lots' SHA-1. If the lots are those of the same contents,
/// each at its own units, it is the torrent of the contents. It takes time and memory linear in the plan and the lots.
///
/// # Errors
///
/// The first that holds: `Plan`; of the lots in their order the first that has one of `NoPart` to `Length`, and of that
/// the first; `Missing`. `Memory` at any place.
pub fn join_lots(alloc: Global, plan: &[u8], lots: &[Vec<u8>]) -> Result<Vec<u8>, JoinError>
    ensures joined { IfOk result (λ bytes. IsJoined plan.now (texts_of lots.now) bytes.items) }
    ensures refused { IfErr result (IsJoinRefusal plan.now (texts_of lots.now)) }
    ensures made { (text : PlanText) (contents : List (List ℕ)) → IsPlanText text → plan.now ≡ plan_bytes text →
        map length contents ≡ lengths_of text.list.files →
        AreLotsOf (plan_of_text text) (pieces_root plan.now) contents (texts_of lots.now) →
        IfOk result (λ bytes. bytes.items ≡ metainfo text.settings (files_of text.list contents)) }
    ensures info { IfOk result (λ bytes. HasInfo bytes.items) }
{
    match read_plan(alloc, plan) {
        Ok(plan) => join_judged(alloc, &plan, lots),
        Err(PlanError::Memory) => Err(JoinError::Memory),
        Err(error) => Err(JoinError::Plan(error)),
    }
}

/// The torrent of a plan that was read, and of its lots.
fn join_judged(alloc: Global, plan: &JudgedPlan, lots: &[Vec<u8>]) -> Result<Vec<u8>, JoinError>
    ensures joined { IfOk result (λ bytes. (count : ℕ) × (facts : List LotFacts)
        × AreAllLots (plan_of_text (text_of_listing plan.now.listing)) (pieces_root (bytes_of_plan plan.now))
        (texts_of lots.now) count facts
        × IsTorrentOfLots (text_of_listing plan.now.listing) count facts bytes.items) }
    ensures refused { IfErr result (AreNotAll (plan_of_text (text_of_listing plan.now.listing))
        (pieces_root (bytes_of_plan plan.now)) (texts_of lots.now)) }
    ensures made { (contents : List (List ℕ)) → map length contents ≡ lengths_of plan.now.listing.list.files →
        AreLotsOf (plan_of_text (text_of_listing plan.now.listing)) (pieces_root (bytes_of_plan plan.now)) contents
        (texts_of lots.now) → IfOk result (λ bytes. bytes.items
        ≡ metainfo (text_of_listing plan.now.listing).settings (files_of plan.now.listing.list contents)) }
    ensures info { IfOk result (λ bytes. HasInfo bytes.items) }
{
    let digest = plan.digest();
    let units = plan.units(alloc)?;
    // What every plan keeps to is told with its units.
    let _planned = units.units();
    let rows = match rows_of_lots(alloc, &units, &digest, lots) {
        Ok(rows) => rows,
        Err(error) => return Err(error),
    };
    let bytes = torrent_of_rows(alloc, plan.listing(), &units, &rows)?;
    Ok(bytes)
}
