//! A plan: what is made of a listing by many machines, as bytes.
//!
//! - `planned.rt`: the plan of the files of a source. `plan_text.rt` writes a plan, `plan_reading.rt` reads one.
//! - `lots.rt`: one lot of a plan, hashed; `lot_files.rt`: which files it has bytes of.
//! - `joined.rt`: the torrent of a plan and its lots, which `lot_rows.rt` puts in order.
ghost use Rattle.std.specs.Prelude.{◌≡◌, ◌<◌, IfErr, IfOk, MatchResult, None, OnOk, length};
ghost use Rattle.tor_merkle.specs.Layer.{pieces_root};
ghost use Rattle.tor_meta.specs.JudgedPlan.{bytes_of_plan};
ghost use Rattle.tor_meta.specs.Listing.{IsPlanRefusal, IsRefusalOf, listing_refusal, text_of_listing};
ghost use Rattle.tor_meta.specs.PlanText.{IsPlanText, PlanText, plan_bytes};
ghost use Rattle.tor_meta.specs.steps.PlanParts.{parts_text};

pub(crate) mod joined;
pub(crate) mod lot_files;
pub(crate) mod lot_rows;
pub(crate) mod lots;
pub(crate) mod plan_reading;
pub(crate) mod plan_text;
pub(crate) mod planned;

use crate::listed_files::plan_of_listing;
use crate::listing::Listing;
use crate::listing_error::{ListingError, PlanError};
use crate::plans::plan_reading::{PlanParts, read_plan_parts};
use crate::plans::plan_text::plan_bytes;
use crate::refusals::ContentsError;
use std::alloc::{AllocError, Global};
use std::marker::Model;
use tor_merkle::laws::lengths_of_blocks_and_pieces;
use tor_merkle::{Feed, Hash, MAX_LENGTH, MIN_PIECE_LENGTH};
use tor_plan::Plan;

/// The bytes of the plan of a listing: the bencode of one dictionary (BEP 3, "bencoding"). It has what the torrent is
/// made with, the files in their order as one flat list, three items a file, and the pieces of a unit.
pub fn write_plan(alloc: Global, listing: &Listing) -> Result<Vec<u8>, AllocError>
    ensures written { IfOk result (λ bytes. bytes.items ≡ plan_bytes (text_of_listing listing.now)) }
{
    let list = listing.list();
    plan_bytes(
        alloc,
        listing.head(),
        listing.span(),
        list.files(),
        list.attrs(),
    )
}

/// A plan that was read, and of which a torrent is made. Contracts see what it tells, and its digest.
#[derive(Debug, Drop)]
pub struct JudgedPlan {
    listing: Listing,
    digest: Hash,
}

impl Model for JudgedPlan {
    ghost use Rattle.tor_meta.specs.JudgedPlan.{IsJudgedPlan, JudgedPlanFacts};

    ghost Value = { JudgedPlanFacts };

    ghost view = { λ plan. record { listing = plan.listing; digest = plan.digest } };

    ghost invariant = { λ plan. IsJudgedPlan (record { listing = plan.listing; digest = plan.digest }) };
}

impl JudgedPlan {
    ghost use Rattle.std.specs.Prelude.{◌≡◌, IfOk};
    ghost use Rattle.tor_merkle.specs.Layer.{pieces_root};
    ghost use Rattle.tor_meta.specs.JudgedPlan.{IsJudgedPlan, bytes_of_plan};
    ghost use Rattle.tor_meta.specs.Listing.{text_of_listing};
    ghost use Rattle.tor_meta.specs.Lots.{plan_of_text};
    ghost use Rattle.tor_tree.specs.FileList.{lengths_of};

    /// What it tells.
    pub fn listing(&self) -> &Listing
        ensures value { result.now ≡ self.now.listing }
        ensures lawful { IsJudgedPlan self.now }
    {
        &self.listing
    }

    /// Its units.
    pub(crate) fn units(&self, alloc: Global) -> Result<Plan, AllocError>
        ensures same { IfOk result (λ plan. plan ≡ plan_of_text (text_of_listing self.now.listing)) }
        ensures lengths { IfOk result (λ plan. plan.lengths ≡ lengths_of self.now.listing.list.files) }
    {
        plan_of_listing(alloc, &self.listing)
    }

    /// The root of a file that has its bytes (BEP 52, "pieces root"), by which its lots name it.
    pub fn digest(&self) -> Hash
        ensures { result ≡ pieces_root (bytes_of_plan self.now) }
    {
        self.digest
    }
}

/// The plan that has these bytes, as [`write_plan`] gives them. It takes time and memory linear in the bytes.
///
/// # Errors
///
/// `NotAPlan` for bytes that are those of no plan; `Refused` for those of a plan of which no torrent is made, with the
/// first refusal; `Memory`.
pub fn read_plan(alloc: Global, bytes: &[u8]) -> Result<JudgedPlan, PlanError>
    ensures read { IfOk result (λ plan. bytes.now ≡ bytes_of_plan plan) }
    ensures told { IfOk result (λ plan. IsPlanText (text_of_listing plan.listing)) }
    ensures accepted { IfOk result (λ plan. listing_refusal (text_of_listing plan.listing) ≡ None) }
    ensures all { (text : PlanText) → IsPlanText text → bytes.now ≡ plan_bytes text →
        MatchResult result (λ plan. text_of_listing plan.listing ≡ text) (IsRefusalOf text) }
    ensures refused { IfErr result (IsPlanRefusal bytes.now) }
{
    match read_plan_parts(alloc, bytes) {
        Ok(Some(parts)) => judged_plan(alloc, parts, bytes),
        Ok(None) => Err(PlanError::NotAPlan),
        Err(AllocError) => Err(PlanError::Memory),
    }
}

/// The plan that tells this in these bytes, if a torrent is made of it.
fn judged_plan(alloc: Global, parts: PlanParts, bytes: &[u8]) -> Result<JudgedPlan, PlanError>
    requires told { IsPlanText (parts_text parts) }
    requires bytes { bytes.now ≡ plan_bytes (parts_text parts) }
    ensures made { IfOk result (λ plan. text_of_listing plan.listing ≡ parts_text parts) }
    ensures accepted { OnOk result (listing_refusal (parts_text parts) ≡ None) }
    ensures refused { IfErr result (IsRefusalOf (parts_text parts)) }
{
    let PlanParts {
        head,
        span,
        files,
        attrs,
    } = parts;
    let listing = match Listing::new(alloc, head, span, files, attrs) {
        Ok(listing) => listing,
        Err(ListingError::Contents(ContentsError::Memory)) => return Err(PlanError::Memory),
        Err(refusal) => return Err(PlanError::Refused(refusal)),
    };
    match plan_digest(alloc, bytes) {
        Ok(digest) => Ok(JudgedPlan { listing, digest }),
        Err(AllocError) => Err(PlanError::Memory),
    }
}

/// The digest of a plan: the root of a file that has its bytes (BEP 52, "pieces root").
///
/// # Errors
///
/// Memory was refused, or there are more than 2^50 bytes, which no memory has.
fn plan_digest(alloc: Global, bytes: &[u8]) -> Result<Hash, AllocError>
    requires { 0 < length bytes.now }
    ensures { IfOk result (λ digest. digest ≡ pieces_root bytes.now) }
{
    if bytes.len() as u64 > MAX_LENGTH {
        return Err(AllocError);
    }
    lengths_of_blocks_and_pieces();
    let feed = Feed::new(alloc, MIN_PIECE_LENGTH);
    match feed.end_with(bytes)?.finish() {
        Some(sums) => {
            let root = sums.0;
            Ok(root)
        }
        None => unreachable!(),
    }
}
