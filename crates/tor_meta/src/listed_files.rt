//! The torrent of a listing whose bytes a source gives.
ghost use Rattle.std.specs.Prelude.{◌≡◌, List, ℕ, None, IfErr, IfOk, MatchResult, length, map};
ghost use Rattle.tor_sums.specs.Contents.{contents_in};
ghost use Rattle.tor_sums.specs.Fault.{IsFault, first_byte_fault, first_length_fault};
ghost use Rattle.tor_sums.specs.Given.{IsGivenNotMissing};
ghost use Rattle.tor_sums.specs.How.{IsHow};
ghost use Rattle.tor_bencode.specs.Spelling.{spelling};
ghost use Rattle.tor_meta.specs.Contents.{files_of};
ghost use Rattle.tor_spec.specs.Hashes.{HasInfo};
ghost use Rattle.tor_meta.specs.Head.{settings_of};
ghost use Rattle.tor_meta.specs.Listing.{IsListing, text_of_listing};
ghost use Rattle.tor_meta.specs.Lots.{plan_of_text};
ghost use Rattle.tor_meta.specs.steps.Sums.{AreFactsOf, HaveTrees, IsJudged, IsPlanOf, SumUp, SumUpSome};
ghost use Rattle.tor_plan.specs.PlanFacts.{IsSpan};
ghost use Rattle.tor_source.specs.Source.{SourceFacts};
ghost use Rattle.tor_spec.specs.Facts.{Facts};
ghost use Rattle.tor_spec.specs.Metainfo.{metainfo, root_dictionary};
ghost use Rattle.tor_tree.specs.FileList.{lengths_of};

use crate::fields::entries::entries_to_hash;
use crate::head::Head;
use crate::listing::{Listing, lengths_of};
use crate::torrent::torrent_bytes;
use std::alloc::{AllocError, Global};
use std::thread::Threads;
use tor_engine::{EngineError, How, Sums, hash_told};
use tor_merkle::laws::piece_length_bounds;
use tor_plan::Plan;
use tor_plan::laws::{entry_units_are_the_content, files_are_cut_as_entries};
use tor_source::Source;
use tor_tree::{FileList, Kind};

/// The bytes of the torrent of a listing, whose lengths were told: file i of the listing is file i of the source.
pub(crate) fn torrent_of_listed<S: Source, R: Threads + Sync>(
    rt: &R,
    alloc: Global,
    source: &S,
    listing: &Listing,
    how: How,
) -> Result<Vec<u8>, EngineError<S::Fault>>
    requires how { IsHow how }
    ensures made { (facts : SourceFacts S.Fault) → S.is_steady source.now facts →
        first_length_fault facts (lengths_of listing.now.list.files) ≡ None → IfOk result (λ bytes. bytes.items
        ≡ metainfo (settings_of listing.now.head)
        (files_of listing.now.list (contents_in facts (length listing.now.list.files)))) }
    ensures fault { (facts : SourceFacts S.Fault) → S.is_steady source.now facts →
        first_length_fault facts (lengths_of listing.now.list.files) ≡ None → MatchResult result
        (λ _. first_byte_fault facts (lengths_of listing.now.list.files) ≡ None)
        (IsFault (first_byte_fault facts (lengths_of listing.now.list.files))) }
    ensures whole { IfOk result (λ bytes. (contents : List (List ℕ))
        × (map length contents ≡ lengths_of listing.now.list.files)
        × (bytes.items ≡ metainfo (settings_of listing.now.head) (files_of listing.now.list contents))) }
    ensures info { IfOk result (λ bytes. HasInfo bytes.items) }
    ensures gave { IfErr result (IsGivenNotMissing (S.answers source.now) (lengths_of listing.now.list.files)) }
{
    let sums = match sums_of_listed(rt, alloc, source, listing, how) {
        Ok(sums) => sums,
        Err(error) => return Err(error),
    };
    let bytes = torrent_of_listing(alloc, listing, &sums)?;
    Ok(bytes)
}

/// What the files sum up to, as far as the head asks for it.
fn sums_of_listed<S: Source, R: Threads + Sync>(
    rt: &R,
    alloc: Global,
    source: &S,
    listing: &Listing,
    how: How,
) -> Result<Sums, EngineError<S::Fault>>
    requires how { IsHow how }
    ensures steady { (facts : SourceFacts S.Fault) → S.is_steady source.now facts →
        first_length_fault facts (lengths_of listing.now.list.files) ≡ None → MatchResult result
        (λ sums. (map length (contents_in facts (length listing.now.list.files)) ≡ lengths_of listing.now.list.files)
        × SumUp listing.now.head listing.now.list.files (contents_in facts (length listing.now.list.files)) sums
        × (first_byte_fault facts (lengths_of listing.now.list.files) ≡ None))
        (IsFault (first_byte_fault facts (lengths_of listing.now.list.files))) }
    ensures whole { IfOk result (SumUpSome listing.now.head listing.now.list.files) }
    ensures gave { IfErr result (IsGivenNotMissing (S.answers source.now) (lengths_of listing.now.list.files)) }
{
    let plan = plan_of_listing(alloc, listing)?;
    let sums = match hash_told(rt, alloc, source, &plan, how) {
        Ok(sums) => sums,
        Err(error) => return Err(error),
    };
    Ok(sums)
}

/// The plan of a listing: that of the entries which its torrent has. File i of the listing is file i of the source that
/// is hashed by it.
pub(crate) fn plan_of_listing(alloc: Global, listing: &Listing) -> Result<Plan, AllocError>
    ensures same { IfOk result (λ plan. plan ≡ plan_of_text (text_of_listing listing.now)) }
    ensures is { IfOk result (IsPlanOf listing.now.head listing.now.list.files) }
    ensures lengths { IfOk result (λ plan. plan.lengths ≡ lengths_of listing.now.list.files) }
{
    // What every listing keeps to is told with its list.
    let list = listing.list();
    let plan = cut_files(alloc, list, listing.head(), listing.span())?;
    plans_are_of_torrents(listing);
    Ok(plan)
}

/// What the plan of a listing is to its torrent.
pub(crate) fn plans_are_of_torrents(listing: &Listing)
    ensures is { IsPlanOf listing.now.head listing.now.list.files (plan_of_text (text_of_listing listing.now)) }
    ensures lawful { IsListing listing.now }
{
    piece_length_bounds();
    files_are_cut_as_entries();
    entry_units_are_the_content();
    // What every listing keeps to is told with its list.
    let _list = listing.list();
}

/// The files cut as their entries. In a torrent of one version no padding stands among them: their lengths say all.
fn cut_files(alloc: Global, list: &FileList, head: &Head, span: u32) -> Result<Plan, AllocError>
    requires judged { IsJudged head.now list.now.files }
    requires span { IsSpan span }
    ensures { IfOk result (λ plan. plan ≡ plan_of_text
        (record { settings = settings_of head.now; list = list.now; span = span })) }
{
    piece_length_bounds();
    files_are_cut_as_entries();
    match head.kind {
        Kind::V1 | Kind::V2 => {
            let lengths = lengths_of(alloc, list.files())?;
            Plan::of_lengths(alloc, lengths, head.kind, head.piece_length, span)
        }
        Kind::Hybrid => {
            let entries = entries_to_hash(alloc, head, list)?;
            Plan::of_entries(alloc, &entries, head.kind, head.piece_length, span)
        }
    }
}

/// The bytes of the torrent of a listing whose files have these sums.
pub(crate) fn torrent_of_listing(
    alloc: Global,
    listing: &Listing,
    sums: &Sums,
) -> Result<Vec<u8>, AllocError>
    requires { HaveTrees listing.now.head listing.now.list.files sums.now }
    ensures made { (contents : List (List ℕ)) → map length contents ≡ lengths_of listing.now.list.files →
        SumUp listing.now.head listing.now.list.files contents sums.now → IfOk result (λ bytes. bytes.items
        ≡ metainfo (settings_of listing.now.head) (files_of listing.now.list contents)) }
    ensures any { (facts : List Facts) → AreFactsOf listing.now.head listing.now.list sums.now facts →
        IfOk result (λ bytes. bytes.items
        ≡ spelling (root_dictionary (settings_of listing.now.head) facts sums.now.pieces.items)) }
    ensures info { IfOk result (λ bytes. HasInfo bytes.items) }
{
    // What every listing keeps to is told with its list.
    let list = listing.list();
    let bytes = torrent_of_sums(alloc, listing.head(), list, sums)?;
    Ok(bytes)
}

/// The bytes of the torrent of the files that have these sums.
pub(crate) fn torrent_of_sums(
    alloc: Global,
    head: &Head,
    list: &FileList,
    sums: &Sums,
) -> Result<Vec<u8>, AllocError>
    requires judged { IsJudged head.now list.now.files }
    requires trees { HaveTrees head.now list.now.files sums.now }
    ensures made { (contents : List (List ℕ)) → map length contents ≡ lengths_of list.now.files →
        SumUp head.now list.now.files contents sums.now →
        IfOk result (λ bytes. bytes.items ≡ metainfo (settings_of head.now) (files_of list.now contents)) }
    ensures any { (facts : List Facts) → AreFactsOf head.now list.now sums.now facts → IfOk result (λ bytes.
        bytes.items ≡ spelling (root_dictionary (settings_of head.now) facts sums.now.pieces.items)) }
    ensures info { IfOk result (λ bytes. HasInfo bytes.items) }
{
    // Called for its clause `one_each`, which tells the prover that the list has as many letters as files.
    let _attrs = list.attrs();
    let bytes = torrent_bytes(alloc, head, list, sums)?;
    Ok(bytes)
}
