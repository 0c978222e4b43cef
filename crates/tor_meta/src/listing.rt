//! A head and the files of its torrent, judged.
ghost use Rattle.std.specs.Prelude.{◌≡◌, ◌⊎◌, IfErr, IfOk, None, OnOk, Some};
ghost use Rattle.tor_meta.specs.Head.{settings_of};
ghost use Rattle.tor_meta.specs.declared.listing_error.ListingError.{ListingError};
ghost use Rattle.tor_meta.specs.declared.refusals.ContentsError.{ContentsError};
ghost use Rattle.tor_meta.specs.steps.ListRefusals.{list_refusal};
ghost use Rattle.tor_tree.specs.FileList.{IsFileList, lengths_of};

use crate::before_lengths::judge_paths;
use crate::from_streams::{are_rising, with_lengths};
use crate::head::Head;
use crate::listing_error::ListingError;
use crate::order::is_span;
use crate::refusals::ContentsError;
use std::alloc::{AllocError, Global};
use std::marker::Model;
use tor_merkle::is_piece_length;
use tor_tree::{Attr, FileList, FilePath, copy_paths};

/// What a torrent is to be made with, its files in their order with their letters, and how they are cut into units. A
/// torrent is made of each. Contracts see the head, the list and the span.
#[derive(Debug, Drop)]
pub struct Listing {
    head: Head,
    span: u32,
    list: FileList,
}

impl Model for Listing {
    ghost use Rattle.tor_meta.specs.Listing.{IsListing, ListingFacts};

    ghost Value = { ListingFacts };

    ghost view = { λ listing. record { head = listing.head; span = listing.span; list = listing.list } };

    ghost invariant = { λ listing.
        IsListing (record { head = listing.head; span = listing.span; list = listing.list }) };
}

impl Listing {
    ghost use Rattle.std.specs.Prelude.{◌≡◌, ◌⊎◌, IfErr, IfOk, None, OnOk, Some, length};
    ghost use Rattle.tor_meta.specs.Judged.{IsJudged};
    ghost use Rattle.tor_meta.specs.Listing.{IsListing, listing_refusal};
    ghost use Rattle.tor_meta.specs.declared.listing_error.ListingError.{ListingError};
    ghost use Rattle.tor_meta.specs.declared.refusals.ContentsError.{ContentsError};
    ghost use Rattle.tor_meta.specs.steps.PlanText.{text_of};
    ghost use Rattle.tor_plan.specs.PlanFacts.{IsSpan};

    /// The listing of these files, which stand in the torrent's order, in units of so many pieces.
    pub fn new(
        alloc: Global,
        head: Head,
        span: u32,
        files: Vec<(FilePath, u64)>,
        attrs: Vec<Attr>,
    ) -> Result<Listing, ListingError>
        requires one_each { length attrs.items ≡ length files.items }
        ensures made { IfOk result (λ listing. listing ≡ record {
          head = head;
          span = span;
          list = record { files = files.items; attrs = attrs.items };
        }) }
        ensures accepted { OnOk result (listing_refusal (text_of head span files.items attrs.items) ≡ None) }
        ensures refused { IfErr result (λ refusal.
            (listing_refusal (text_of head span files.items attrs.items) ≡ Some refusal)
            ⊎ (refusal ≡ ListingError.Contents ContentsError.Memory)) }
    {
        if !is_piece_length(head.piece_length) {
            return Err(ListingError::Contents(ContentsError::PieceLength));
        }
        if !is_span(span) {
            return Err(ListingError::Span);
        }
        match list_of(alloc, &head, &files) {
            Ok(list) => Ok(Listing {
                head,
                span,
                list: list.with_attrs(attrs),
            }),
            Err(refusal) => Err(refusal),
        }
    }

    /// The listing of a list of files, of which a torrent can be written.
    pub(crate) fn of_judged(head: Head, span: u32, list: FileList) -> Listing
        requires judged { IsJudged head list.files }
        requires span { IsSpan span }
        ensures { result ≡ record { head = head; span = span; list = list } }
    {
        Listing { head, span, list }
    }

    /// What the torrent is made with, beside its files.
    pub fn head(&self) -> &Head
        ensures { result.now ≡ self.now.head }
    {
        &self.head
    }

    /// How many pieces a unit has: a power of two from 1 to 1,024.
    pub fn span(&self) -> u32
        ensures { result ≡ self.now.span }
    {
        self.span
    }

    /// The files, in the torrent's order, with their letters.
    pub fn list(&self) -> &FileList
        ensures value { result.now ≡ self.now.list }
        ensures lawful { IsListing self.now }
    {
        &self.list
    }
}

/// The list of these files, without letters, if no torrent is refused for them.
fn list_of(alloc: Global, head: &Head, files: &[(FilePath, u64)]) -> Result<FileList, ListingError>
    ensures same { IfOk result (λ list. list.files ≡ files.now) }
    ensures lawful { IfOk result (λ list. IsFileList list.files) }
    ensures accepted { OnOk result (list_refusal (settings_of head.now) files.now ≡ None) }
    ensures refused { IfErr result (λ refusal. (list_refusal (settings_of head.now) files.now ≡ Some refusal)
        ⊎ (refusal ≡ ListingError.Contents ContentsError.Memory)) }
{
    let paths = copy_paths(alloc, files)?;
    let lengths = lengths_of(alloc, files)?;
    let rising = are_rising(&paths);
    let paths = match judge_paths(alloc, head, paths) {
        Ok(paths) => paths,
        Err(refusal) => return Err(ListingError::Contents(refusal)),
    };
    let list = match with_lengths(alloc, paths, &lengths) {
        Ok(list) => list,
        Err(refusal) => return Err(ListingError::Contents(refusal)),
    };
    // What every list keeps to is told with its files.
    let _listed = list.files();
    if rising {
        Ok(list)
    } else {
        Err(ListingError::NotSorted)
    }
}

/// The lengths of files.
pub(crate) fn lengths_of(alloc: Global, files: &[(FilePath, u64)]) -> Result<Vec<u64>, AllocError>
    ensures { IfOk result (λ lengths. lengths.items ≡ lengths_of files.now) }
{
    let mut lengths = Vec::with_capacity(alloc, files.len())?;
    'files: for (_, length) in files {
        lengths.push(*length)?;
    }
    Ok(lengths)
}
