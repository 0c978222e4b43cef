//! The plan of a list of files, or of the entries of a torrent.
ghost use Rattle.std.specs.Prelude.{◌≡◌, ◌≢◌, ◌≤◌, All, false, IfOk, List, map, sum};
ghost use Rattle.tor_merkle.specs.declared.TheConstants.{MAX_LENGTH};
ghost use Rattle.tor_plan.specs.Content.{layout_of_kind};
ghost use Rattle.tor_plan.specs.Entries.{lengths_of_entries};
ghost use Rattle.tor_tree.specs.FileList.{lengths_of};
ghost use Rattle.tor_tree.specs.declared.kinds.Kind.TheVariants.{Hybrid};
ghost use Rattle.tor_tree.specs.declared.lists.TheConstants.{MAX_TOTAL};
ghost use Rattle.tor_v1.specs.Entries.{v1_entries};
ghost use Rattle.tor_v1.specs.declared.entry.Entry.{Entry};

use crate::forests::{Forest, trees_of};
use crate::separate::cut_each;
use crate::units::PlanUnit;
use crate::whole::{whole_of_entries, whole_of_lengths};
use std::alloc::{AllocError, Global};
use std::marker::Model;
use tor_tree::{FileList, FilePath, Kind};
use tor_v1::{Entry, Layout, entries_without_letters};

/// How files are cut into units of work for hashing workers. Contracts see what it tells.
#[derive(Debug, Drop)]
pub struct Plan {
    kind: Kind,
    piece_length: u64,
    units: Vec<PlanUnit>,
    lengths: Vec<u64>,
    forest: Forest,
}

impl Model for Plan {
    ghost use Rattle.tor_plan.specs.PlanFacts.{IsPlan, PlanFacts};

    ghost Value = { PlanFacts };

    ghost view = { λ plan. record {
      kind = plan.kind;
      piece_length = plan.piece_length;
      units = plan.units.items;
      lengths = plan.lengths.items;
      trees = plan.forest.trees.items;
    } };

    ghost invariant = { λ plan. IsPlan (record {
      kind = plan.kind;
      piece_length = plan.piece_length;
      units = plan.units.items;
      lengths = plan.lengths.items;
      trees = plan.forest.trees.items;
    }) };
}

impl Plan {
    ghost use Rattle.tor_plan.specs.EntryList.{IsEntryList, has_padding};
    ghost use Rattle.tor_plan.specs.PlanFacts.{plan_of_entries, IsPlan, IsPlanPieceLength, IsSpan};
    ghost use Rattle.tor_plan.specs.steps.Whole.{plan_of_whole, AreWhole};

    /// The plan of the entries of a list of files, in a hybrid torrent padding among them. Its units have `span`
    /// pieces, fewer at an end: of one file each, or of the joined files in V1.
    pub fn new(
        alloc: Global,
        list: &FileList,
        kind: Kind,
        piece_length: u64,
        span: u32,
    ) -> Result<Plan, AllocError>
        requires pieces { IsPlanPieceLength kind piece_length }
        requires span { IsSpan span }
        ensures { IfOk result (λ plan. plan ≡ plan_of_entries kind piece_length span
            (v1_entries (layout_of_kind kind false) piece_length list.now.files)) }
    {
        let files = list.files();
        match kind {
            Kind::V1 | Kind::V2 => {
                let lengths = lengths_of_files(alloc, files)?;
                Plan::of_lengths(alloc, lengths, kind, piece_length, span)
            }
            Kind::Hybrid => {
                let entries = entries_without_letters(alloc, files, piece_length, Layout::Aligned)?;
                Plan::of_entries(alloc, &entries, kind, piece_length, span)
            }
        }
    }

    /// The plan of files of these lengths that stand one after another, without padding. Of their entries nothing else
    /// counts.
    pub fn of_lengths(
        alloc: Global,
        lengths: Vec<u64>,
        kind: Kind,
        piece_length: u64,
        span: u32,
    ) -> Result<Plan, AllocError>
        requires joined { kind ≢ Hybrid }
        requires pieces { IsPlanPieceLength kind piece_length }
        requires span { IsSpan span }
        requires total { sum lengths.items ≤ MAX_TOTAL }
        requires files { All (λ m. m ≤ MAX_LENGTH) lengths.items }
        ensures { (entries : List Entry) → has_padding entries ≡ false → lengths_of_entries entries ≡ lengths.items →
            IfOk result (λ plan. plan ≡ plan_of_entries kind piece_length span entries) }
    {
        let whole = whole_of_lengths(alloc, &lengths)?;
        Plan::of_whole(alloc, &whole, lengths, kind, piece_length, span)
    }

    /// The plan of the entries of a torrent, whose padding is in the units as zeros. Files are those that are no
    /// padding.
    pub fn of_entries(
        alloc: Global,
        entries: &[Entry],
        kind: Kind,
        piece_length: u64,
        span: u32,
    ) -> Result<Plan, AllocError>
        requires pieces { IsPlanPieceLength kind piece_length }
        requires span { IsSpan span }
        requires entries { IsEntryList kind piece_length entries.now }
        ensures { IfOk result (λ plan. plan ≡ plan_of_entries kind piece_length span entries.now) }
    {
        let whole = whole_of_entries(alloc, entries)?;
        let lengths = lengths_of_entries(alloc, entries)?;
        Plan::of_whole(alloc, &whole, lengths, kind, piece_length, span)
    }

    // The plan of all bytes of entries, whose files have these lengths.
    fn of_whole(
        alloc: Global,
        whole: &PlanUnit,
        lengths: Vec<u64>,
        kind: Kind,
        piece_length: u64,
        span: u32,
    ) -> Result<Plan, AllocError>
        requires pieces { IsPlanPieceLength kind piece_length }
        requires span { IsSpan span }
        requires entries { AreWhole kind piece_length whole.now lengths.items }
        ensures { IfOk result (λ plan. plan ≡ plan_of_whole kind piece_length span whole.now lengths.items) }
    {
        let size = u64::from(span) * piece_length;
        let (units, trees) = match kind {
            Kind::V1 => (whole.pieces(alloc, size)?, Vec::new(alloc)),
            Kind::V2 | Kind::Hybrid => (
                cut_each(alloc, whole.parts.as_slice(), size)?,
                trees_of(alloc, &lengths, size)?,
            ),
        };
        Ok(Plan {
            kind,
            piece_length,
            units,
            lengths,
            forest: Forest { trees },
        })
    }

    /// Which sides the torrent has.
    pub fn kind(&self) -> Kind
        ensures { result ≡ self.now.kind }
    {
        self.kind
    }

    /// The bytes of a piece, at most.
    pub fn piece_length(&self) -> u64
        ensures { result ≡ self.now.piece_length }
    {
        self.piece_length
    }

    /// In the order of the files; a unit is named by its index here.
    pub fn units(&self) -> &[PlanUnit]
        ensures value { result.now ≡ self.now.units }
        ensures planned { IsPlan self.now }
    {
        self.units.as_slice()
    }

    /// The length of each file, in their order.
    pub fn lengths(&self) -> &[u64]
        ensures { result.now ≡ self.now.lengths }
    {
        self.lengths.as_slice()
    }

    /// The files of more than one unit; none in V1.
    pub fn forest(&self) -> &Forest
        ensures value { result.now.trees.items ≡ self.now.trees }
        ensures planned { IsPlan self.now }
    {
        &self.forest
    }
}

/// The length of each file.
fn lengths_of_files(alloc: Global, files: &[(FilePath, u64)]) -> Result<Vec<u64>, AllocError>
    ensures { IfOk result (λ lengths. lengths.items ≡ lengths_of files.now) }
{
    files.iter().map(|file| file.1).collect(alloc)
}

/// The length of each entry that is no padding.
fn lengths_of_entries(alloc: Global, entries: &[Entry]) -> Result<Vec<u64>, AllocError>
    ensures { IfOk result (λ lengths. lengths.items ≡ lengths_of_entries entries.now) }
{
    entries
        .iter()
        .filter(|entry| !entry.pad)
        .map(|entry| entry.length)
        .collect(alloc)
}
