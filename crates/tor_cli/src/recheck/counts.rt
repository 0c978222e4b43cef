//! How many pieces of a torrent a source has.
ghost use Rattle.std.specs.Prelude.{◌≡◌, ◌≢◌, ◌==◌, ◌↔◌, Err, IfErr, IfOk, IsTrue, MatchResult, None, length};
ghost use Rattle.tor_cli.specs.make.CheckAfter.{AreCounted, counts_of};
ghost use Rattle.tor_sums.specs.Contents.{contents_in};
ghost use Rattle.tor_sums.specs.How.{IsHow};
ghost use Rattle.tor_sums.specs.declared.how.How.TheVariants.{Board};
ghost use Rattle.tor_recheck.specs.Recheck.{IsFault, IsGiven, first_fault};
ghost use Rattle.tor_recheck.specs.declared.errors.RecheckError.TheVariants.{Workers};
ghost use Rattle.tor_source.specs.Source.{SourceFacts};
ghost use Rattle.tor_spec.specs.Verified.{verified_pieces};

use crate::workers::board_of;
use std::alloc::Global;
use std::thread::Threads;
use tor_check::Torrent;
use tor_recheck::{RecheckError, recheck};
use tor_source::Source;
use tor_view::Bits;

/// How many pieces are there and right, of how many.
#[derive(Clone, Copy, PartialEq, Eq)]
pub struct PieceCounts {
    pub good: u64,
    pub pieces: u64,
}

impl PieceCounts {
    /// Whether all are there and right.
    pub(crate) fn are_all_good(self) -> bool
        ensures value { result ≡ (self.good == self.pieces) }
        ensures all { IsTrue result ↔ (self.good ≡ self.pieces) }
    {
        self.good == self.pieces
    }
}

/// How many of the torrent's pieces are there and right in a source, which so many workers read.
pub fn count_pieces<S: Source, T: Threads + Sync>(
    rt: &T,
    alloc: Global,
    source: &S,
    torrent: &Torrent,
    workers: u32,
) -> Result<PieceCounts, RecheckError<S::Fault>>
    ensures workers { (IsHow (Board workers) → ⊥) → result ≡ Err Workers }
    ensures found { IsHow (Board workers) → (facts : SourceFacts S.Fault) → S.is_steady source.now facts →
        MatchResult result
        (λ counts. (counts ≡ counts_of (verified_pieces torrent.now (contents_in facts (length torrent.now.files))))
        × (first_fault facts torrent.now ≡ None))
        (IsFault (first_fault facts torrent.now)) }
    ensures counted { IfOk result (AreCounted torrent.now) }
    ensures allowed { IsHow (Board workers) → IfErr result (λ error. error ≢ Workers) }
    ensures gave { IfErr result (IsGiven (S.answers source.now) (length torrent.now.files)) }
{
    match recheck(rt, alloc, source, torrent, board_of(workers)) {
        Ok(bits) => Ok(counts_of(&bits)),
        Err(error) => Err(error),
    }
}

/// How many bits are set, of how many.
pub(crate) fn counts_of(bits: &Bits) -> PieceCounts
    ensures { result ≡ counts_of bits.now }
{
    PieceCounts {
        good: bits.count_set(),
        pieces: bits.len(),
    }
}
