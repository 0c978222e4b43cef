//! A torrent's pieces looked for in the files of a source.
ghost use Rattle.std.specs.Prelude.{◌≡◌, ◌≢◌, None, Err, IfErr, IfOk, MatchResult, length};
ghost use Rattle.tor_recheck.specs.Recheck.{IsFault, IsGiven, first_fault};
ghost use Rattle.tor_recheck.specs.declared.errors.RecheckError.TheVariants.{Workers};
ghost use Rattle.tor_source.specs.Source.{SourceFacts};
ghost use Rattle.tor_spec.specs.Verified.{verified_pieces};
ghost use Rattle.tor_sums.specs.Contents.{contents_in};
ghost use Rattle.tor_sums.specs.How.{IsHow};

use std::alloc::Global;
use std::thread::Threads;
use tor_check::Torrent;
use tor_engine::How;
use tor_recheck::{RecheckError, recheck};
use tor_source::Source;
use tor_view::Bits;

/// Which pieces of a torrent are there, and have each hash that it has for them, or the first fault.
pub fn pieces_that_hold<S: Source, R: Threads + Sync>(
    rt: &R,
    alloc: Global,
    source: &S,
    torrent: &Torrent,
    how: How,
) -> Result<Bits, RecheckError<S::Fault>>
    ensures workers { (IsHow how → ⊥) → result ≡ Err Workers }
    ensures found { IsHow how → (facts : SourceFacts S.Fault) → S.is_steady source.now facts →
        MatchResult result
        (λ bits. (bits ≡ verified_pieces torrent.now (contents_in facts (length torrent.now.files)))
        × (first_fault facts torrent.now ≡ None))
        (IsFault (first_fault facts torrent.now)) }
    ensures counted { IfOk result (λ bits. length bits ≡ torrent.now.piece_count) }
    ensures allowed { IsHow how → IfErr result (λ error. error ≢ Workers) }
    ensures gave { IfErr result (IsGiven (S.answers source.now) (length torrent.now.files)) }
{
    recheck(rt, alloc, source, torrent, how)
}
