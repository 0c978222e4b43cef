//! A torrent's files looked for in a source.
ghost use Rattle.std.specs.Prelude.{◌≡◌, ◌≢◌, None, Err, IfErr, IfOk, MatchResult, length, map};
ghost use Rattle.tor_sums.specs.Contents.{contents_in};
ghost use Rattle.tor_sums.specs.Given.{HasTold};
ghost use Rattle.tor_sums.specs.How.{IsHow};
ghost use Rattle.tor_engine.specs.PieceFault.{lengths_told};
ghost use Rattle.tor_view.specs.Files.{files_found, held_pieces};
ghost use Rattle.tor_recheck.specs.Findings.{AreFoundWithin};
ghost use Rattle.tor_recheck.specs.Recheck.{IsFault, IsGiven, first_fault};
ghost use Rattle.tor_recheck.specs.declared.errors.RecheckError.TheVariants.{Workers};
ghost use Rattle.tor_recheck.specs.steps.Judge.{all_held, all_judged};
ghost use Rattle.tor_source.specs.Source.{SourceFacts};
ghost use Rattle.tor_spec.specs.Verified.{verified_pieces};

use crate::errors::RecheckError;
use crate::piece_bits::{merkle_verified_bits, verified_bits};
use crate::rechecking::found_in;
use std::alloc::{AllocError, Global};
use std::thread::Threads;
use tor_check::Torrent;
use tor_engine::{FoundPieces, How};
use tor_source::Source;
use tor_view::{Bits, FileFound, files_of};

/// What is told of a torrent's pieces and of its files.
#[derive(Drop)]
pub struct Findings {
    /// Which pieces are there and right, as `recheck` tells.
    pub bits: Bits,
    /// Each file, in the torrent's order, padding not counted.
    pub files: Vec<FileFound>,
}

/// Which pieces of the torrent are there and right, as [`recheck`](crate::recheck) tells, and which of its files: by
/// version 2 if the torrent has it, so that a piece of a hybrid whose SHA-1 alone departs leaves its file whole. It
/// asks and reads what `recheck` does: the lengths that are told of the files are those by which their pieces were
/// there, also of a source that does not keep to them. Refusals and faults are those of `recheck`.
pub fn recheck_files<S: Source, R: Threads + Sync>(
    rt: &R,
    alloc: Global,
    source: &S,
    torrent: &Torrent,
    how: How,
) -> Result<Findings, RecheckError<S::Fault>>
    ensures workers { (IsHow how → ⊥) → result ≡ Err Workers }
    ensures found { IsHow how → (facts : SourceFacts S.Fault) → S.is_steady source.now facts →
        MatchResult result
        (λ told. (told.bits ≡ verified_pieces torrent.now (contents_in facts (length torrent.now.files)))
        × (told.files.items ≡ files_found torrent.now (lengths_told facts (length torrent.now.files))
        (held_pieces torrent.now (contents_in facts (length torrent.now.files))))
        × (first_fault facts torrent.now ≡ None))
        (IsFault (first_fault facts torrent.now)) }
    ensures counted { IfOk result (λ told. (length told.bits ≡ torrent.now.piece_count)
        × (length told.files.items ≡ length torrent.now.files)) }
    ensures told { IfOk result (λ told. HasTold (S.answers source.now) (map (λ file. file.there) told.files.items)) }
    ensures there { IfOk result (AreFoundWithin torrent.now) }
    ensures allowed { IsHow how → IfErr result (λ error. error ≢ Workers) }
    ensures gave { IfErr result (IsGiven (S.answers source.now) (length torrent.now.files)) }
{
    let found = match found_in(rt, alloc, source, torrent, how) {
        Ok(found) => found,
        Err(error) => return Err(error),
    };
    let bits = verified_bits(alloc, torrent, &found.hashes)?;
    let files = files_by(alloc, torrent, &found, &bits)?;
    Ok(Findings { bits, files })
}

/// What is told of each file: by the side that tells whose bytes a piece has, version 2 if the torrent has it, and else
/// by the pieces that were found right.
pub(crate) fn files_by(
    alloc: Global,
    torrent: &Torrent,
    found: &FoundPieces,
    right: &Bits,
) -> Result<Vec<FileFound>, AllocError>
    requires { right.now ≡ all_judged torrent.now found.now.hashes }
    ensures found { IfOk result (λ files. files.items
        ≡ files_found torrent.now found.now.lengths.items (all_held torrent.now found.now.hashes)) }
    ensures counted { IfOk result (λ files. length files.items ≡ length torrent.now.files) }
{
    if !torrent.kind().has_v2() {
        return files_of(alloc, torrent, right, &found.lengths);
    }
    let held = merkle_verified_bits(alloc, torrent, &found.hashes)?;
    files_of(alloc, torrent, &held, &found.lengths)
}
