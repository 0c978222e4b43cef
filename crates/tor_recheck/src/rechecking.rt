//! A torrent's pieces looked for in the files of a source.
ghost use Rattle.std.specs.Prelude.{◌≡◌, ◌≢◌, None, Err, false, IfErr, IfOk, MatchResult, OnOk, length, map};
ghost use Rattle.tor_sums.specs.Contents.{contents_in};
ghost use Rattle.tor_sums.specs.Given.{HasTold};
ghost use Rattle.tor_sums.specs.How.{IsHow};
ghost use Rattle.tor_engine.specs.PieceFault.{lengths_told};
ghost use Rattle.tor_plan.specs.PlanFacts.{IsSpan, plan_of_entries};
ghost use Rattle.tor_engine.specs.There.{HaveHashesOf};
ghost use Rattle.tor_view.specs.Pieces.{IsCut, entries_to_cut, pieces_of};
ghost use Rattle.tor_recheck.specs.Recheck.{IsFault, IsGiven, first_fault};
ghost use Rattle.tor_recheck.specs.declared.errors.RecheckError.TheVariants.{Workers};
ghost use Rattle.tor_recheck.specs.steps.Hashes.{hashes_in};
ghost use Rattle.tor_source.specs.Source.{SourceFacts};
ghost use Rattle.tor_recheck.specs.declared.rechecking.TheConstants.{SPAN};
ghost use Rattle.tor_spec.specs.Verified.{verified_pieces};
ghost use Rattle.tor_tree.specs.Kinds.{has_v1};

use crate::errors::RecheckError;
use crate::piece_bits::verified_bits;
use std::alloc::{AllocError, Global};
use std::thread::Threads;
use tor_check::{Torrent, ViewFile};
use tor_engine::{FoundPieces, How, find_pieces};
use tor_plan::Plan;
use tor_source::Source;
use tor_v1::Entry;
use tor_view::Bits;

/// The pieces that a worker takes at a time, at most.
pub(crate) const SPAN: u32 = 16;

/// Which pieces of the torrent are there and right: file i of the source is its file i, padding not counted. A piece is
/// when all its bytes are there, and have each hash that the torrent has for it; padding is always there. A file may be
/// missing, shorter or longer than the torrent says; bytes past its length there are not read, nor is a piece that is
/// not wholly there. The workers are judged first; then each length is asked, the pieces are read, and each length is
/// asked again. The first fault is answered, whatever the `How`. Of any source there is one bit for each piece.
pub fn recheck<S: Source, R: Threads + Sync>(
    rt: &R,
    alloc: Global,
    source: &S,
    torrent: &Torrent,
    how: How,
) -> Result<Bits, RecheckError<S::Fault>>
    ensures workers { (IsHow how → ⊥) → result ≡ Err Workers }
    ensures found { IsHow how → (facts : SourceFacts S.Fault) → S.is_steady source.now facts →
        MatchResult result
        (λ bits. (bits ≡ verified_pieces torrent.now (contents_in facts (length torrent.now.files)))
        × (first_fault facts torrent.now ≡ None))
        (IsFault (first_fault facts torrent.now)) }
    ensures counted { IfOk result (λ bits. length bits ≡ torrent.now.piece_count) }
    ensures allowed { IsHow how → IfErr result (λ error. error ≢ Workers) }
    ensures gave { IfErr result (IsGiven (S.answers source.now) (length torrent.now.files)) }
{
    let found = match found_in(rt, alloc, source, torrent, how) {
        Ok(found) => found,
        Err(error) => return Err(error),
    };
    let bits = verified_bits(alloc, torrent, &found.hashes)?;
    Ok(bits)
}

/// What each piece hashes to, and none if some byte of it is not there; and the lengths by which that is known, of the
/// torrent's files in their order.
pub(crate) fn found_in<S: Source, R: Threads + Sync>(
    rt: &R,
    alloc: Global,
    source: &S,
    torrent: &Torrent,
    how: How,
) -> Result<FoundPieces, RecheckError<S::Fault>>
    ensures workers { (IsHow how → ⊥) → result ≡ Err Workers }
    ensures hashed { IsHow how → (facts : SourceFacts S.Fault) → S.is_steady source.now facts →
        MatchResult result
        (λ found. (found.hashes ≡ hashes_in torrent.now (contents_in facts (length torrent.now.files)))
        × (found.lengths.items ≡ lengths_told facts (length torrent.now.files))
        × (first_fault facts torrent.now ≡ None))
        (IsFault (first_fault facts torrent.now)) }
    ensures told { IfOk result (λ found. HasTold (S.answers source.now) found.lengths.items) }
    ensures there { IfOk result
        (λ found. HaveHashesOf found.lengths.items (pieces_of torrent.now) found.hashes) }
    ensures counted { IfOk result (λ found. (length found.hashes ≡ torrent.now.piece_count)
        × (length found.lengths.items ≡ length torrent.now.files)) }
    ensures cut { OnOk result (IsCut torrent.now) }
    ensures allowed { IsHow how → IfErr result (λ error. error ≢ Workers) }
    ensures gave { IfErr result (IsGiven (S.answers source.now) (length torrent.now.files)) }
{
    if !how.is_allowed() {
        return Err(RecheckError::Workers);
    }
    let plan = plan_of(alloc, torrent, SPAN)?;
    match find_pieces(rt, alloc, source, &plan, how) {
        Ok(found) => Ok(found),
        Err(error) => Err(error.into()),
    }
}

/// The units, of so many pieces each, of the torrent's entries, or of its files if it has no v1 side.
pub(crate) fn plan_of(alloc: Global, torrent: &Torrent, span: u32) -> Result<Plan, AllocError>
    requires { IsSpan span }
    ensures planned { IfOk result (λ plan. plan
        ≡ plan_of_entries torrent.now.kind torrent.now.piece_length span (entries_to_cut torrent.now)) }
    ensures cut { IsCut torrent.now }
{
    // Called for its clause `valid`, which tells the prover that the torrent is one.
    torrent.files();
    if torrent.kind().has_v1() {
        cut_entries(alloc, torrent, torrent.entries(), span)
    } else {
        cut_files(alloc, torrent, span)
    }
}

/// The units of the entries of a torrent that are to be cut.
fn cut_entries(
    alloc: Global,
    torrent: &Torrent,
    entries: &[Entry],
    span: u32,
) -> Result<Plan, AllocError>
    requires cut { IsCut torrent.now }
    requires entries { entries.now ≡ entries_to_cut torrent.now }
    requires span { IsSpan span }
    ensures { IfOk result (λ plan. plan
        ≡ plan_of_entries torrent.now.kind torrent.now.piece_length span (entries_to_cut torrent.now)) }
{
    Plan::of_entries(alloc, entries, torrent.kind(), torrent.piece_length(), span)
}

/// The units of the files of a torrent that has no v1 side. Of their entries only the lengths count, so no path is
/// copied.
fn cut_files(alloc: Global, torrent: &Torrent, span: u32) -> Result<Plan, AllocError>
    requires cut { IsCut torrent.now }
    requires no_v1 { has_v1 torrent.now.kind ≡ false }
    requires span { IsSpan span }
    ensures { IfOk result (λ plan. plan
        ≡ plan_of_entries torrent.now.kind torrent.now.piece_length span (entries_to_cut torrent.now)) }
{
    let lengths = lengths_of(alloc, torrent.files())?;
    Plan::of_lengths(alloc, lengths, torrent.kind(), torrent.piece_length(), span)
}

/// The length of each file.
fn lengths_of(alloc: Global, files: &[ViewFile]) -> Result<Vec<u64>, AllocError>
    ensures { IfOk result (λ lengths. lengths.items ≡ map (λ told. told.file.length) files.now) }
{
    let mut lengths = Vec::with_capacity(alloc, files.len())?;
    'files: for file in files {
        lengths.push(file.file().length)?;
    }
    Ok(lengths)
}
