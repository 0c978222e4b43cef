//! A torrent's files looked for in a source of which places cannot be read.
ghost use Rattle.std.specs.Prelude.{◌≡◌, ◌≢◌, ◌<◌, [], ℕ, None, Err, IfErr, IfOk, OnOk, length, map, slice_index_or};
ghost use Rattle.std.specs.List.{AllByRecursion};
ghost use Rattle.tor_sums.specs.Given.{HasTold};
ghost use Rattle.tor_sums.specs.How.{IsHow};
ghost use Rattle.tor_sums.specs.steps.Each.{SumUpEach};
ghost use Rattle.tor_engine.specs.Readable.{HasHashWithin, IsSeenLength, hash_if_readable, seen_lengths};
ghost use Rattle.tor_engine.specs.There.{HaveHashesOf};
ghost use Rattle.tor_view.specs.Files.{files_found};
ghost use Rattle.tor_recheck.specs.Findings.{AreFoundWithin};
ghost use Rattle.tor_view.specs.Pieces.{IsCut, pieces_of};
ghost use Rattle.tor_recheck.specs.Readable.{IsGivenFault, IsNoReadFault, contents_seen, faults_seen, readable_held};
ghost use Rattle.tor_recheck.specs.Readable.{readable_pieces};
ghost use Rattle.tor_recheck.specs.Recheck.{IsGiven};
ghost use Rattle.tor_recheck.specs.declared.errors.RecheckError.TheVariants.{Resources, Workers};
ghost use Rattle.tor_recheck.specs.steps.Hashes.{cut_plan};
ghost use Rattle.tor_source.specs.Source.{SourceFacts};

use crate::errors::RecheckError;
use crate::piece_bits::verified_bits;
use crate::rechecking::{SPAN, plan_of};
use crate::rechecking_files::{Findings, files_by};
use std::alloc::Global;
use std::thread::Threads;
use tor_check::Torrent;
use tor_engine::{FoundPieces, How, ReadFault, ReadablePieces, find_readable};
use tor_source::Source;

/// What is told of a torrent's pieces and of its files, as far as these can be read.
#[derive(Drop)]
pub struct ReadableFindings<F> {
    /// Which pieces are there and right, and each file by these.
    pub found: Findings,
    /// What could not be read. A file of which one is told is unreadable: its first is the first of it in this list.
    pub faults: Vec<ReadFault<F>>,
}

/// Which pieces of the torrent are there and right, and which of its files, as
/// [`recheck_files`](crate::recheck_files) tells, but it keeps going: what cannot be read is not there. A piece is set
/// if all its bytes could be read and are right, and a file whose length could not be asked is missing. What could not
/// be read is told: the lengths that failed, in the order of the files, then of each part of a piece that is there its
/// first byte that failed, piece by piece. Refused are wrong workers, want of resources, and a file that did not stay
/// as long as was told, as by `recheck`; no fault of the source ends it.
pub fn recheck_readable<S: Source, R: Threads + Sync>(
    rt: &R,
    alloc: Global,
    source: &S,
    torrent: &Torrent,
    how: How,
) -> Result<ReadableFindings<S::Fault>, RecheckError<S::Fault>>
    ensures workers { (IsHow how → ⊥) → result ≡ Err Workers }
    ensures found { IsHow how → (facts : SourceFacts S.Fault) → S.is_steady source.now facts →
        IfOk result (λ told. (told.found.bits ≡ readable_pieces facts torrent.now)
        × (told.found.files.items ≡ files_found torrent.now (seen_lengths facts (length torrent.now.files))
        (readable_held facts torrent.now))
        × (told.faults.items ≡ faults_seen facts torrent.now)) }
    ensures refused { IsHow how → (facts : SourceFacts S.Fault) → S.is_steady source.now facts →
        IfErr result (λ error. error ≡ Resources) }
    ensures counted { IfOk result (λ told. (length told.found.bits ≡ torrent.now.piece_count)
        × (length told.found.files.items ≡ length torrent.now.files)) }
    ensures told { IfOk result (λ told. (file : ℕ) → file < length told.found.files.items →
        IsSeenLength (S.answers source.now) file
        (slice_index_or (map (λ file. file.there) told.found.files.items) file None)) }
    ensures there { IfOk result (λ told. AreFoundWithin torrent.now told.found) }
    ensures given { IfOk result (λ told.
        AllByRecursion (IsGivenFault (S.answers source.now) (length torrent.now.files)) told.faults.items) }
    ensures allowed { IsHow how → IfErr result (λ error. error ≢ Workers) }
    ensures no_read_fault { IfErr result IsNoReadFault }
    ensures gave { IfErr result (IsGiven (S.answers source.now) (length torrent.now.files)) }
{
    let ReadablePieces {
        hashes,
        lengths,
        faults,
    } = match readable_in(rt, alloc, source, torrent, how) {
        Ok(found) => found,
        Err(error) => return Err(error),
    };
    let pieces = FoundPieces { hashes, lengths };
    let bits = verified_bits(alloc, torrent, &pieces.hashes)?;
    let files = files_by(alloc, torrent, &pieces, &bits)?;
    let found = Findings { bits, files };
    Ok(ReadableFindings { found, faults })
}

/// What each piece hashes to, and none if some byte of it is not there or could not be read; the lengths by which that
/// is known, of the torrent's files in their order; and what could not be read.
fn readable_in<S: Source, R: Threads + Sync>(
    rt: &R,
    alloc: Global,
    source: &S,
    torrent: &Torrent,
    how: How,
) -> Result<ReadablePieces<S::Fault>, RecheckError<S::Fault>>
    ensures workers { (IsHow how → ⊥) → result ≡ Err Workers }
    ensures hashed { IsHow how → (facts : SourceFacts S.Fault) → S.is_steady source.now facts →
        IfOk result (λ found. (found.hashes ≡ map
        (hash_if_readable facts (cut_plan torrent.now) (contents_seen facts torrent.now)) (pieces_of torrent.now))
        × (found.lengths.items ≡ seen_lengths facts (length torrent.now.files))
        × (found.faults.items ≡ faults_seen facts torrent.now)) }
    ensures refused { IsHow how → (facts : SourceFacts S.Fault) → S.is_steady source.now facts →
        IfErr result (λ error. error ≡ Resources) }
    ensures told { IfOk result (λ found. (file : ℕ) → file < length found.lengths.items →
        IsSeenLength (S.answers source.now) file (slice_index_or found.lengths.items file None)) }
    ensures within { IfOk result (λ found.
        SumUpEach (HasHashWithin found.lengths.items) (pieces_of torrent.now) found.hashes) }
    ensures counted { IfOk result (λ found. (length found.hashes ≡ torrent.now.piece_count)
        × (length found.lengths.items ≡ length torrent.now.files)) }
    ensures given { IfOk result (λ found.
        AllByRecursion (IsGivenFault (S.answers source.now) (length torrent.now.files)) found.faults.items) }
    ensures cut { OnOk result (IsCut torrent.now) }
    ensures allowed { IsHow how → IfErr result (λ error. error ≢ Workers) }
    ensures no_read_fault { IfErr result IsNoReadFault }
    ensures gave { IfErr result (IsGiven (S.answers source.now) (length torrent.now.files)) }
{
    if !how.is_allowed() {
        return Err(RecheckError::Workers);
    }
    let plan = plan_of(alloc, torrent, SPAN)?;
    match find_readable(rt, alloc, source, &plan, how) {
        Ok(found) => Ok(found),
        Err(error) => Err(error.into()),
    }
}
