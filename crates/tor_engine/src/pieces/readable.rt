//! The pieces of a plan hashed as far as they can be read, of files that may be cut short or missing.
ghost use Rattle.std.specs.Prelude.{◌≡◌, ◌<◌, [], ℕ, None, IfErr, IfOk, length, slice_index_or};
ghost use Rattle.std.specs.List.{AllByRecursion, flat_map};
ghost use Rattle.tor_source.specs.Source.{SourceFacts};
ghost use Rattle.tor_sums.specs.Given.{HasTold, IsGivenPieces};
ghost use Rattle.tor_sums.specs.How.{IsHow};
ghost use Rattle.tor_sums.specs.declared.errors.EngineError.TheVariants.{Resources};
ghost use Rattle.tor_sums.specs.steps.Each.{SumUpEach};
ghost use Rattle.tor_engine.specs.PieceHashes.{pieces_of_plan};
ghost use Rattle.tor_engine.specs.Readable.{HasHashWithin, IsNoReadFault, IsSeenLength, all_read_faults};
ghost use Rattle.tor_engine.specs.Readable.{error_of_fault};
ghost use Rattle.tor_engine.specs.Readable.{readable_hashes, seen_lengths};
ghost use Rattle.tor_engine.specs.There.{HasHashesWithin};
ghost use Rattle.tor_engine.specs.steps.Pieces.{IsPaddingSum};
ghost use Rattle.tor_engine.specs.steps.Readable.{FindsReadable, seen_may_be, seen_steady, unit_hashes_in};
ghost use Rattle.tor_engine.specs.steps.ReadableUnit.{faults_found};

use crate::pieces::asking::{ask_readable, expect_readable};
use crate::pieces::busy::with_work;
use crate::pieces::padding_sum;
use crate::pieces::piece_hashes::PieceHashes;
use crate::pieces::piece_work::Known;
use crate::pieces::read_fault::ReadFault;
use crate::pieces::readable_unit::ReadableUnit;
use crate::pieces::readable_work::ReadableWork;
use crate::pieces::seen::Seen;
use crate::workers::units::hash_units;
use std::alloc::{AllocError, Global};
use std::thread::Threads;
use tor_plan::{Forest, Plan};
use tor_source::Source;
use tor_sums::{EngineError, How, append};

/// What pieces hash to, as far as they can be read, the lengths by which they were there, and what could not be read.
#[derive(Drop)]
pub struct ReadablePieces<F> {
    /// What each piece of the plan hashes to, in their order, and none if some byte of it is not there, or could not be
    /// read.
    pub hashes: PieceHashes,
    /// The length in bytes of each file of the plan, in their order, and none of one that is missing, or whose length
    /// could not be asked.
    pub lengths: Vec<Option<u64>>,
    /// What could not be read: lengths in the order of the files, then of each part of a piece its first byte that
    /// failed, piece by piece, and then lengths that were asked again.
    pub faults: Vec<ReadFault<F>>,
}

/// What each piece of the plan hashes to, as [`find_pieces`](crate::find_pieces) tells, but what cannot be read is not
/// there, and the rest goes on: a piece has a hash if all its bytes are there and none fails, and a file whose length
/// fails is as one that is missing. What could not be read is told with its faults. After a fault the pieces of its
/// unit are read again, each by itself, and of one that fails and has several parts each part once more. So a byte is
/// read twice at most, or three times in such a piece. Lengths that were told are asked again; only want of resources
/// ends the whole, or that a file did not stay as long as was told.
pub fn find_readable<S: Source, R: Threads + Sync>(
    rt: &R,
    alloc: Global,
    source: &S,
    plan: &Plan,
    how: How,
) -> Result<ReadablePieces<S::Fault>, EngineError<S::Fault>>
    requires { IsHow how }
    ensures readable { (facts : SourceFacts S.Fault) → S.is_steady source.now facts →
        IfOk result (λ found. (found.hashes ≡ readable_hashes facts plan.now)
        × (found.lengths.items ≡ seen_lengths facts (length plan.now.lengths))
        × (found.faults.items ≡ all_read_faults facts plan.now)) }
    ensures refused { (facts : SourceFacts S.Fault) → S.is_steady source.now facts →
        IfErr result (λ error. error ≡ Resources) }
    ensures told { IfOk result (λ found. (file : ℕ) → file < length found.lengths.items →
        IsSeenLength (S.answers source.now) file (slice_index_or found.lengths.items file None)) }
    ensures within { IfOk result (λ found.
        SumUpEach (HasHashWithin found.lengths.items) (pieces_of_plan plan.now) found.hashes) }
    ensures clean { IfOk result (λ found. found.faults.items ≡ [] → HasTold (S.answers source.now) found.lengths.items
        × HasHashesWithin plan.now found.lengths.items found.hashes) }
    ensures counted { IfOk result (λ found. (length found.hashes ≡ length (pieces_of_plan plan.now))
        × (length found.lengths.items ≡ length plan.now.lengths)) }
    ensures given { IfOk result (λ found. AllByRecursion (λ fault.
        IsGivenPieces (S.answers source.now) (length plan.now.lengths) (error_of_fault fault)) found.faults.items) }
    ensures no_read_fault { IfErr result IsNoReadFault }
    ensures gave { IfErr result (IsGivenPieces (S.answers source.now) (length plan.now.lengths)) }
{
    let (lengths, mut faults) = ask_readable(alloc, source, plan.lengths().len())?;
    let padding_sum = padding_sum(alloc, plan)?;
    let known = Known {
        lengths,
        padding_sum,
    };
    let (hashes, unread) = match hash_readable(rt, alloc, source, plan, &known, how) {
        Ok(found) => found,
        Err(error) => return Err(error),
    };
    let lost = match expect_readable(alloc, source, &known.lengths) {
        Ok(lost) => lost,
        Err(error) => return Err(error),
    };
    append(&mut faults, unread)?;
    append(&mut faults, lost)?;
    Ok(ReadablePieces {
        hashes,
        lengths: known.lengths,
        faults,
    })
}

/// The hashes of the pieces as far as they can be read, if the lengths of all files were asked, and what could not.
fn hash_readable<S: Source, R: Threads + Sync>(
    rt: &R,
    alloc: Global,
    source: &S,
    plan: &Plan,
    known: &Known,
    how: How,
) -> Result<(PieceHashes, Vec<ReadFault<S::Fault>>), EngineError<S::Fault>>
    requires padding { IsPaddingSum plan.now known.now.padding_sum }
    requires counted { length known.now.lengths.items ≡ length plan.now.lengths }
    ensures found { IfOk result (λ found.
        FindsReadable (seen_steady known.now.lengths.items (S.is_steady source.now))
        (seen_may_be known.now.lengths.items (S.answers source.now)) plan.now known.now.lengths.items
        (pieces_of_plan plan.now) found.0 found.1.items) }
    ensures refused { (facts : SourceFacts S.Fault) → S.is_steady source.now facts →
        known.now.lengths.items ≡ seen_lengths facts (length plan.now.lengths) →
        IfErr result (λ error. error ≡ Resources) }
    ensures no_read_fault { IfErr result IsNoReadFault }
    ensures gave { IfErr result (seen_may_be known.now.lengths.items (S.answers source.now)) }
{
    let seen = Seen {
        source,
        lengths: known.lengths.as_slice(),
    };
    let units = plan.units();
    let work = ReadableWork {
        alloc,
        source: &seen,
        plan,
        known,
    };
    // Pieces stand alone: no tree is put together.
    let forest = Forest {
        trees: Vec::new(alloc),
    };
    let how = with_work(how, units, seen.lengths);
    let (found, _) = match hash_units(rt, &work, units, &forest, how) {
        Ok(found) => found,
        Err(error) => return Err(error),
    };
    let joined = join_units(alloc, found)?;
    Ok(joined)
}

/// The hashes of the pieces of all units, one after the other, and what of them could not be read.
fn join_units<F: Drop>(
    alloc: Global,
    units: Vec<ReadableUnit<F>>,
) -> Result<(PieceHashes, Vec<ReadFault<F>>), AllocError>
    ensures hashes { IfOk result (λ joined. joined.0 ≡ flat_map unit_hashes_in units.items) }
    ensures faults { IfOk result (λ joined. joined.1.items ≡ flat_map faults_found units.items) }
{
    let mut found = Vec::with_capacity(alloc, units.len())?;
    let mut faults = Vec::new(alloc);
    'units: for unit in units {
        let (own, failed) = unit.into_parts(alloc);
        found.push(own)?;
        append(&mut faults, failed)?;
    }
    Ok((PieceHashes::of(found), faults))
}
