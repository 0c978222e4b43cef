//! The pieces of a plan hashed, of files that may be cut short or missing, and the lengths of these files.
//!
//! - `piece_hash.rt`: what a piece hashes to; `piece_hashes.rt`: these of many pieces, held unit by unit;
//!   `piece_run.rt`: a run of pieces, cut out of a plan.
//! - `asked.rt` asks for the lengths, `present.rt` tells by them what is there, and `piece_work.rt` hashes the pieces
//!   of a unit, one after the other, or together if the unit is wholly there (`together.rt`); `found_row.rt` holds what
//!   was found of a unit. `busy.rt` tells how many workers have something to do.
//! - `readable.rt`: the same as far as the pieces can be read, and each fault (`read_fault.rt`). `asking.rt` asks for
//!   the lengths, `seen.rt` is the source without the files whose lengths fail, and `readable_work.rt` hashes a unit at
//!   once, and after a fault each of its pieces by itself (`alone.rt`); `probing.rt` reads the parts of one that
//!   failed, and `readable_unit.rt` holds what was found.
ghost use Rattle.std.specs.Prelude.{◌≡◌, ◌^◌, ◌≤◌, ℕ, All, List, None, Option, IfErr, IfOk, IsSome, MatchResult};
ghost use Rattle.std.specs.Prelude.{OnOk, length, nat_le};
ghost use Rattle.std.specs.List.{list_any};
ghost use Rattle.tor_source.specs.Source.{SourceFacts};
ghost use Rattle.tor_sums.specs.Contents.{contents_in};
ghost use Rattle.tor_sums.specs.Fault.{IsFault};
ghost use Rattle.tor_sums.specs.Given.{HasTold, IsGivenPieces};
ghost use Rattle.tor_sums.specs.How.{IsHow};
ghost use Rattle.tor_engine.specs.PieceFault.{first_asked_fault, first_piece_fault, lengths_told};
ghost use Rattle.tor_engine.specs.PieceFault.{some_pieces_fault, units_piece_fault};
ghost use Rattle.tor_engine.specs.PieceHashes.{hashes_of_pieces, hashes_of_units, piece_hashes, pieces_between};
ghost use Rattle.tor_engine.specs.PieceHashes.{pieces_of_plan, pieces_of_units};
ghost use Rattle.tor_engine.specs.There.{HasHashesWithin, HaveHashesOf};
ghost use Rattle.tor_plan.specs.PlanFacts.{IsPlan};
ghost use Rattle.tor_sums.specs.steps.Given.{IsGivenKnown};
ghost use Rattle.tor_engine.specs.steps.Pieces.{IsPaddingSum, IsUnitToHash, MayHavePadding};
ghost use Rattle.tor_engine.specs.steps.Pieces.{has_long_zeros};

pub(crate) mod alone;
pub(crate) mod asked;
pub(crate) mod asking;
pub(crate) mod busy;
pub(crate) mod found_row;
pub(crate) mod piece_hash;
pub(crate) mod piece_hashes;
pub(crate) mod piece_run;
pub(crate) mod piece_work;
pub(crate) mod present;
pub(crate) mod probing;
pub(crate) mod read_fault;
pub(crate) mod readable;
pub(crate) mod readable_unit;
pub(crate) mod readable_work;
pub(crate) mod seen;
pub(crate) mod together;

use crate::pieces::asked::{ask_each, expect_each};
use crate::pieces::busy::{keeps_busy, with_work};
use crate::pieces::piece_hash::PieceHash;
use crate::pieces::piece_hashes::PieceHashes;
use crate::pieces::piece_run::units_of_pieces;
use crate::pieces::piece_work::{Known, PieceWork};
use crate::workers::units::hash_units;
use std::alloc::{AllocError, Global};
use std::thread::Threads;
use tor_plan::{Forest, Part, Plan, PlanUnit};
use tor_source::Source;
use tor_sums::{EngineError, How, feed_zeros};
use tor_v1::PieceSums;
use tor_v1::laws::length_of_sums;

/// What pieces hash to, and the lengths by which they were there.
#[derive(Drop)]
pub struct FoundPieces {
    /// What each of the pieces hashes to, in their order, and none if some byte of it is not there.
    pub hashes: PieceHashes,
    /// The length in bytes of each file of the plan, in their order, and none of one that is missing.
    pub lengths: Vec<Option<u64>>,
}

/// What each piece of the plan hashes to, in their order, and none if some byte of it is not there: file i of the plan
/// is file i of the source, which may be missing, or have another length. First every length is asked, in the order of
/// the files. Then those pieces are read that are wholly there, each byte once, and no byte past the length that the
/// plan has for a file; the first fault in the order of the pieces is answered, whatever the `How`. Then every length
/// is asked again: a file of which another is told was changed.
pub fn hash_pieces<S: Source, R: Threads + Sync>(
    rt: &R,
    alloc: Global,
    source: &S,
    plan: &Plan,
    how: How,
) -> Result<Vec<Option<PieceHash>>, EngineError<S::Fault>>
    requires { IsHow how }
    ensures hashed { (facts : SourceFacts S.Fault) → S.is_steady source.now facts →
        MatchResult result
        (λ hashes. (hashes.items ≡ piece_hashes plan.now (contents_in facts (length plan.now.lengths)))
        × (first_piece_fault facts plan.now ≡ None))
        (IsFault (first_piece_fault facts plan.now)) }
    ensures there { IfOk result (λ hashes. (lengths : List (Option ℕ)) × HasTold (S.answers source.now) lengths
        × HasHashesWithin plan.now lengths hashes.items) }
    ensures counted { IfOk result (λ hashes. length hashes.items ≡ length (pieces_of_plan plan.now)) }
    ensures gave { IfErr result (IsGivenPieces (S.answers source.now) (length plan.now.lengths)) }
{
    match find_pieces(rt, alloc, source, plan, how) {
        Ok(found) => Ok(joined(alloc, &found.hashes)?),
        Err(error) => Err(error),
    }
}

/// What each piece of the plan hashes to, as [`hash_pieces`] tells, and the lengths that were told of the files, by
/// which their pieces were there. Of a source that is not steady too, a piece has a hash exactly if it lies within
/// these lengths, each of which was told when it was asked first, and again after all was read.
pub fn find_pieces<S: Source, R: Threads + Sync>(
    rt: &R,
    alloc: Global,
    source: &S,
    plan: &Plan,
    how: How,
) -> Result<FoundPieces, EngineError<S::Fault>>
    requires { IsHow how }
    ensures hashed { (facts : SourceFacts S.Fault) → S.is_steady source.now facts →
        MatchResult result
        (λ found. (found.hashes ≡ piece_hashes plan.now (contents_in facts (length plan.now.lengths)))
        × (found.lengths.items ≡ lengths_told facts (length plan.now.lengths))
        × (first_piece_fault facts plan.now ≡ None))
        (IsFault (first_piece_fault facts plan.now)) }
    ensures told { IfOk result (λ found. HasTold (S.answers source.now) found.lengths.items) }
    ensures there { IfOk result (λ found. HasHashesWithin plan.now found.lengths.items found.hashes) }
    ensures counted { IfOk result (λ found. (length found.hashes ≡ length (pieces_of_plan plan.now))
        × (length found.lengths.items ≡ length plan.now.lengths)) }
    ensures gave { IfErr result (IsGivenPieces (S.answers source.now) (length plan.now.lengths)) }
{
    let lengths = match ask_each(alloc, source, plan.lengths().len()) {
        Ok(lengths) => lengths,
        Err(error) => return Err(error),
    };
    let padding_sum = padding_sum(alloc, plan)?;
    let known = Known {
        lengths,
        padding_sum,
    };
    match hash_known(rt, alloc, source, plan, plan.units(), &known, how) {
        Ok(hashes) => Ok(FoundPieces {
            hashes,
            lengths: known.lengths,
        }),
        Err(error) => Err(error),
    }
}

/// What the pieces hash to from the number `from` on, and before the number `to`, as far as the plan has them, as
/// [`find_pieces`] tells of all: the length of each file of the plan is asked, and no byte of any other piece is read.
pub fn find_pieces_between<S: Source, R: Threads + Sync>(
    rt: &R,
    alloc: Global,
    source: &S,
    plan: &Plan,
    from: usize,
    to: usize,
    how: How,
) -> Result<FoundPieces, EngineError<S::Fault>>
    requires how { IsHow how }
    requires ordered { from ≤ to }
    ensures hashed { (facts : SourceFacts S.Fault) → S.is_steady source.now facts →
        MatchResult result
        (λ found. (found.hashes ≡ hashes_of_pieces plan.now (contents_in facts (length plan.now.lengths))
        (pieces_between plan.now from to))
        × (found.lengths.items ≡ lengths_told facts (length plan.now.lengths))
        × (some_pieces_fault facts plan.now (pieces_between plan.now from to) ≡ None))
        (IsFault (some_pieces_fault facts plan.now (pieces_between plan.now from to))) }
    ensures told { IfOk result (λ found. HasTold (S.answers source.now) found.lengths.items) }
    ensures there { IfOk result (λ found.
        HaveHashesOf found.lengths.items (pieces_between plan.now from to) found.hashes) }
    ensures counted { IfOk result (λ found. length found.lengths.items ≡ length plan.now.lengths) }
    ensures gave { IfErr result (IsGivenPieces (S.answers source.now) (length plan.now.lengths)) }
{
    let lengths = match ask_each(alloc, source, plan.lengths().len()) {
        Ok(lengths) => lengths,
        Err(error) => return Err(error),
    };
    let padding_sum = padding_sum(alloc, plan)?;
    let known = Known {
        lengths,
        padding_sum,
    };
    let units = units_of_pieces(alloc, plan, from, to, keeps_busy(to - from, how))?;
    match hash_known(rt, alloc, source, plan, &units, &known, how) {
        Ok(hashes) => Ok(FoundPieces {
            hashes,
            lengths: known.lengths,
        }),
        Err(error) => Err(error),
    }
}

/// The hashes of the pieces of units, if the lengths of all files were told: those pieces are read that are wholly
/// there, and then every length is asked again.
fn hash_known<S: Source, R: Threads + Sync>(
    rt: &R,
    alloc: Global,
    source: &S,
    plan: &Plan,
    units: &[PlanUnit],
    known: &Known,
    how: How,
) -> Result<PieceHashes, EngineError<S::Fault>>
    requires planned { IsPlan plan.now }
    requires units { All (IsUnitToHash plan.now) units.now }
    requires few { length units.now ≤ 2 ^ 62 }
    requires padding { IsPaddingSum plan.now known.now.padding_sum }
    requires counted { length known.now.lengths.items ≡ length plan.now.lengths }
    ensures hashed { (facts : SourceFacts S.Fault) → S.is_steady source.now facts →
        known.now.lengths.items ≡ lengths_told facts (length plan.now.lengths) →
        first_asked_fault facts (length plan.now.lengths) ≡ None →
        MatchResult result
        (λ hashes. (hashes ≡ hashes_of_units plan.now (contents_in facts (length plan.now.lengths)) units.now)
        × (units_piece_fault facts plan.now units.now ≡ None))
        (IsFault (units_piece_fault facts plan.now units.now)) }
    ensures unchanged { (facts : SourceFacts S.Fault) → S.is_steady source.now facts →
        OnOk result (known.now.lengths.items ≡ lengths_told facts (length plan.now.lengths)) }
    ensures there { IfOk result (λ hashes. HaveHashesOf known.now.lengths.items
        (pieces_of_units plan.now.piece_length units.now) hashes) }
    ensures counted { IfOk result (λ hashes.
        length hashes ≡ length (pieces_of_units plan.now.piece_length units.now)) }
    ensures gave { IfErr result (IsGivenKnown (S.answers source.now) known.now.lengths.items) }
{
    let work = PieceWork {
        alloc,
        source,
        plan,
        known,
    };
    // Pieces stand alone: no tree is put together.
    let forest = Forest {
        trees: Vec::new(alloc),
    };
    let how = with_work(how, units, known.lengths.as_slice());
    let (units_hashed, _) = match hash_units(rt, &work, units, &forest, how) {
        Ok(hashed) => hashed,
        Err(error) => return Err(error),
    };
    match expect_each(source, &known.lengths) {
        Ok(()) => {}
        Err(error) => return Err(error),
    }
    Ok(PieceHashes::of(units_hashed))
}

/// The SHA-1 of a whole piece of padding, if the plan may have one.
pub(crate) fn padding_sum(alloc: Global, plan: &Plan) -> Result<Option<[u8; 20]>, AllocError>
    ensures { IfOk result (λ sum. IsPaddingSum plan.now sum × (MayHavePadding plan.now → IsSome sum)) }
{
    length_of_sums();
    if plan.kind().has_v2() || !has_long_padding(plan.units(), plan.piece_length()) {
        return Ok(None);
    }
    let mut sums = PieceSums::new(alloc, plan.piece_length());
    feed_zeros(&mut sums, plan.piece_length())?;
    let joined = sums.finish();
    let (each, _) = joined.as_chunks::<20>();
    Ok(each.first().copied())
}

/// Whether some unit has as many zeros after one another as a piece.
fn has_long_padding(units: &[PlanUnit], piece_length: u64) -> bool
    ensures { result ≡ list_any (has_long_zeros piece_length) units.now }
{
    units.iter().any(|unit| has_long_zeros(unit, piece_length))
}

/// Whether this one has: before its parts, or after one of them.
pub(crate) fn has_long_zeros(unit: &PlanUnit, piece_length: u64) -> bool
    ensures { result ≡ has_long_zeros piece_length unit.now }
{
    unit.zeros >= piece_length || has_long_zeros_after(unit.parts.as_slice(), piece_length)
}

fn has_long_zeros_after(parts: &[Part], piece_length: u64) -> bool
    ensures { result ≡ list_any (λ part. nat_le piece_length part.zeros) parts.now }
{
    parts.iter().any(|part| part.zeros >= piece_length)
}

/// The same hashes in one list.
fn joined(alloc: Global, hashes: &PieceHashes) -> Result<Vec<Option<PieceHash>>, AllocError>
    ensures { IfOk result (λ all. all.items ≡ hashes.now) }
{
    let mut all = Vec::new(alloc);
    let mut left = hashes.each();
    while let Some(hash) = left.next() {
        all.push(hash)?;
    }
    Ok(all)
}
