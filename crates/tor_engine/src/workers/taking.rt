//! Units that one worker claims at a board, one after the other.
ghost use Rattle.std.specs.Prelude.{◌≡◌, ◌<◌, ◌++◌, ◌∷◌, [], All, IfErr, IfOk, List, MatchResult, OnOk, length, map};
ghost use Rattle.std.specs.List.{AllByRecursion};
ghost use Rattle.tor_board.specs.Desks.{Has, failing};
ghost use Rattle.tor_board.specs.Seats.{IsSeatOf, knows, unit_count};
ghost use Rattle.tor_plan.specs.declared.units.PlanUnit.{PlanUnit};
ghost use Rattle.tor_source.specs.Source.{SourceFacts};
ghost use Rattle.tor_sums.specs.Fault.{IsFault};
ghost use Rattle.tor_engine.specs.steps.Taken.{GivesUnit, HasBegun, HasRoom, IsAny, IsIdle, IsSumOf, TakesUnits};
ghost use Rattle.tor_engine.specs.steps.Taken.{pair_in, unit_at, units_taken};

use crate::workers::failure::UnitFailure;
use crate::workers::unit_work::UnitWork;
use crate::workers::worker_share::Share;
use std::alloc::AllocError;
use tor_board::{Board, Job, Seat};
use tor_plan::PlanUnit;
use tor_sums::{EngineError, OwingSums};

/// Claims units, hashes each and gives its hash, until none is left or some worker failed one; what the units sum up
/// to, or why one failed, which is then failed at the board too.
pub(crate) fn take_units<W: UnitWork>(
    work: &W,
    units: &[PlanUnit],
    board: &Board,
    seat: &mut Seat,
) -> Result<Share<W::Sums>, UnitFailure<W::Fault>>
    requires begin { W.may_begin work.now }
    requires units { All (W.may_hash work.now) units.now }
    requires board { IsSeatOf board.now seat.old × (unit_count board.now ≡ length units.now) }
    requires idle { IsIdle (knows seat.old) }
    ensures board { IsSeatOf board.now seat.new }
    ensures taken { TakesUnits (W.number_in work.now) (W.hash_in work.now) (W.sums_up work.now) (W.is_steady work.now)
        (W.fault work.now) (W.gave work.now) units.now (knows seat.old) (knows seat.new) result }
{
    let mut share = Share::new(work.alloc());
    // A worker begins with the first unit that is claimed: before it there is none to fail if memory is refused.
    let mut worker = None;
    'claims: while let Some(job) = board.claim(seat) {
        match take_unit(work, units, board, seat, job, &mut worker, &mut share) {
            Ok(()) => {}
            Err(failure) => return Err(failure),
        }
    }
    complete(work, units, worker, &mut share.units);
    Ok(share)
}

/// Completes what the units sum up to that a worker took, if it has begun.
fn complete<W: UnitWork>(
    work: &W,
    units: &[PlanUnit],
    worker: Option<OwingSums>,
    sums: &mut Vec<W::Sums>,
)
    requires begin { W.may_begin work.now }
    requires stands { HasBegun (W.stands work.now) (W.number_in work.now) units.now sums.old.items worker }
    ensures summed { AllByRecursion (IsSumOf (W.number_in work.now) IsAny units.now) sums.old.items →
        AllByRecursion (IsSumOf (W.number_in work.now) (W.sums_up work.now) units.now) sums.new.items }
    ensures same { map (pair_in (W.number_in work.now) (W.hash_in work.now)) sums.new.items
        ≡ map (pair_in (W.number_in work.now) (W.hash_in work.now)) sums.old.items }
{
    if let Some(worker) = worker {
        work.complete(worker, sums);
    }
}

/// Hashes one unit, gives its hash and keeps what it sums up to.
fn take_unit<W: UnitWork>(
    work: &W,
    units: &[PlanUnit],
    board: &Board,
    seat: &mut Seat,
    job: Job,
    worker: &mut Option<OwingSums>,
    share: &mut Share<W::Sums>,
) -> Result<(), UnitFailure<W::Fault>>
    requires begin { W.may_begin work.now }
    requires units { All (W.may_hash work.now) units.now }
    requires stands { HasBegun (W.stands work.now) (W.number_in work.now) units.now share.old.units.items worker.old }
    requires board { IsSeatOf board.now seat.old }
    requires job { Has (knows seat.old).held job.number × (job.number < length units.now) }
    ensures board { IsSeatOf board.now seat.new }
    ensures stands { OnOk result
        (HasBegun (W.stands work.now) (W.number_in work.now) units.now share.new.units.items worker.new) }
    ensures given { OnOk result (GivesUnit (W.number_in work.now) (W.hash_in work.now) IsAny
        units.now job.number (knows seat.old) (knows seat.new) share.old share.new) }
    ensures failed { IfErr result (λ failure. (failure.unit ≡ job.number)
        × (knows seat.new ≡ failing (knows seat.old) job.number)) }
    ensures kept { IfErr result (λ _. share.new.units.items ≡ share.old.units.items) }
    ensures fault { (facts : SourceFacts W.Fault) → W.is_steady work.now facts →
        MatchResult result (λ _. W.fault work.now facts (unit_at units.now job.number) ≡ None)
        (λ failure. IsFault (W.fault work.now facts (unit_at units.now job.number)) failure.error) }
    ensures gave { IfErr result (λ failure. W.gave work.now failure.error) }
{
    match hash_claimed(work, units, job.number(), worker, share) {
        Ok(sums) => {
            let given = board.give(seat, job, work.hash_of(&sums));
            share.keep(sums, given.top);
            Ok(())
        }
        Err(error) => Err(give_up(board, seat, job, error)),
    }
}

/// Hashes one unit, for which there is room then among those that were taken; the first one begins.
fn hash_claimed<W: UnitWork>(
    work: &W,
    units: &[PlanUnit],
    number: u64,
    worker: &mut Option<OwingSums>,
    share: &mut Share<W::Sums>,
) -> Result<W::Sums, EngineError<W::Fault>>
    requires begin { W.may_begin work.now }
    requires units { All (W.may_hash work.now) units.now }
    requires stands { HasBegun (W.stands work.now) (W.number_in work.now) units.now share.old.units.items worker.old }
    requires number { number < length units.now }
    ensures stands { IfOk result (λ sums. HasBegun (W.stands work.now) (W.number_in work.now) units.now
        (share.old.units.items ++ sums ∷ []) worker.new) }
    ensures room { IfOk result (λ _. HasRoom share.new) }
    ensures kept { (share.new.units.items ≡ share.old.units.items) × (share.new.tops.items ≡ share.old.tops.items) }
    ensures number { IfOk result (λ sums. W.number_in work.now sums ≡ number) }
    ensures fault { (facts : SourceFacts W.Fault) → W.is_steady work.now facts →
        MatchResult result (λ _. W.fault work.now facts (unit_at units.now number) ≡ None)
        (IsFault (W.fault work.now facts (unit_at units.now number))) }
    ensures gave { IfErr result (W.gave work.now) }
{
    share.reserve()?;
    let mut own = worker_of(work, worker.take())?;
    let sums = match work.hash(number, &units[number as usize], &mut own) {
        Ok(sums) => sums,
        Err(error) => return Err(error),
    };
    *worker = Some(own);
    Ok(sums)
}

/// A worker that has begun: this one, or if there is none a new one.
fn worker_of<W: UnitWork>(work: &W, worker: Option<OwingSums>) -> Result<OwingSums, AllocError>
    requires { W.may_begin work.now }
    ensures { (units : List PlanUnit) (sums : List W.Sums) →
        HasBegun (W.stands work.now) (W.number_in work.now) units sums worker →
        IfOk result (W.stands work.now (units_taken (W.number_in work.now) units sums) sums) }
{
    match worker {
        Some(worker) => Ok(worker),
        None => work.begin(),
    }
}

/// Fails a unit at the board, and tells why.
fn give_up<F>(board: &Board, seat: &mut Seat, job: Job, error: EngineError<F>) -> UnitFailure<F>
    requires board { IsSeatOf board.now seat.old }
    requires job { Has (knows seat.old).held job.number }
    ensures board { IsSeatOf board.now seat.new }
    ensures failed { knows seat.new ≡ failing (knows seat.old) job.number }
    ensures failure { (result.unit ≡ job.number) × (result.error ≡ error) }
{
    let unit = job.number();
    board.fail(seat, job);
    UnitFailure { unit, error }
}
