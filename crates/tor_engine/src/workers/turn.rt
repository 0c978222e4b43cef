//! Units shared among workers beforehand, each of whom takes its own one after the other.
ghost use Rattle.std.specs.Prelude.{◌≡◌, ◌+◌, ◌<◌, ◌^◌, ◌++◌, None, All, IfErr, IfOk, MatchResult, length};
ghost use Rattle.tor_plan.specs.declared.units.PlanUnit.{PlanUnit};
ghost use Rattle.tor_source.specs.Source.{SourceFacts};
ghost use Rattle.tor_sums.specs.Fault.{IsFault, first_of};
ghost use Rattle.tor_sums.specs.steps.Each.{SumUpEach};
ghost use Rattle.tor_engine.specs.steps.Failing.{AnswersUnits};

use crate::workers::failure::{Failure, UnitFailure, both_joined};
use crate::workers::halves::{Divisible, by_halves};
use crate::workers::unit_work::UnitWork;
use std::thread::Threads;
use tor_plan::PlanUnit;
use tor_sums::EngineError;

/// What each of the units sums up to, by so many workers. The first fault in the order of the units is answered.
pub(crate) fn hash_by_halves<W: UnitWork + Sync, R: Threads + Sync>(
    rt: &R,
    work: &W,
    units: &[PlanUnit],
    workers: u32,
) -> Result<Vec<W::Sums>, EngineError<W::Fault>>
where
    W::Sums: Send,
    W::Fault: Send,
    requires begin { W.may_begin work.now }
    requires units { All (W.may_hash work.now) units.now }
    ensures summed { IfOk result (λ sums. SumUpEach (W.sums_up work.now) units.now sums.items) }
    ensures fault { (facts : SourceFacts W.Fault) → W.is_steady work.now facts →
        MatchResult result (λ _. first_of (W.fault work.now facts) units.now ≡ None)
        (IsFault (first_of (W.fault work.now facts) units.now)) }
    ensures gave { IfErr result (W.gave work.now) }
{
    let share = UnitShare {
        work,
        units,
        first: 0,
    };
    match by_halves(rt, share, workers) {
        Ok(sums) => Ok(sums),
        Err(failure) => Err(failure.into_error()),
    }
}

/// Units that stand one after the other in a plan.
#[derive(Drop)]
struct UnitShare<'a, W> {
    work: &'a W,
    units: &'a [PlanUnit],
    // The number of the first of them.
    first: u64,
}

impl<'a, W: UnitWork + Sync> Divisible for UnitShare<'a, W>
where
    W::Sums: Send,
    W::Fault: Send,
{
    type Answer = Result<Vec<W::Sums>, Failure<W::Fault>>;

    ghost may_answer = { λ share. W.may_begin share.work.now × All (W.may_hash share.work.now) share.units.now
        × (share.first + length share.units.now < 2 ^ 64) };

    ghost is_answer = { λ share result.
        AnswersUnits (λ units sums. SumUpEach (W.sums_up share.work.now) units sums.items)
        (W.is_steady share.work.now) (W.fault share.work.now) (W.gave share.work.now) share.first share.units.now
        result };

    ghost halves = { λ whole one other. (one.work.now ≡ whole.work.now) × (other.work.now ≡ whole.work.now)
        × (whole.units.now ≡ one.units.now ++ other.units.now) × (one.first ≡ whole.first)
        × (other.first ≡ whole.first + length one.units.now) };

    fn halve(self) -> Result<(Self, Self), Self> {
        if self.units.len() < 2 {
            return Err(self);
        }
        let (one, other) = self.units.split_at(self.units.len() / 2);
        Ok((
            UnitShare {
                work: self.work,
                units: one,
                first: self.first,
            },
            UnitShare {
                work: self.work,
                units: other,
                first: self.first + one.len() as u64,
            },
        ))
    }

    fn answer(self) -> Result<Vec<W::Sums>, Failure<W::Fault>> {
        hash_in_turn(self.work, self.units, self.first)
    }

    fn join(
        one: Result<Vec<W::Sums>, Failure<W::Fault>>,
        other: Result<Vec<W::Sums>, Failure<W::Fault>>,
    ) -> Result<Vec<W::Sums>, Failure<W::Fault>> {
        both_joined(one, other)
    }
}

/// What each of the units sums up to, of which the first has the number `first`.
fn hash_in_turn<W: UnitWork>(
    work: &W,
    units: &[PlanUnit],
    first: u64,
) -> Result<Vec<W::Sums>, Failure<W::Fault>>
    requires begin { W.may_begin work.now }
    requires units { All (W.may_hash work.now) units.now }
    requires small { first + length units.now < 2 ^ 64 }
    ensures { AnswersUnits (λ units sums. SumUpEach (W.sums_up work.now) units sums.items) (W.is_steady work.now)
        (W.fault work.now) (W.gave work.now) first units.now result }
{
    let mut worker = work.begin()?;
    let mut sums = Vec::new(work.alloc());
    'units: for (index, unit) in units.iter().enumerate() {
        let number = first + index as u64;
        let next = match work.hash(number, unit, &mut worker) {
            Ok(next) => next,
            Err(error) => {
                return Err(Failure::of(UnitFailure {
                    unit: number,
                    error,
                }));
            }
        };
        sums.push(next)?;
    }
    work.complete(worker, &mut sums);
    Ok(sums)
}
