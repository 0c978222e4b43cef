//! Why workers stop, and what is answered of two of them.
ghost use Rattle.std.specs.Prelude.{◌≡◌};
ghost use Rattle.tor_engine.specs.declared.workers.failure.Failure.TheVariants.{Memory};
ghost use Rattle.tor_engine.specs.steps.Failing.{AreJoined, both_of, error_of, is_resources, least_of, stopped_by};

use std::alloc::{AllocError, AllocFailed};
use tor_sums::{EngineError, append};

/// A unit that a worker failed.
#[derive(Drop)]
pub(crate) struct UnitFailure<F> {
    /// Its number.
    pub(crate) unit: u64,
    pub(crate) error: EngineError<F>,
}

/// Why workers stopped.
#[derive(Drop)]
pub(crate) enum Failure<F> {
    /// Memory was refused, for a unit or for what several have.
    Memory,
    /// A unit failed for another reason.
    AtUnit(UnitFailure<F>),
}

impl<F: Drop> Failure<F> {
    /// Why a worker stopped that failed this unit.
    pub(crate) fn of(failure: UnitFailure<F>) -> Failure<F>
        ensures { result ≡ stopped_by failure }
    {
        if is_resources(&failure.error) {
            Failure::Memory
        } else {
            Failure::AtUnit(failure)
        }
    }

    /// The error that is answered of it.
    pub(crate) fn into_error(self) -> EngineError<F>
        ensures { result ≡ error_of self }
    {
        match self {
            Failure::Memory => EngineError::Resources,
            Failure::AtUnit(failure) => failure.error,
        }
    }
}

impl<F> From<AllocError> for Failure<F> {
    ghost from_gives = { λ _ failure. failure ≡ Memory };

    fn from(_error: AllocError) -> Failure<F> {
        Failure::Memory
    }
}

impl<F, T: Drop> From<AllocFailed<T>> for Failure<F> {
    ghost from_gives = { λ _ failure. failure ≡ Memory };

    fn from(_failed: AllocFailed<T>) -> Failure<F> {
        Failure::Memory
    }
}

/// What two workers answer together: the items of one after those of the other, or why one stopped.
pub(crate) fn both_joined<T: Drop, F: Drop>(
    one: Result<Vec<T>, Failure<F>>,
    other: Result<Vec<T>, Failure<F>>,
) -> Result<Vec<T>, Failure<F>>
    ensures { AreJoined (both_of one other) result }
{
    match both(one, other) {
        Ok((mut items, next)) => {
            append(&mut items, next)?;
            Ok(items)
        }
        Err(failure) => Err(failure),
    }
}

/// What two workers answer together: both answers, or why one stopped.
fn both<T: Drop, F: Drop>(
    one: Result<T, Failure<F>>,
    other: Result<T, Failure<F>>,
) -> Result<(T, T), Failure<F>>
    ensures { result ≡ both_of one other }
{
    match (one, other) {
        (Ok(one), Ok(other)) => Ok((one, other)),
        (Ok(_), Err(failure)) => Err(failure),
        (Err(failure), Ok(_)) => Err(failure),
        (Err(failure), Err(later)) => Err(least(failure, later)),
    }
}

/// What is answered if two workers stopped: want of memory before all, else the failure of the lesser unit.
fn least<F: Drop>(one: Failure<F>, other: Failure<F>) -> Failure<F>
    ensures { result ≡ least_of one other }
{
    match (one, other) {
        (Failure::AtUnit(one), Failure::AtUnit(other)) => {
            if one.unit <= other.unit {
                Failure::AtUnit(one)
            } else {
                Failure::AtUnit(other)
            }
        }
        (Failure::Memory, _) => Failure::Memory,
        (Failure::AtUnit(_), Failure::Memory) => Failure::Memory,
    }
}

fn is_resources<F>(error: &EngineError<F>) -> bool
    ensures { result ≡ is_resources error.now }
{
    matches!(error, EngineError::Resources)
}
