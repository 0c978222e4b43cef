//! The lengths of files, asked of their source.
ghost use Rattle.std.specs.Prelude.{◌≡◌, ◌<◌, None, Ok, Some, IfErr, IfOk, MatchResult, length, ℕ};
ghost use Rattle.std.specs.List.{range_with_len};
ghost use Rattle.tor_source.specs.Source.{SourceFacts, told_length};
ghost use Rattle.tor_sums.specs.Fault.{IsFault, ToldLengths, change_from, first_length_fault, first_of};
ghost use Rattle.tor_sums.specs.Fault.{length_fault};
ghost use Rattle.tor_sums.specs.Given.{HasToldLengths, IsGiven, IsGivenAsked};

use crate::pieces::asked::ask_one;
use std::alloc::Global;
use tor_source::Source;
use tor_sums::EngineError;

/// Asks for the length of each file, in order, and then answers the first that is not the one that was planned.
pub(crate) fn expect_lengths<S: Source>(
    alloc: Global,
    source: &S,
    planned: &[u64],
) -> Result<(), EngineError<S::Fault>>
    ensures steady { (facts : SourceFacts S.Fault) → S.is_steady source.now facts →
        MatchResult result (λ _. first_length_fault facts planned.now ≡ None)
        (IsFault (first_length_fault facts planned.now)) }
    ensures told { IfOk result (λ _. HasToldLengths (S.answers source.now) planned.now) }
    ensures gave { IfErr result (IsGiven (S.answers source.now) planned.now) }
{
    let told = ask_lengths(alloc, source, planned.len())?;
    match first_change(&told, planned) {
        Some(file) => Err(EngineError::Changed { file }),
        None => Ok(()),
    }
}

/// Asks for the lengths of so many files, in order. The first that cannot be told, or of a file that is missing, is
/// answered.
pub fn ask_lengths<S: Source>(
    alloc: Global,
    source: &S,
    count: usize,
) -> Result<Vec<u64>, EngineError<S::Fault>>
    ensures steady { (facts : SourceFacts S.Fault) → S.is_steady source.now facts →
        MatchResult result (λ lengths. ToldLengths facts count lengths.items)
        (IsFault (first_of (length_fault facts) (range_with_len 0 count))) }
    ensures counted { IfOk result (λ lengths. length lengths.items ≡ count) }
    ensures told { IfOk result (λ lengths. HasToldLengths (S.answers source.now) lengths.items) }
    ensures gave { IfErr result (IsGivenAsked (S.answers source.now) count) }
{
    let mut lengths = Vec::with_capacity(alloc, count)?;
    'files: for file in 0..count {
        match ask_length(source, file as u64) {
            Ok(length) => lengths.push(length)?,
            Err(error) => return Err(error),
        }
    }
    Ok(lengths)
}

/// Asks for the length of one file, which has to be there.
fn ask_length<S: Source>(source: &S, file: u64) -> Result<u64, EngineError<S::Fault>>
    ensures steady { (facts : SourceFacts S.Fault) → S.is_steady source.now facts →
        MatchResult result (λ length. told_length facts file ≡ Ok (Some length))
        (λ error. length_fault facts file ≡ Some error) }
    ensures told { IfOk result (λ length. (S.answers source.now).told file (Some length)) }
    ensures gave { (files : ℕ) → file < files → IfErr result (IsGivenAsked (S.answers source.now) files) }
{
    match ask_one(source, file) {
        Ok(Some(length)) => Ok(length),
        Ok(None) => Err(EngineError::Missing { file }),
        Err(error) => Err(error),
    }
}

/// The first file of which another length was told than was planned.
fn first_change(told: &[u64], planned: &[u64]) -> Option<u64>
    ensures { result ≡ change_from 0 told.now planned.now }
{
    'files: for (file, one) in told.iter().enumerate() {
        match planned.get(file) {
            Some(other) if one == other => {}
            Some(_) => return Some(file as u64),
            None => return None,
        }
    }
    None
}
