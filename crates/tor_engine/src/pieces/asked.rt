//! The lengths of files that may be missing, asked of their source; the first fault ends it.
ghost use Rattle.std.specs.Prelude.{◌≡◌, ◌⊎◌, ◌<◌, ℕ, None, Ok, Some, IfErr, IfOk, MatchResult, length};
ghost use Rattle.tor_source.specs.Source.{SourceFacts, told_length};
ghost use Rattle.tor_sums.specs.Fault.{IsFault};
ghost use Rattle.tor_sums.specs.Given.{HasTold};
ghost use Rattle.tor_engine.specs.PieceFault.{asked_fault, first_asked_fault, lengths_told};
ghost use Rattle.tor_sums.specs.declared.errors.EngineError.TheVariants.{Resources};
ghost use Rattle.tor_engine.specs.steps.Asked.{first_again_fault};
ghost use Rattle.tor_sums.specs.steps.Given.{IsGivenAgain, IsGivenLength};

use std::alloc::Global;
use tor_source::Source;
use tor_sums::EngineError;

/// Asks for the length of each of so many files, in order: none of a file that is missing.
pub(crate) fn ask_each<S: Source>(
    alloc: Global,
    source: &S,
    count: usize,
) -> Result<Vec<Option<u64>>, EngineError<S::Fault>>
    ensures steady { (facts : SourceFacts S.Fault) → S.is_steady source.now facts →
        MatchResult result
        (λ told. (told.items ≡ lengths_told facts count) × (first_asked_fault facts count ≡ None))
        (IsFault (first_asked_fault facts count)) }
    ensures told { IfOk result (λ told. HasTold (S.answers source.now) told.items) }
    ensures counted { IfOk result (λ told. length told.items ≡ count) }
    ensures gave { IfErr result (λ error. (error ≡ Resources) ⊎ IsGivenLength (S.answers source.now) count error) }
{
    let mut told = Vec::with_capacity(alloc, count)?;
    'files: for file in 0..count {
        match ask_one(source, file as u64) {
            Ok(length) => told.push(length)?,
            Err(error) => return Err(error),
        }
    }
    Ok(told)
}

/// Asks for the length of one file: none of one that is missing.
pub(crate) fn ask_one<S: Source>(
    source: &S,
    file: u64,
) -> Result<Option<u64>, EngineError<S::Fault>>
    ensures steady { (facts : SourceFacts S.Fault) → S.is_steady source.now facts →
        MatchResult result (λ length. told_length facts file ≡ Ok length)
        (λ error. asked_fault facts file ≡ Some error) }
    ensures told { IfOk result ((S.answers source.now).told file) }
    ensures gave { (files : ℕ) → file < files → IfErr result (IsGivenLength (S.answers source.now) files) }
{
    match source.length(file) {
        Ok(length) => Ok(length),
        Err(fault) => Err(EngineError::Read {
            file,
            start: None,
            fault,
        }),
    }
}

/// Asks again, and answers the first fault: that of a length, or that a file was changed, if another length is told, or
/// it is missing now and was not, or was and is there. It takes no memory.
pub(crate) fn expect_each<S: Source>(
    source: &S,
    told: &[Option<u64>],
) -> Result<(), EngineError<S::Fault>>
    ensures steady { (facts : SourceFacts S.Fault) → S.is_steady source.now facts →
        MatchResult result (λ _. first_again_fault facts told.now ≡ None)
        (λ error. first_again_fault facts told.now ≡ Some error) }
    ensures gave { IfErr result (IsGivenAgain (S.answers source.now) told.now) }
{
    'files: for (file, length) in told.iter().enumerate() {
        match ask_one(source, file as u64) {
            Ok(again) if again == *length => {}
            Ok(_) => return Err(EngineError::Changed { file: file as u64 }),
            Err(error) => return Err(error),
        }
    }
    Ok(())
}
