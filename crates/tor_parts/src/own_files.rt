//! The lengths of the files of which units have parts, asked of their source.
ghost use Rattle.std.specs.Prelude.{◌≡◌, ◌<◌, ℕ, All, Contains, IfErr, IfOk, IfSome, List, MatchResult, None, Option};
ghost use Rattle.std.specs.Prelude.{Some, length, map, slice_index};
ghost use Rattle.std.specs.List.{AllByRecursion};
ghost use Rattle.tor_engine.specs.Rows.{AreInFiles};
ghost use Rattle.tor_parts.specs.OwnFiles.{HasToldOf, IsGivenOwn, IsOfFiles, files_of, own_length_fault};
ghost use Rattle.tor_parts.specs.OwnFiles.{planned_fault};
ghost use Rattle.tor_parts.specs.steps.OwnFiles.{IsAsked, IsToldOf};
ghost use Rattle.tor_plan.specs.WithinEntries.{IsInFile};
ghost use Rattle.tor_plan.specs.declared.units.Part.{Part};
ghost use Rattle.tor_source.specs.Source.{SourceFacts};
ghost use Rattle.tor_sums.specs.Fault.{first_of};

use tor_engine::EngineError;
use tor_plan::{Part, PlanUnit};
use tor_source::Source;

/// Asks for the length of each file of which units have parts, in the order of the parts, and answers the first that
/// cannot be told, is missing, or is not the one that was planned. It takes no memory, and asks once for parts of one
/// file that stand one after another.
pub(crate) fn expect_own<S: Source>(
    source: &S,
    lengths: &[u64],
    units: &[PlanUnit],
) -> Result<(), EngineError<S::Fault>>
    requires { AreInFiles lengths.now units.now }
    ensures steady { (facts : SourceFacts S.Fault) → S.is_steady source.now facts →
        MatchResult result (λ _. own_length_fault facts lengths.now units.now ≡ None)
        (λ error. own_length_fault facts lengths.now units.now ≡ Some error) }
    ensures told { IfOk result (λ _. HasToldOf (S.answers source.now) lengths.now (files_of units.now)) }
    ensures of_files { IfErr result (IsOfFiles (files_of units.now)) }
    ensures gave { IfErr result (IsGivenOwn (S.answers source.now) lengths.now) }
{
    let mut last = None;
    'units: for unit in units {
        match expect_parts(source, lengths, unit.parts.as_slice(), last) {
            Ok(file) => last = file,
            Err(error) => return Err(error),
        }
    }
    Ok(())
}

/// Asks for the length of each file of which there are parts, but for the file that was asked last; and tells which
/// was.
fn expect_parts<S: Source>(
    source: &S,
    lengths: &[u64],
    parts: &[Part],
    last: Option<u64>,
) -> Result<Option<u64>, EngineError<S::Fault>>
    requires { All (IsInFile lengths.now) parts.now }
    ensures steady { (facts : SourceFacts S.Fault) → S.is_steady source.now facts →
        IsAsked facts lengths.now last → MatchResult result
        (λ file. IsAsked facts lengths.now file
        × (first_of (planned_fault facts lengths.now) (map (λ part. part.file) parts.now) ≡ None))
        (λ error. first_of (planned_fault facts lengths.now) (map (λ part. part.file) parts.now) ≡ Some error) }
    ensures told { IsToldOf (S.answers source.now) lengths.now last → IfOk result (λ file.
        IsToldOf (S.answers source.now) lengths.now file
        × HasToldOf (S.answers source.now) lengths.now (map (λ part. part.file) parts.now)) }
    ensures of_files { (files : List ℕ) → All (λ part. Contains files part.file) parts.now →
        IfErr result (IsOfFiles files) }
    ensures gave { IfErr result (IsGivenOwn (S.answers source.now) lengths.now) }
{
    let mut last = last;
    'parts: for part in parts {
        match expect_next(source, lengths, part.file, last) {
            Ok(()) => last = Some(part.file),
            Err(error) => return Err(error),
        }
    }
    Ok(last)
}

/// Asks for the length of a file, unless it was asked last.
fn expect_next<S: Source>(
    source: &S,
    lengths: &[u64],
    file: u64,
    last: Option<u64>,
) -> Result<(), EngineError<S::Fault>>
    requires { file < length lengths.now }
    ensures steady { (facts : SourceFacts S.Fault) → S.is_steady source.now facts →
        IsAsked facts lengths.now last → MatchResult result (λ _. planned_fault facts lengths.now file ≡ None)
        (λ error. planned_fault facts lengths.now file ≡ Some error) }
    ensures told { IsToldOf (S.answers source.now) lengths.now last →
        IfOk result (λ _. (S.answers source.now).told file (Some (slice_index lengths.now file))) }
    ensures of_files { (files : List ℕ) → Contains files file → IfErr result (IsOfFiles files) }
    ensures gave { IfErr result (IsGivenOwn (S.answers source.now) lengths.now) }
{
    match last {
        Some(other) if other == file => Ok(()),
        _ => expect_length(source, lengths, file),
    }
}

/// Asks for the length of a file, which has to be the one that was planned.
fn expect_length<S: Source>(
    source: &S,
    lengths: &[u64],
    file: u64,
) -> Result<(), EngineError<S::Fault>>
    requires { file < length lengths.now }
    ensures steady { (facts : SourceFacts S.Fault) → S.is_steady source.now facts → MatchResult result
        (λ _. planned_fault facts lengths.now file ≡ None)
        (λ error. planned_fault facts lengths.now file ≡ Some error) }
    ensures told { IfOk result (λ _. (S.answers source.now).told file (Some (slice_index lengths.now file))) }
    ensures of_files { (files : List ℕ) → Contains files file → IfErr result (IsOfFiles files) }
    ensures gave { IfErr result (IsGivenOwn (S.answers source.now) lengths.now) }
{
    let planned = lengths[file as usize];
    match source.length(file) {
        Ok(Some(length)) if length == planned => Ok(()),
        Ok(Some(_)) => Err(EngineError::Changed { file }),
        Ok(None) => Err(EngineError::Missing { file }),
        Err(fault) => Err(EngineError::Read {
            file,
            start: None,
            fault,
        }),
    }
}
