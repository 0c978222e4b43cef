//! The lengths of files that may be missing, past faults, for `find_readable`: as far as their source tells them.
ghost use Rattle.std.specs.Prelude.{◌≡◌, ◌⊎◌, ◌<◌, [], ℕ, None, Ok, IfErr, IfOk, IsSome, List, Option, length};
ghost use Rattle.std.specs.Prelude.{option_map, slice_index_or};
ghost use Rattle.std.specs.List.{AllByRecursion, flat_map, range_with_len};
ghost use Rattle.tor_source.specs.Source.{SourceFacts, told_length};
ghost use Rattle.tor_sums.specs.Given.{HasTold, IsGivenPieces};
ghost use Rattle.tor_sums.specs.declared.errors.EngineError.TheVariants.{Resources};
ghost use Rattle.tor_engine.specs.PieceFault.{asked_fault};
ghost use Rattle.tor_engine.specs.Readable.{IsNoReadFault, IsSeenLength, error_of_fault, read_faults, seen};
ghost use Rattle.tor_engine.specs.Readable.{seen_lengths};
ghost use Rattle.tor_engine.specs.steps.Readable.{IsLeft, listed};

use crate::pieces::read_fault::{ReadFault, add_fault};
use std::alloc::{AllocError, Global};
use tor_source::Source;
use tor_sums::EngineError;

/// Asks for the length of each of so many files, in order: none of one that is missing, or whose length fails; and
/// these faults.
pub(crate) fn ask_readable<S: Source>(
    alloc: Global,
    source: &S,
    count: usize,
) -> Result<(Vec<Option<u64>>, Vec<ReadFault<S::Fault>>), AllocError>
    ensures steady { (facts : SourceFacts S.Fault) → S.is_steady source.now facts →
        IfOk result (λ asked. (asked.0.items ≡ seen_lengths facts count)
        × (asked.1.items ≡ flat_map (λ file. read_faults (asked_fault facts file)) (range_with_len 0 count))) }
    ensures told { IfOk result (λ asked. (file : ℕ) → file < length asked.0.items →
        IsSeenLength (S.answers source.now) file (slice_index_or asked.0.items file None)) }
    ensures clean { IfOk result (λ asked. asked.1.items ≡ [] → HasTold (S.answers source.now) asked.0.items) }
    ensures counted { IfOk result (λ asked. length asked.0.items ≡ count) }
    ensures given { IfOk result (λ asked.
        AllByRecursion (λ fault. IsGivenPieces (S.answers source.now) count (error_of_fault fault)) asked.1.items) }
{
    let mut told = Vec::with_capacity(alloc, count)?;
    let mut faults = Vec::new(alloc);
    'files: for file in 0..count {
        let file = file as u64;
        let (length, fault) = ask_seen(source, file);
        told.push(length)?;
        add_fault(&mut faults, fault)?;
    }
    Ok((told, faults))
}

/// Asks for a length, none of a file that is missing, or whose length fails; and its fault.
fn ask_seen<S: Source>(source: &S, file: u64) -> (Option<u64>, Option<ReadFault<S::Fault>>)
    ensures steady { (facts : SourceFacts S.Fault) → S.is_steady source.now facts →
        (result.0 ≡ option_map length ((seen facts).contents file))
        × (listed result.1 ≡ read_faults (asked_fault facts file)) }
    ensures told { IsSeenLength (S.answers source.now) file result.0 }
    ensures clean { listed result.1 ≡ [] → (S.answers source.now).told file result.0 }
    ensures given { (files : ℕ) → file < files → AllByRecursion (λ fault.
        IsGivenPieces (S.answers source.now) files (error_of_fault fault)) (listed result.1) }
{
    match source.length(file) {
        Ok(length) => (length, None),
        Err(fault) => {
            let start = None;
            (None, Some(ReadFault { file, start, fault }))
        }
    }
}

/// Asks again for the lengths that were told, and answers those that fail now, or that a file was changed, if another
/// length is told, or it is missing now.
pub(crate) fn expect_readable<S: Source>(
    alloc: Global,
    source: &S,
    told: &[Option<u64>],
) -> Result<Vec<ReadFault<S::Fault>>, EngineError<S::Fault>>
    ensures steady { (facts : SourceFacts S.Fault) → S.is_steady source.now facts →
        told.now ≡ seen_lengths facts (length told.now) → IfOk result (λ lost. lost.items ≡ []) }
    ensures refused { (facts : SourceFacts S.Fault) → S.is_steady source.now facts →
        told.now ≡ seen_lengths facts (length told.now) → IfErr result (λ error. error ≡ Resources) }
    ensures given { IfOk result (λ lost. AllByRecursion (λ fault.
        IsGivenPieces (S.answers source.now) (length told.now) (error_of_fault fault)) lost.items) }
    ensures no_read_fault { IfErr result IsNoReadFault }
    ensures gave { IfErr result (λ error. (error ≡ Resources) ⊎ IsLeft (S.answers source.now) told.now error) }
{
    let mut lost = Vec::new(alloc);
    'files: for (file, length) in told.iter().enumerate() {
        let found = match ask_again(source, file as u64, *length) {
            Ok(found) => found,
            Err(error) => return Err(error),
        };
        add_fault(&mut lost, found)?;
    }
    Ok(lost)
}

/// Asks again for a length, if one was told: its fault, or that the file was changed.
fn ask_again<S: Source>(
    source: &S,
    file: u64,
    told: Option<u64>,
) -> Result<Option<ReadFault<S::Fault>>, EngineError<S::Fault>>
    ensures steady { (facts : SourceFacts S.Fault) → S.is_steady source.now facts →
        (IsSome told → told_length facts file ≡ Ok told) → result ≡ Ok None }
    ensures given { (files : ℕ) → file < files → IfOk result (λ lost. AllByRecursion (λ fault.
        IsGivenPieces (S.answers source.now) files (error_of_fault fault)) (listed lost)) }
    ensures no_read_fault { IfErr result IsNoReadFault }
    ensures gave { (sizes : List (Option ℕ)) → file < length sizes → slice_index_or sizes file None ≡ told →
        IfErr result (IsLeft (S.answers source.now) sizes) }
{
    if told.is_none() {
        return Ok(None);
    }
    match source.length(file) {
        Ok(again) if again == told => Ok(None),
        Ok(_) => Err(EngineError::Changed { file }),
        Err(fault) => {
            let start = None;
            Ok(Some(ReadFault { file, start, fault }))
        }
    }
}
