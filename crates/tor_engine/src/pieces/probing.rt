//! The faults of a piece of several parts, each of which is read by itself.
ghost use Rattle.std.specs.Prelude.{◌≡◌, ◌≢◌, [], ◌+◌, ◌<◌, ◌≤◌, ◌^◌, ℕ, All, List, None, Some, IfErr, IfOk, IsSome};
ghost use Rattle.std.specs.Prelude.{length};
ghost use Rattle.std.specs.Prelude.{MatchOption, MatchResult};
ghost use Rattle.std.specs.List.{AllByRecursion, flat_map};
ghost use Rattle.tor_plan.specs.WithinEntries.{IsInFile};
ghost use Rattle.tor_source.specs.Source.{SourceFacts, bytes_from};
ghost use Rattle.tor_sums.specs.Fault.{part_fault, unit_fault};
ghost use Rattle.tor_sums.specs.declared.errors.EngineError.TheVariants.{Resources};
ghost use Rattle.tor_sums.specs.steps.Given.{IsGivenRead};
ghost use Rattle.tor_sums.specs.steps.ReadBytes.{IsFaultFree};
ghost use Rattle.tor_sums.specs.steps.Reads.{HasPart, HasParts};
ghost use Rattle.tor_engine.specs.Readable.{IsNoReadFault, error_of_fault, read_faults};
ghost use Rattle.tor_engine.specs.steps.Readable.{listed};

use crate::pieces::read_fault::{ReadFault, add_fault, one_fault};
use std::alloc::Global;
use tor_plan::{Part, PlanUnit};
use tor_source::zeros;
use tor_sums::{EngineError, FileBytes};

/// At most so many bytes are read at a time.
const MOST_PROBED: usize = 1 << 16;

/// What of a piece could not be read, if this is the first: of several parts the first fault of each, for which they
/// are read once more.
pub(crate) fn faults_of<S: FileBytes>(
    alloc: Global,
    source: &S,
    piece: &PlanUnit,
    first: ReadFault<S::Fault>,
) -> Result<Vec<ReadFault<S::Fault>>, EngineError<S::Fault>>
    requires { All (λ part. part.start + part.length < 2 ^ 64) piece.now.parts }
    ensures failed { (facts : SourceFacts S.Fault) → S.is_steady source.now facts → HasParts facts piece.now.parts →
        unit_fault facts piece.now ≡ Some (error_of_fault first) →
        IfOk result (λ faults. faults.items ≡ flat_map (λ part. read_faults (part_fault facts part)) piece.now.parts) }
    ensures refused { (facts : SourceFacts S.Fault) → S.is_steady source.now facts → HasParts facts piece.now.parts →
        IfErr result (λ error. error ≡ Resources) }
    ensures some { IfOk result (λ faults. faults.items ≢ []) }
    ensures given { (lengths : List ℕ) → All (IsInFile lengths) piece.now.parts →
        IsGivenRead (S.answers source.now) lengths (error_of_fault first) →
        IfOk result (λ faults.
        AllByRecursion (λ fault. IsGivenRead (S.answers source.now) lengths (error_of_fault fault)) faults.items) }
    ensures no_read_fault { IfErr result IsNoReadFault }
    ensures gave { (lengths : List ℕ) → All (IsInFile lengths) piece.now.parts →
        IfErr result (IsGivenRead (S.answers source.now) lengths) }
{
    let parts = piece.parts.as_slice();
    if parts.len() <= 1 {
        let one = one_fault(alloc, first)?;
        return Ok(one);
    }
    let faults = match probe_parts(alloc, source, parts) {
        Ok(faults) => faults,
        Err(error) => return Err(error),
    };
    if faults.is_empty() {
        let one = one_fault(alloc, first)?;
        return Ok(one);
    }
    Ok(faults)
}

/// The first fault of each of these parts.
fn probe_parts<S: FileBytes>(
    alloc: Global,
    source: &S,
    parts: &[Part],
) -> Result<Vec<ReadFault<S::Fault>>, EngineError<S::Fault>>
    requires { All (λ part. part.start + part.length < 2 ^ 64) parts.now }
    ensures failed { (facts : SourceFacts S.Fault) → S.is_steady source.now facts → HasParts facts parts.now →
        IfOk result (λ faults. faults.items ≡ flat_map (λ part. read_faults (part_fault facts part)) parts.now) }
    ensures refused { (facts : SourceFacts S.Fault) → S.is_steady source.now facts → HasParts facts parts.now →
        IfErr result (λ error. error ≡ Resources) }
    ensures given { (lengths : List ℕ) → All (IsInFile lengths) parts.now →
        IfOk result (λ faults.
        AllByRecursion (λ fault. IsGivenRead (S.answers source.now) lengths (error_of_fault fault)) faults.items) }
    ensures no_read_fault { IfErr result IsNoReadFault }
    ensures gave { (lengths : List ℕ) → All (IsInFile lengths) parts.now →
        IfErr result (IsGivenRead (S.answers source.now) lengths) }
{
    let mut buffer = zeros(alloc, MOST_PROBED)?;
    let room = buffer.as_mut_slice();
    let mut faults = Vec::new(alloc);
    'parts: for part in parts {
        let found = match probe_part(source, part, room) {
            Ok(found) => found,
            Err(error) => return Err(error),
        };
        add_fault(&mut faults, found)?;
    }
    Ok(faults)
}

/// The first fault of a part, none if all its bytes can be read.
fn probe_part<S: FileBytes>(
    source: &S,
    part: &Part,
    buffer: &mut [u8],
) -> Result<Option<ReadFault<S::Fault>>, EngineError<S::Fault>>
    requires some { 0 < length buffer.old }
    requires small { part.now.start + part.now.length < 2 ^ 64 }
    ensures len { length buffer.new ≡ length buffer.old }
    ensures failed { (facts : SourceFacts S.Fault) → S.is_steady source.now facts → HasPart facts part.now →
        IfOk result (λ found. listed found ≡ read_faults (part_fault facts part.now)) }
    ensures refused { (facts : SourceFacts S.Fault) → S.is_steady source.now facts → HasPart facts part.now →
        IfErr result (λ _. ⊥) }
    ensures given { (lengths : List ℕ) → IsInFile lengths part.now →
        IfOk result (λ found.
        AllByRecursion (λ fault. IsGivenRead (S.answers source.now) lengths (error_of_fault fault)) (listed found)) }
    ensures no_read_fault { IfErr result IsNoReadFault }
    ensures gave { (lengths : List ℕ) → IsInFile lengths part.now →
        IfErr result (IsGivenRead (S.answers source.now) lengths) }
{
    let file = part.file;
    let mut done = 0;
    'reads: while done < part.length {
        let start = part.start + done;
        match probe(source, file, start, part.length - done, buffer) {
            Ok(count) => done += count as u64,
            Err(None) => return Err(EngineError::Changed { file }),
            Err(Some(fault)) => {
                let start = Some(start);
                return Ok(Some(ReadFault { file, start, fault }));
            }
        }
    }
    Ok(None)
}

/// Reads once from a byte of a file on, at most `left` bytes, and tells how many; or the fault, or that the file ends.
fn probe<S: FileBytes>(
    source: &S,
    file: u64,
    start: u64,
    left: u64,
    buffer: &mut [u8],
) -> Result<usize, Option<S::Fault>>
    requires some { 0 < length buffer.old }
    requires left { 0 < left }
    ensures len { length buffer.new ≡ length buffer.old }
    ensures some { IfOk result (λ count. (0 < count) × (count ≤ left)) }
    ensures steady { (facts : SourceFacts S.Fault) → S.is_steady source.now facts →
        0 < length (bytes_from facts file start) →
        MatchResult result (IsFaultFree facts file start)
        (λ fault. IsSome fault × (facts.byte_fault file start ≡ fault)) }
    ensures gave { IfErr result (λ fault. MatchOption fault ((S.answers source.now).ended file start)
        ((S.answers source.now).gave file (Some start))) }
{
    let most = buffer.len().min(left as usize);
    let (room, _) = buffer.split_at_mut(most);
    match source.bytes_at(file, start, room) {
        Ok(0) => Err(None),
        Ok(count) => Ok(count),
        Err(fault) => Err(Some(fault)),
    }
}
