//! One part of a unit, read and taken.
ghost use Rattle.std.specs.Prelude.{◌≡◌, ◌+◌, ◌≤◌, None, IfErr, IfOk, List, MatchResult, ℕ};
ghost use Rattle.tor_merkle.specs.declared.TheConstants.{MAX_LENGTH};
ghost use Rattle.tor_plan.specs.PlanFacts.{PlanFacts};
ghost use Rattle.tor_plan.specs.WithinEntries.{IsInFile};
ghost use Rattle.tor_source.specs.Source.{SourceFacts};
ghost use Rattle.tor_sums.specs.Fault.{IsFault, PartFailsWithin, part_fault, wanted_part_fault};
ghost use Rattle.tor_sums.specs.steps.Given.{IsGivenRead};
ghost use Rattle.tor_sums.specs.steps.Reads.{AddsPart, HasPart};
ghost use Rattle.tor_sums.specs.steps.Worker.{begun_of};

use crate::errors::EngineError;
use crate::file_bytes::FileBytes;
use crate::worker::WorkerSums;
use tor_plan::Part;

/// Reads the bytes of a part, as many at once as the sums ask for, and takes them.
pub(crate) fn read_part<S: FileBytes>(
    source: &S,
    part: &Part,
    sums: &mut WorkerSums,
) -> Result<(), EngineError<S::Fault>>
    requires small { begun_of sums.old + part.now.length ≤ MAX_LENGTH }
    requires within { part.now.start + part.now.length ≤ MAX_LENGTH }
    ensures added { (plan : PlanFacts) → IsInFile plan.lengths part.now →
        IfOk result (λ _. AddsPart (S.is_steady source.now) plan part.now sums.old sums.new) }
    ensures fault { (facts : SourceFacts S.Fault) → S.is_steady source.now facts → HasPart facts part.now →
        MatchResult result (λ _. part_fault facts part.now ≡ None) (IsFault (part_fault facts part.now)) }
    ensures wanted { (facts : SourceFacts S.Fault) → S.is_steady source.now facts → PartFailsWithin facts part.now →
        MatchResult result (λ _. wanted_part_fault facts part.now ≡ None) (IsFault (wanted_part_fault facts part.now)) }
    ensures gave { (lengths : List ℕ) → IsInFile lengths part.now →
        IfErr result (IsGivenRead (S.answers source.now) lengths) }
{
    let mut done = 0;
    'reads: while done < part.length {
        match sums.read(source, part.file, part.start + done, part.length - done) {
            Ok(count) => done += count as u64,
            Err(error) => return Err(error),
        }
    }
    Ok(())
}
