//! All files of a plan hashed.
ghost use Rattle.std.specs.Prelude.{◌≡◌, None, IfErr, IfOk, MatchResult, OnOk, length};
ghost use Rattle.tor_source.specs.Source.{SourceFacts};
ghost use Rattle.tor_sums.specs.Contents.{contents_in};
ghost use Rattle.tor_sums.specs.Fault.{IsFault, first_byte_fault, first_fault, first_length_fault};
ghost use Rattle.tor_sums.specs.Given.{HasToldLengths, IsGiven, IsGivenNotMissing};
ghost use Rattle.tor_sums.specs.How.{IsHow};
ghost use Rattle.tor_sums.specs.Sums.{AreSumsOfPlan, AreSumsOfSome};

use crate::lengths::expect_lengths;
use crate::sum_work::SumWork;
use crate::workers::units::hash_units;
use std::alloc::Global;
use std::thread::Threads;
use tor_plan::Plan;
use tor_source::Source;
use tor_sums::{EngineError, How, Sums, sums_of_units};

/// What the files of the source sum up to that the plan has: file i of the plan is file i of the source. First every
/// length is asked, in the order of the files; a file that is not as long as the plan says is answered when all were
/// asked. Then the units are read, each byte once; the first fault in the order of the files is answered, whatever the
/// `How`. Then every length is asked again.
pub fn hash_all<S: Source, R: Threads + Sync>(
    rt: &R,
    alloc: Global,
    source: &S,
    plan: &Plan,
    how: How,
) -> Result<Sums, EngineError<S::Fault>>
    requires { IsHow how }
    ensures summed { (facts : SourceFacts S.Fault) → S.is_steady source.now facts →
        MatchResult result
        (λ sums. AreSumsOfPlan plan.now (contents_in facts (length plan.now.lengths)) sums
        × (first_fault facts plan.now.lengths ≡ None))
        (IsFault (first_fault facts plan.now.lengths)) }
    ensures whole { IfOk result (AreSumsOfSome plan.now) }
    ensures told { IfOk result (λ _. HasToldLengths (S.answers source.now) plan.now.lengths) }
    ensures gave { IfErr result (IsGiven (S.answers source.now) plan.now.lengths) }
{
    expect_lengths(alloc, source, plan.lengths())?;
    hash_told(rt, alloc, source, plan, how)
}

/// What the files of the source sum up to that the plan has, if their lengths were asked before and are those of the
/// plan: the units are read as by [`hash_all`], and then every length is asked again, so that no file of another length
/// is answered for. A file that is missing then was changed.
pub fn hash_told<S: Source, R: Threads + Sync>(
    rt: &R,
    alloc: Global,
    source: &S,
    plan: &Plan,
    how: How,
) -> Result<Sums, EngineError<S::Fault>>
    requires { IsHow how }
    ensures summed { (facts : SourceFacts S.Fault) → S.is_steady source.now facts →
        first_length_fault facts plan.now.lengths ≡ None →
        MatchResult result
        (λ sums. AreSumsOfPlan plan.now (contents_in facts (length plan.now.lengths)) sums
        × (first_byte_fault facts plan.now.lengths ≡ None))
        (IsFault (first_byte_fault facts plan.now.lengths)) }
    ensures unchanged { (facts : SourceFacts S.Fault) → S.is_steady source.now facts →
        OnOk result (first_length_fault facts plan.now.lengths ≡ None) }
    ensures whole { IfOk result (AreSumsOfSome plan.now) }
    ensures told { IfOk result (λ _. HasToldLengths (S.answers source.now) plan.now.lengths) }
    ensures gave { IfErr result (IsGivenNotMissing (S.answers source.now) plan.now.lengths) }
{
    let units = plan.units();
    let work = SumWork {
        alloc,
        source,
        plan,
        units,
    };
    let (unit_sums, roots) = match hash_units(rt, &work, units, plan.forest(), how) {
        Ok(hashed) => hashed,
        Err(error) => return Err(error),
    };
    match expect_lengths(alloc, source, plan.lengths()) {
        Ok(()) => {}
        // It was there before.
        Err(EngineError::Missing { file }) => return Err(EngineError::Changed { file }),
        Err(error) => return Err(error),
    }
    let sums = sums_of_units(alloc, plan, &unit_sums, &roots)?;
    Ok(sums)
}
