//! The plan of the files of a source.
ghost use Rattle.std.specs.Prelude.{◌≡◌, ◌⊎◌, Some, None, IfErr, IfOk, OnOk, MatchResult, length};
ghost use Rattle.tor_meta.specs.Make.{IsGivenTo, IsOwn, make_refusal, plan_fault};
ghost use Rattle.tor_meta.specs.MakeError.{out_of_resources};
ghost use Rattle.tor_meta.specs.Planned.{IsFaultOfLengths, IsPlanOfSource, IsPlanOfTold};
ghost use Rattle.tor_meta.specs.declared.make_error.MakeError.{MakeError};
ghost use Rattle.tor_source.specs.Source.{SourceFacts};
ghost use Rattle.tor_tree.specs.FileList.{paths_of};

use crate::make_error::MakeError;
use crate::order::Order;
use crate::plans::write_plan;
use crate::source_listing::listing_of_source;
use std::alloc::Global;
use tor_source::Source;
use tor_tree::{Attr, FilePath};

/// The bytes of the plan of the files of a source: file i of the source has the i-th path and its letters. The files
/// are put into the order of their paths, so file i of the plan is the i-th in that order. The refusals are those of
/// [`make_with`](crate::make_with); then every length is asked, in the order of the source's numbers. No byte is read.
pub fn make_plan<S: Source>(
    alloc: Global,
    source: &S,
    files: &[(FilePath, Attr)],
    order: &Order,
) -> Result<Vec<u8>, MakeError<S::Fault>>
    ensures planned { (facts : SourceFacts S.Fault) → S.is_steady source.now facts →
        IfOk result (λ bytes. IsPlanOfSource facts order.now files.now bytes.items) }
    ensures told { IfOk result
        (λ bytes. IsPlanOfTold (S.answers source.now) order.now files.now bytes.items) }
    ensures fault { (facts : SourceFacts S.Fault) → S.is_steady source.now facts → MatchResult result
        (λ _. plan_fault facts order.now (paths_of files.now) ≡ None)
        (λ error. (error ≡ out_of_resources) ⊎ (plan_fault facts order.now (paths_of files.now) ≡ Some error)) }
    ensures accepted { OnOk result (make_refusal {F = S.Fault} order.now (paths_of files.now) ≡ None) }
    ensures refused { (refusal : MakeError S.Fault) → make_refusal order.now (paths_of files.now) ≡ Some refusal →
        IfErr result (λ error. (error ≡ out_of_resources) ⊎ (error ≡ refusal)) }
    ensures only { IfErr result (IsOwn (make_refusal order.now (paths_of files.now))) }
    ensures gave { IfErr result (IsGivenTo (S.answers source.now) (length files.now)) }
    ensures lengths { IfErr result IsFaultOfLengths }
{
    let (listing, _indices) = match listing_of_source(alloc, source, files, order) {
        Ok(both) => both,
        Err(error) => return Err(error),
    };
    let bytes = write_plan(alloc, &listing)?;
    Ok(bytes)
}
