//! The listing of the files of a source.
ghost use Rattle.std.specs.Prelude.{◌≡◌, ◌⊎◌, Some, None, IfErr, IfOk, OnOk, List, ℕ, MatchResult, length, map};
ghost use Rattle.std.specs.Prelude.{Option, slice_index};
ghost use Rattle.tor_sums.specs.Given.{HasToldLengths};
ghost use Rattle.tor_meta.specs.Head.{settings_of};
ghost use Rattle.tor_meta.specs.Make.{IsGivenTo, IsOwn, asked_fault, letters_at, listed_files, make_refusal};
ghost use Rattle.tor_meta.specs.Make.{plan_fault};
ghost use Rattle.tor_meta.specs.Order.{settings_of_order};
ghost use Rattle.tor_meta.specs.Planned.{IsFaultOfLengths};
ghost use Rattle.tor_meta.specs.declared.make_error.MakeError.{MakeError};
ghost use Rattle.tor_meta.specs.MakeError.{out_of_resources};
ghost use Rattle.tor_meta.specs.steps.Listed.{IsListedOf};
ghost use Rattle.tor_source.specs.Source.{SourceFacts};
ghost use Rattle.tor_tree.specs.FileList.{paths_of};
ghost use Rattle.tor_tree.specs.PathList.{AreIndexedPaths, IsPathList, indices_of};

use crate::before_lengths::judge_paths;
use crate::head::Head;
use crate::listing::Listing;
use crate::make_error::MakeError;
use crate::order::{Order, refusal_of_numbers};
use crate::refusals::ContentsError;
use std::alloc::{AllocError, Global};
use tor_engine::ask_lengths;
use tor_source::Source;
use tor_tree::{Attr, FileList, FilePath, PathList, copy_paths};

/// The listing of the files of a source, in the order of their paths, and which file of the source each of them is.
/// Nothing is asked of the source if the order or the paths are refused; then every length is asked, in the order of
/// the source's numbers. No byte is read.
pub(crate) fn listing_of_source<S: Source>(
    alloc: Global,
    source: &S,
    files: &[(FilePath, Attr)],
    order: &Order,
) -> Result<(Listing, Vec<usize>), MakeError<S::Fault>>
    ensures listed { IfOk result (λ both. IsListedOf (S.is_steady source.now) (S.answers source.now) order.now files.now
        both.0 both.1.items) }
    ensures fault { (facts : SourceFacts S.Fault) → S.is_steady source.now facts → MatchResult result
        (λ _. plan_fault facts order.now (paths_of files.now) ≡ None)
        (λ error. (error ≡ out_of_resources) ⊎ (plan_fault facts order.now (paths_of files.now) ≡ Some error)) }
    ensures accepted { OnOk result (make_refusal {F = S.Fault} order.now (paths_of files.now) ≡ None) }
    ensures refused { (refusal : MakeError S.Fault) → make_refusal order.now (paths_of files.now) ≡ Some refusal →
        IfErr result (λ error. (error ≡ out_of_resources) ⊎ (error ≡ refusal)) }
    ensures only { IfErr result (IsOwn (make_refusal order.now (paths_of files.now))) }
    ensures gave { IfErr result (IsGivenTo (S.answers source.now) (length files.now)) }
    ensures lengths { IfErr result IsFaultOfLengths }
{
    let head = order.head(alloc)?;
    let paths = match accepted_paths(alloc, order, &head, files) {
        Ok(paths) => paths,
        Err(error) => return Err(error),
    };
    let (list, indices) = match ask_lettered(alloc, source, files, paths) {
        Ok(both) => both,
        Err(error) => return Err(error),
    };
    // What every list keeps to is told with its files.
    let _listed = list.files();
    Ok((Listing::of_judged(head, order.span, list), indices))
}

/// The paths in order, if no torrent is refused for them or for the order.
fn accepted_paths<F>(
    alloc: Global,
    order: &Order,
    head: &Head,
    files: &[(FilePath, Attr)],
) -> Result<PathList, MakeError<F>>
    requires { settings_of head.now ≡ settings_of_order order.now }
    ensures indexed { IfOk result (AreIndexedPaths (paths_of files.now)) }
    ensures lawful { IfOk result IsPathList }
    ensures accepted { OnOk result (make_refusal {F = F} order.now (paths_of files.now) ≡ None) }
    ensures refused { IfErr result
        (λ error. (error ≡ out_of_resources) ⊎ (make_refusal order.now (paths_of files.now) ≡ Some error)) }
{
    if let Some(refusal) = refusal_of_numbers(order) {
        return Err(refusal);
    }
    let copies = copy_paths(alloc, files)?;
    match judge_paths(alloc, head, copies) {
        Ok(paths) => Ok(paths),
        Err(refusal) => Err(MakeError::from(refusal)),
    }
}

/// The list of the files of the source that have these paths, each with its letters, and the index of each.
fn ask_lettered<S: Source>(
    alloc: Global,
    source: &S,
    files: &[(FilePath, Attr)],
    paths: PathList,
) -> Result<(FileList, Vec<usize>), MakeError<S::Fault>>
    ensures list { IfOk result (λ both. (lengths : List ℕ) × (length lengths ≡ length paths)
        × HasToldLengths (S.answers source.now) lengths
        × (both.0.files ≡ map (λ entry. (entry.0, slice_index lengths entry.1)) paths)) }
    ensures letters { IfOk result (λ both. both.0.attrs ≡ map (letters_at files.now) (indices_of paths)) }
    ensures indices { IfOk result (λ both. both.1.items ≡ indices_of paths) }
    ensures files { (facts : SourceFacts S.Fault) → S.is_steady source.now facts →
        IfOk result (λ both. both.0.files ≡ listed_files facts paths) }
    ensures fault { (facts : SourceFacts S.Fault) → S.is_steady source.now facts → MatchResult result
        (λ _. asked_fault facts (length paths) ≡ None)
        (λ error. (error ≡ out_of_resources) ⊎ (asked_fault facts (length paths) ≡ Some error)) }
    ensures only { (first : Option (MakeError S.Fault)) → IfErr result (IsOwn first) }
    ensures gave { IfErr result (IsGivenTo (S.answers source.now) (length paths)) }
    ensures lengths { IfErr result IsFaultOfLengths }
{
    let lengths = match ask_lengths(alloc, source, paths.entries().len()) {
        Ok(lengths) => lengths,
        Err(error) => return Err(MakeError::from(error)),
    };
    let (list, indices) = match paths.with_lengths(alloc, &lengths) {
        Ok(both) => both,
        Err(fault) => return Err(MakeError::from(ContentsError::from(fault))),
    };
    let attrs = attrs_at(alloc, files, &indices)?;
    Ok((list.with_attrs(attrs), indices))
}

/// The letters of the files at these indices.
fn attrs_at(
    alloc: Global,
    files: &[(FilePath, Attr)],
    indices: &[usize],
) -> Result<Vec<Attr>, AllocError>
    ensures { IfOk result (λ attrs. attrs.items ≡ map (letters_at files.now) indices.now) }
{
    let mut attrs = Vec::with_capacity(alloc, indices.len())?;
    for index in indices {
        attrs.push(letters_at(files, *index))?;
    }
    Ok(attrs)
}

fn letters_at(files: &[(FilePath, Attr)], index: usize) -> Attr
    ensures { result ≡ letters_at files.now index }
{
    match files.get(index) {
        Some((_, attr)) => *attr,
        None => Attr::NONE,
    }
}
