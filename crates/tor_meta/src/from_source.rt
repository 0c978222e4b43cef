//! The torrent of the files of a source.
ghost use Rattle.std.specs.Prelude.{◌≡◌, ◌⊎◌, Some, None, IfErr, IfOk, OnOk, MatchResult, length};
ghost use Rattle.tor_meta.specs.Contents.{IsMadeOf, IsMadeOfSome, without_letters};
ghost use Rattle.tor_spec.specs.Hashes.{HasInfo};
ghost use Rattle.tor_meta.specs.Make.{IsGivenTo, IsMadeOfTold, IsMakeFault, IsOwn, files_of_source, make_refusal};
ghost use Rattle.tor_meta.specs.Order.{settings_of_order};
ghost use Rattle.tor_meta.specs.declared.make_error.MakeError.{MakeError};
ghost use Rattle.tor_meta.specs.MakeError.{out_of_resources};
ghost use Rattle.tor_source.specs.Source.{SourceFacts};
ghost use Rattle.tor_tree.specs.FileList.{paths_of};

use crate::indexed_files::{Indexed, renumbered};
use crate::listed_files::torrent_of_listed;
use crate::make_error::MakeError;
use crate::order::Order;
use crate::source_listing::listing_of_source;
use std::alloc::{AllocError, Global};
use std::thread::Threads;
use tor_source::Source;
use tor_tree::{Attr, FilePath};

/// The bytes of the torrent of the files of a source: file i of the source has path i, and no letters. All else is as
/// with [`make_with`].
pub fn make<S: Source, R: Threads + Sync>(
    rt: &R,
    alloc: Global,
    source: &S,
    paths: &[FilePath],
    order: &Order,
) -> Result<Vec<u8>, MakeError<S::Fault>>
    ensures made { (facts : SourceFacts S.Fault) → S.is_steady source.now facts → IfOk result (λ bytes. IsMadeOf
        (settings_of_order order.now) (files_of_source facts (without_letters paths.now)) bytes.items) }
    ensures whole { IfOk result
        (λ bytes. IsMadeOfSome (settings_of_order order.now) (without_letters paths.now) bytes.items) }
    ensures told { IfOk result (λ bytes.
        IsMadeOfTold (S.answers source.now) (settings_of_order order.now) (without_letters paths.now) bytes.items) }
    ensures info { IfOk result (λ bytes. HasInfo bytes.items) }
    ensures fault { (facts : SourceFacts S.Fault) → S.is_steady source.now facts → MatchResult result
        (λ _. IsMakeFault facts order.now paths.now None)
        (λ error. (error ≡ out_of_resources) ⊎ IsMakeFault facts order.now paths.now (Some error)) }
    ensures accepted { OnOk result (make_refusal {F = S.Fault} order.now paths.now ≡ None) }
    ensures refused { (refusal : MakeError S.Fault) → make_refusal order.now paths.now ≡ Some refusal →
        IfErr result (λ error. (error ≡ out_of_resources) ⊎ (error ≡ refusal)) }
    ensures only { IfErr result (IsOwn (make_refusal order.now paths.now)) }
    ensures gave { IfErr result (IsGivenTo (S.answers source.now) (length paths.now)) }
{
    let files = without_letters(alloc, paths)?;
    make_with(rt, alloc, source, &files, order)
}

/// The bytes of the torrent of the files of a source: file i of the source has the i-th path and its letters. The files
/// are put into the order of their paths. Nothing is asked of the source if the order or the paths are refused; then
/// every length is asked, in the order of the source's numbers, then the bytes are read in the order of the list, and
/// then every length is asked again. Of a source that is not steady the bytes are the torrent of some files that have
/// the paths and letters, and the lengths that it told.
pub fn make_with<S: Source, R: Threads + Sync>(
    rt: &R,
    alloc: Global,
    source: &S,
    files: &[(FilePath, Attr)],
    order: &Order,
) -> Result<Vec<u8>, MakeError<S::Fault>>
    ensures made { (facts : SourceFacts S.Fault) → S.is_steady source.now facts → IfOk result
        (λ bytes. IsMadeOf (settings_of_order order.now) (files_of_source facts files.now) bytes.items) }
    ensures whole { IfOk result (λ bytes. IsMadeOfSome (settings_of_order order.now) files.now bytes.items) }
    ensures told { IfOk result (λ bytes.
        IsMadeOfTold (S.answers source.now) (settings_of_order order.now) files.now bytes.items) }
    ensures info { IfOk result (λ bytes. HasInfo bytes.items) }
    ensures fault { (facts : SourceFacts S.Fault) → S.is_steady source.now facts → MatchResult result
        (λ _. IsMakeFault facts order.now (paths_of files.now) None)
        (λ error. (error ≡ out_of_resources) ⊎ IsMakeFault facts order.now (paths_of files.now) (Some error)) }
    ensures accepted { OnOk result (make_refusal {F = S.Fault} order.now (paths_of files.now) ≡ None) }
    ensures refused { (refusal : MakeError S.Fault) → make_refusal order.now (paths_of files.now) ≡ Some refusal →
        IfErr result (λ error. (error ≡ out_of_resources) ⊎ (error ≡ refusal)) }
    ensures only { IfErr result (IsOwn (make_refusal order.now (paths_of files.now))) }
    ensures gave { IfErr result (IsGivenTo (S.answers source.now) (length files.now)) }
{
    let (listing, indices) = match listing_of_source(alloc, source, files, order) {
        Ok(both) => both,
        Err(error) => return Err(error),
    };
    let indexed = Indexed {
        source,
        indices: &indices,
    };
    match torrent_of_listed(rt, alloc, &indexed, &listing, order.how) {
        Ok(bytes) => Ok(bytes),
        Err(error) => Err(MakeError::from(renumbered(&indices, error))),
    }
}

/// Each path without letters.
pub(crate) fn without_letters(
    alloc: Global,
    paths: &[FilePath],
) -> Result<Vec<(FilePath, Attr)>, AllocError>
    ensures { IfOk result (λ files. files.items ≡ without_letters paths.now) }
{
    let mut files = Vec::with_capacity(alloc, paths.len())?;
    for path in paths {
        files.push((path.copy(alloc)?, Attr::NONE))?;
    }
    Ok(files)
}
