//! The torrent of readers that are read once.
ghost use Rattle.std.specs.Prelude.{◌≡◌, ◌⊎◌, None, Some, IfErr, IfOk, OnOk, List, ℕ, length, map, vec_len};
ghost use Rattle.std.specs.List.{zip};
ghost use Rattle.std.specs.declared.io.Error.{Error};
ghost use Rattle.tor_streams.specs.Streams.{AreSumsOfContents, AreSumsOfReaders, IsFaultOfReaders};
ghost use Rattle.tor_meta.specs.Contents.{IsMadeOfSome, files_with, without_letters};
ghost use Rattle.tor_spec.specs.Hashes.{HasInfo};
ghost use Rattle.tor_meta.specs.Head.{settings_of};
ghost use Rattle.tor_meta.specs.Make.{IsOwn};
ghost use Rattle.tor_meta.specs.MakeStreams.{IsGivenByReaders, IsMadeOfReaders, are_rising};
ghost use Rattle.tor_meta.specs.MakeStreams.{stream_numbers_refusal, stream_refusal};
ghost use Rattle.tor_meta.specs.Order.{has_tail, settings_of_order};
ghost use Rattle.tor_meta.specs.Refusal.{paths_refusal};
ghost use Rattle.tor_meta.specs.steps.Sums.{AreSumsOfSettings};
ghost use Rattle.tor_meta.specs.declared.make_error.MakeError.{MakeError};
ghost use Rattle.tor_meta.specs.declared.refusals.ContentsError.{ContentsError};
ghost use Rattle.tor_meta.specs.MakeError.{out_of_resources};
ghost use Rattle.tor_spec.specs.Metainfo.{metainfo};
ghost use Rattle.tor_tree.specs.FileList.{lengths_fault, paths_of};
ghost use Rattle.tor_tree.specs.PathList.{AreIndexedPaths, IsPathList, with_indices};
ghost use Rattle.tor_tree.specs.declared.lists.ListError.{ListError};

use crate::before_lengths::{refusal_of_shape, sorted_paths};
use crate::from_source::without_letters;
use crate::head::Head;
use crate::listed_files::torrent_of_sums;
use crate::make_error::MakeError;
use crate::order::{Order, refusal_of_numbers};
use crate::refusals::ContentsError;
use std::alloc::{AllocError, Global};
use std::io::{self, Read};
use std::sync::Wait;
use std::thread::Threads;
use tor_engine::{EngineError, MAX_UNIT_LENGTH, Sums, hash_streams};
use tor_merkle::laws::piece_length_bounds;
use tor_tree::{Attr, FileList, FilePath, PathList, copy_paths};

/// The bytes of the torrent of what readers give: reader i has path i, and no letters. All else is as with
/// [`make_streams_with`].
///
/// # Errors
///
/// The errors of [`make_streams_with`].
pub fn make_streams<R: Read + Drop, T: Threads + Wait + Sync>(
    rt: &T,
    alloc: Global,
    readers: Vec<R>,
    paths: &[FilePath],
    order: &Order,
) -> Result<Vec<u8>, MakeError<io::Error>>
    requires { vec_len readers ≡ length paths.now }
    ensures made { (contents : List (List ℕ)) → map R.remaining readers.items ≡ map Some contents →
        IfOk result (λ bytes. bytes.items
        ≡ metainfo (settings_of_order order.now) (files_with (without_letters paths.now) contents)) }
    ensures whole { IfOk result (λ bytes. IsMadeOfReaders (settings_of_order order.now)
        (without_letters paths.now) (map R.remaining readers.items) bytes.items) }
    ensures some { IfOk result
        (λ bytes. IsMadeOfSome (settings_of_order order.now) (without_letters paths.now) bytes.items) }
    ensures info { IfOk result (λ bytes. HasInfo bytes.items) }
    ensures accepted { OnOk result (stream_refusal {F = Error} order.now paths.now ≡ None) }
    ensures refused { (refusal : MakeError Error) → stream_refusal order.now paths.now ≡ Some refusal →
        IfErr result (λ error. (error ≡ out_of_resources) ⊎ (error ≡ refusal)) }
    ensures only { IfErr result (IsOwn (stream_refusal order.now paths.now)) }
    ensures gave { IfErr result (IsGivenByReaders (map R.remaining readers.items)) }
{
    let files = without_letters(alloc, paths)?;
    make_streams_with(rt, alloc, readers, &files, order)
}

/// The bytes of the torrent of what readers give: reader i has the i-th path and its letters, and each path is below
/// the next. The readers are read once, one after the other, each to its end, by the calling thread; so many workers as
/// the order's `how` says hash what was read. Nothing is read if the order or the paths are refused.
///
/// # Errors
///
/// A refusal of the order or the paths, the first that holds: those of [`make`](crate::make), with `Span` also for
/// units of more than 2^30 bytes, and `NotSorted` after `SingleShape`. Then `Read`, after so many bytes of a reader, or
/// `StreamTooLong`; and last `TooLarge` of a list, if all were read. `Resources` at any place.
pub fn make_streams_with<R: Read + Drop, T: Threads + Wait + Sync>(
    rt: &T,
    alloc: Global,
    readers: Vec<R>,
    files: &[(FilePath, Attr)],
    order: &Order,
) -> Result<Vec<u8>, MakeError<io::Error>>
    requires { vec_len readers ≡ length files.now }
    ensures made { (contents : List (List ℕ)) → map R.remaining readers.items ≡ map Some contents →
        IfOk result (λ bytes. bytes.items ≡ metainfo (settings_of_order order.now) (files_with files.now contents)) }
    ensures whole { IfOk result (λ bytes.
        IsMadeOfReaders (settings_of_order order.now) files.now (map R.remaining readers.items) bytes.items) }
    ensures some { IfOk result (λ bytes. IsMadeOfSome (settings_of_order order.now) files.now bytes.items) }
    ensures info { IfOk result (λ bytes. HasInfo bytes.items) }
    ensures accepted { OnOk result (stream_refusal {F = Error} order.now (paths_of files.now) ≡ None) }
    ensures refused { (refusal : MakeError Error) → stream_refusal order.now (paths_of files.now) ≡ Some refusal →
        IfErr result (λ error. (error ≡ out_of_resources) ⊎ (error ≡ refusal)) }
    ensures only { IfErr result (IsOwn (stream_refusal order.now (paths_of files.now))) }
    ensures gave { IfErr result (IsGivenByReaders (map R.remaining readers.items)) }
{
    let head = order.head(alloc)?;
    let paths = match rising_paths(alloc, order, &head, files) {
        Ok(paths) => paths,
        Err(error) => return Err(error),
    };
    let sums = match sums_of(rt, alloc, readers, order) {
        Ok(sums) => sums,
        Err(error) => return Err(MakeError::from(error)),
    };
    match torrent_of_read(alloc, &head, files, paths, &sums) {
        Ok(bytes) => Ok(bytes),
        Err(refusal) => Err(MakeError::from(refusal)),
    }
}

/// The bytes of the torrent of the files that have these paths and letters, and contents of these sums.
fn torrent_of_read(
    alloc: Global,
    head: &Head,
    files: &[(FilePath, Attr)],
    paths: PathList,
    sums: &Sums,
) -> Result<Vec<u8>, ContentsError>
    requires judged { paths_refusal (settings_of head.now) (paths_of files.now) ≡ None }
    requires indexed { AreIndexedPaths (paths_of files.now) paths }
    requires same { paths ≡ with_indices (paths_of files.now) }
    requires summed { (contents : List (List ℕ)) × (length contents ≡ length files.now)
        × AreSumsOfSettings (settings_of head.now) contents sums.now }
    ensures made { (contents : List (List ℕ)) → length contents ≡ length files.now →
        AreSumsOfSettings (settings_of head.now) contents sums.now →
        IfOk result (λ bytes. bytes.items ≡ metainfo (settings_of head.now) (files_with files.now contents)) }
    ensures info { IfOk result (λ bytes. HasInfo bytes.items) }
    ensures accepted { OnOk result (lengths_fault sums.now.lengths.items ≡ None) }
    ensures refused { IfErr result (λ refusal. (refusal ≡ ContentsError.Memory)
        ⊎ ((refusal ≡ ContentsError.List ListError.TooLarge)
        × (lengths_fault sums.now.lengths.items ≡ Some ListError.TooLarge))) }
{
    let list = match lettered_list(alloc, files, paths, &sums.lengths) {
        Ok(list) => list,
        Err(refusal) => return Err(refusal),
    };
    let bytes = torrent_of_sums(alloc, head, &list, sums)?;
    Ok(bytes)
}

/// What the contents of the readers sum up to (`hash_streams` stands in `tor_streams`).
fn sums_of<R: Read + Drop, T: Threads + Wait + Sync>(
    rt: &T,
    alloc: Global,
    readers: Vec<R>,
    order: &Order,
) -> Result<Sums, EngineError<io::Error>>
    requires accepted { stream_numbers_refusal {F = Error} order.now ≡ None }
    ensures summed { IfOk result
        (AreSumsOfReaders order.now.kind (has_tail (settings_of_order order.now)) order.now.piece_length
        (map R.remaining readers.items)) }
    ensures told { (contents : List (List ℕ)) → map R.remaining readers.items ≡ map Some contents →
        IfOk result (AreSumsOfContents order.now.kind (has_tail (settings_of_order order.now)) order.now.piece_length
        contents) }
    ensures fault { IfErr result (IsFaultOfReaders (map R.remaining readers.items)) }
{
    piece_length_bounds();
    let workers = order.how.workers();
    hash_streams(
        rt,
        alloc,
        readers,
        order.kind,
        order.piece_length,
        order.span,
        workers,
        order.has_tail(),
    )
}

/// The paths, if no torrent is refused for them or for the order.
fn rising_paths(
    alloc: Global,
    order: &Order,
    head: &Head,
    files: &[(FilePath, Attr)],
) -> Result<PathList, MakeError<io::Error>>
    requires { settings_of head.now ≡ settings_of_order order.now }
    ensures same { IfOk result (λ list. list ≡ with_indices (paths_of files.now)) }
    ensures indexed { IfOk result (AreIndexedPaths (paths_of files.now)) }
    ensures lawful { IfOk result IsPathList }
    ensures accepted { OnOk result (stream_refusal {F = Error} order.now (paths_of files.now) ≡ None) }
    ensures refused { IfErr result
        (λ error. (error ≡ out_of_resources) ⊎ (stream_refusal order.now (paths_of files.now) ≡ Some error)) }
{
    if let Some(refusal) = refusal_of_stream_numbers(order) {
        return Err(refusal);
    }
    let paths = copy_paths(alloc, files)?;
    if let Some(refusal) = refusal_of_shape(head, &paths) {
        return Err(MakeError::from(refusal));
    }
    if !are_rising(&paths) {
        return Err(MakeError::NotSorted);
    }
    match sorted_paths(alloc, head, paths) {
        Ok(paths) => Ok(paths),
        Err(refusal) => Err(MakeError::from(refusal)),
    }
}

/// The first refusal for what needs no path.
pub(crate) fn refusal_of_stream_numbers(order: &Order) -> Option<MakeError<io::Error>>
    ensures { result ≡ stream_numbers_refusal order.now }
{
    if let Some(refusal) = refusal_of_numbers(order) {
        return Some(refusal);
    }
    if order.span as u64 * order.piece_length <= MAX_UNIT_LENGTH {
        return None;
    }
    Some(MakeError::Span)
}

/// Whether each path is below the next.
pub(crate) fn are_rising(paths: &[FilePath]) -> bool
    ensures { result ≡ are_rising paths.now }
{
    paths.is_sorted_by(|path, next| *path < *next)
}

/// The list of the files that have these paths, letters and lengths, in the same order.
fn lettered_list(
    alloc: Global,
    files: &[(FilePath, Attr)],
    paths: PathList,
    lengths: &[u64],
) -> Result<FileList, ContentsError>
    requires counted { length lengths.now ≡ length files.now }
    requires same { paths ≡ with_indices (paths_of files.now) }
    ensures list { IfOk result (λ list. list.files ≡ zip (paths_of files.now) lengths.now) }
    ensures letters { IfOk result (λ list. list.attrs ≡ map (λ file. file.1) files.now) }
    ensures accepted { OnOk result (lengths_fault lengths.now ≡ None) }
    ensures refused { IfErr result (λ refusal. (refusal ≡ ContentsError.Memory)
        ⊎ ((refusal ≡ ContentsError.List ListError.TooLarge) × (lengths_fault lengths.now ≡ Some ListError.TooLarge))) }
{
    let list = match with_lengths(alloc, paths, lengths) {
        Ok(list) => list,
        Err(refusal) => return Err(refusal),
    };
    let attrs = attrs_of(alloc, files)?;
    Ok(list.with_attrs(attrs))
}

/// The list of the files that have these paths and lengths, in the same order, without letters.
pub(crate) fn with_lengths(
    alloc: Global,
    paths: PathList,
    lengths: &[u64],
) -> Result<FileList, ContentsError>
    requires { length lengths.now ≡ length paths }
    ensures list { (names : List (List (List ℕ))) → paths ≡ with_indices names →
        IfOk result (λ list. list.files ≡ zip names lengths.now) }
    ensures accepted { OnOk result (lengths_fault lengths.now ≡ None) }
    ensures refused { IfErr result (λ refusal. (refusal ≡ ContentsError.Memory)
        ⊎ ((refusal ≡ ContentsError.List ListError.TooLarge) × (lengths_fault lengths.now ≡ Some ListError.TooLarge))) }
{
    match paths.with_lengths(alloc, lengths) {
        Ok((list, _)) => Ok(list),
        Err(fault) => Err(ContentsError::from(fault)),
    }
}

/// The letters of each file.
fn attrs_of(alloc: Global, files: &[(FilePath, Attr)]) -> Result<Vec<Attr>, AllocError>
    ensures { IfOk result (λ attrs. attrs.items ≡ map (λ file. file.1) files.now) }
{
    let mut attrs = Vec::with_capacity(alloc, files.len())?;
    for (_, attr) in files {
        attrs.push(*attr)?;
    }
    Ok(attrs)
}
