//! The torrent of files whose contents lie in memory.
ghost use Rattle.std.specs.Prelude.{◌≡◌, ◌⊎◌, ◌<◌, All, List, Some, None, IfOk, IfErr, OnOk, length, map, true};
ghost use Rattle.tor_meta.specs.Contents.{files_in, IsMadeOf};
ghost use Rattle.tor_meta.specs.steps.Contents.{bytes_of, contents_at, files_of};
ghost use Rattle.tor_spec.specs.Hashes.{HasInfo};
ghost use Rattle.tor_meta.specs.Head.{settings_of};
ghost use Rattle.tor_sums.specs.Sums.{lists_of};
ghost use Rattle.tor_meta.specs.Refusal.{contents_refusal};
ghost use Rattle.tor_meta.specs.steps.Sums.{IsJudged, SumUp};
ghost use Rattle.tor_spec.specs.Metainfo.{metainfo};
ghost use Rattle.tor_tree.specs.FileList.{lengths_of};

use crate::before_lengths::judge_paths;
use crate::fields::entries::entries_to_hash;
use crate::head::Head;
use crate::refusals::ContentsError;
use crate::sums::{no_sums, sum_pieces, sum_trees};
use crate::torrent::torrent_bytes;
use std::alloc::{AllocError, Global};
use tor_engine::Sums;
use tor_tree::laws::files_are_small;
use tor_tree::{FileList, FilePath};

/// The bytes of the torrent of these files, which are put into the order of their paths. It starts no thread.
pub fn make_contents(
    alloc: Global,
    files: Vec<(FilePath, Vec<u8>)>,
    head: &Head,
) -> Result<Vec<u8>, ContentsError>
    ensures made { IfOk result (λ bytes. IsMadeOf (settings_of head.now) (files_in files.items) bytes.items) }
    ensures info { IfOk result (λ bytes. HasInfo bytes.items) }
    ensures accepted { OnOk result (contents_refusal (settings_of head.now) (files_in files.items) ≡ None) }
    ensures refused { IfErr result (λ refusal.
        (contents_refusal (settings_of head.now) (files_in files.items) ≡ Some refusal)
        ⊎ (refusal ≡ ContentsError.Memory)) }
{
    let (paths, contents) = split(alloc, files)?;
    let paths = match judge_paths(alloc, head, paths) {
        Ok(paths) => paths,
        Err(refusal) => return Err(refusal),
    };
    let lengths = lengths(alloc, &contents)?;
    let (list, indices) = match paths.with_lengths(alloc, &lengths) {
        Ok(both) => both,
        Err(fault) => return Err(ContentsError::from(fault)),
    };
    let ordered = in_order(alloc, &contents, &indices)?;
    let bytes = torrent_of_contents(alloc, head, &list, &ordered)?;
    Ok(bytes)
}

/// The paths, and the contents.
fn split(
    alloc: Global,
    files: Vec<(FilePath, Vec<u8>)>,
) -> Result<(Vec<FilePath>, Vec<Vec<u8>>), AllocError>
    ensures paths { IfOk result (λ both. both.0.items ≡ map (λ file. file.0) files.items) }
    ensures contents { IfOk result (λ both. both.1.items ≡ map (λ file. file.1) files.items) }
{
    let mut paths = Vec::with_capacity(alloc, files.len())?;
    let mut contents = Vec::with_capacity(alloc, files.len())?;
    for (path, content) in files {
        paths.push(path)?;
        contents.push(content)?;
    }
    Ok((paths, contents))
}

/// How many bytes each content has.
fn lengths(alloc: Global, contents: &[Vec<u8>]) -> Result<Vec<u64>, AllocError>
    ensures { IfOk result (λ lengths. lengths.items ≡ map (λ content. length content.items) contents.now) }
{
    let mut lengths = Vec::with_capacity(alloc, contents.len())?;
    for content in contents {
        lengths.push(content.len() as u64)?;
    }
    Ok(lengths)
}

/// The contents at these indices.
fn in_order<'a>(
    alloc: Global,
    contents: &'a [Vec<u8>],
    indices: &[usize],
) -> Result<Vec<&'a [u8]>, AllocError>
    requires { All (λ index. index < length contents.now) indices.now }
    ensures { IfOk result (λ ordered. bytes_of ordered.items ≡ contents_at contents.entry.now indices.now) }
{
    let mut ordered = Vec::with_capacity(alloc, indices.len())?;
    for index in indices {
        ordered.push(contents[*index].as_slice())?;
    }
    Ok(ordered)
}

/// The torrent of a list of files with their contents.
fn torrent_of_contents(
    alloc: Global,
    head: &Head,
    list: &FileList,
    contents: &[&[u8]],
) -> Result<Vec<u8>, AllocError>
    requires judged { IsJudged head.now list.now.files }
    requires contents { map length (bytes_of contents.now) ≡ lengths_of list.now.files }
    ensures made { IfOk result (λ bytes.
        bytes.items ≡ metainfo (settings_of head.now) (files_of list.now (bytes_of contents.entry.now))) }
    ensures info { IfOk result (λ bytes. HasInfo bytes.items) }
{
    // Called for its clause `one_each`, which tells the prover that the list has as many letters as files.
    let _attrs = list.attrs();
    let sums = sums_of(alloc, head, list, contents)?;
    let bytes = torrent_bytes(alloc, head, list, &sums)?;
    Ok(bytes)
}

/// What the contents sum up to, as far as the head asks for it.
fn sums_of(
    alloc: Global,
    head: &Head,
    list: &FileList,
    contents: &[&[u8]],
) -> Result<Sums, AllocError>
    requires judged { IsJudged head.now list.now.files }
    requires contents { map length (bytes_of contents.now) ≡ lengths_of list.now.files }
    ensures { IfOk result (SumUp head.now list.now.files (bytes_of contents.entry.now)) }
{
    files_are_small();
    let mut sums = no_sums(alloc);
    sums.lengths = list.files().iter().map(|file| file.1).collect(alloc)?;
    if head.kind.has_v2() {
        let trees = sum_trees(alloc, head.piece_length, contents)?;
        sums.roots = trees.0;
        sums.layers = trees.1;
    }
    if head.kind.has_v1() {
        let entries = entries_to_hash(alloc, head, list)?;
        sums.pieces = sum_pieces(alloc, head.piece_length, &entries, contents)?;
    }
    Ok(sums)
}
