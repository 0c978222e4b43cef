//! The info dictionary (BEP 3, BEP 52, "info dictionary").
ghost use Rattle.std.specs.Prelude.{◌≡◌, ◌<◌, ◌≤◌, ◌^◌, ◌&&◌, ◌++◌, not, true, All, List, ℕ, IfOk, OnOk, None, pos};
ghost use Rattle.std.specs.Prelude.{Option, option_map};
ghost use Rattle.std.specs.Prelude.{length};
ghost use Rattle.std.specs.Prelude.{if◌then◌else◌};
ghost use Rattle.tor_bencode.specs.Data.{Data, string, integer};
ghost use Rattle.tor_bencode.specs.View.{pairs_view, view};
ghost use Rattle.tor_merkle.specs.Layer.{IsPieceLength};
ghost use Rattle.tor_meta.specs.Head.{settings_of};
ghost use Rattle.tor_meta.specs.steps.Fields.{file_fields, head_fields};
ghost use Rattle.tor_meta.specs.steps.Sums.{AreFactsOf, HaveTrees, IsJudged};
ghost use Rattle.tor_spec.specs.Dictionary.{present, when};
ghost use Rattle.tor_spec.specs.Facts.{Facts, attrs_in, listed};
ghost use Rattle.tor_spec.specs.FilesList.{files_list};
ghost use Rattle.tor_spec.specs.InfoDictionary.{info_dictionary, single_letters, total_size};
ghost use Rattle.tor_spec.specs.Settings.{layout_of};
ghost use Rattle.tor_tree.specs.Kinds.{has_v1, has_v2};
ghost use Rattle.tor_tree.specs.WrittenTree.{file_tree};
ghost use Rattle.tor_v1.specs.Entries.{v1_entries, with_letters};
ghost use Rattle.tor_v1.specs.Reserved.{takes_reserved};

use crate::fields::entries::entries;
use crate::fields::items::{dictionary, files, letters, number, push_field, text};
use crate::head::Head;
use std::alloc::{AllocError, Global};
use tor_bencode::Item;
use tor_engine::Sums;
use tor_merkle::laws::piece_length_bounds;
use tor_tree::{FileList, FilePath, to_item};

/// The info dictionary of these files.
pub(crate) fn info(
    alloc: Global,
    head: &Head,
    list: &FileList,
    sums: &Sums,
) -> Result<Item, AllocError>
    requires judged { IsJudged head.now list.now.files }
    requires trees { HaveTrees head.now list.now.files sums.now }
    ensures { (facts : List Facts) → AreFactsOf head.now list.now sums.now facts → IfOk result (λ item.
        view item ≡ info_dictionary (settings_of head.now) facts sums.now.pieces.items) }
{
    let mut pairs = Vec::new(alloc);
    push_of_files(alloc, &mut pairs, head, list, sums)?;
    push_of_head(alloc, &mut pairs, head, sums)?;
    Ok(dictionary(pairs))
}

/// The fields that tell of the files, up to `length`.
fn push_of_files(
    alloc: Global,
    pairs: &mut Vec<(Vec<u8>, Item)>,
    head: &Head,
    list: &FileList,
    sums: &Sums,
) -> Result<(), AllocError>
    requires judged { IsJudged head.now list.now.files }
    requires trees { HaveTrees head.now list.now.files sums.now }
    ensures { (facts : List Facts) → AreFactsOf head.now list.now sums.now facts →
        (fields : List (List ℕ × Option Data)) → pairs_view pairs.old.items ≡ present fields →
        OnOk result (pairs_view pairs.new.items ≡ present (fields ++ file_fields (settings_of head.now) facts)) }
{
    push_field(alloc, pairs, "attr", only_attr(alloc, head, list)?)?;
    push_field(alloc, pairs, "file tree", tree(alloc, head, list, sums)?)?;
    push_field(alloc, pairs, "files", entry_list(alloc, head, list)?)?;
    let length = only_length(head, list.files());
    push_field(alloc, pairs, "length", length)
}

/// The fields after those.
fn push_of_head(
    alloc: Global,
    pairs: &mut Vec<(Vec<u8>, Item)>,
    head: &Head,
    sums: &Sums,
) -> Result<(), AllocError>
    requires { IsPieceLength head.now.piece_length }
    ensures { (fields : List (List ℕ × Option Data)) → pairs_view pairs.old.items ≡ present fields →
        OnOk result (pairs_view pairs.new.items
        ≡ present (fields ++ head_fields (settings_of head.now) sums.now.pieces.items)) }
{
    piece_length_bounds();
    let version = number_if(head.kind.has_v2(), 2);
    push_field(alloc, pairs, "meta version", version)?;
    let name = text(alloc, head.name.as_bytes())?;
    push_field(alloc, pairs, "name", Some(name))?;
    push_field(
        alloc,
        pairs,
        "piece length",
        Some(number(head.piece_length)),
    )?;
    let pieces = pieces(alloc, head, &sums.pieces)?;
    push_field(alloc, pairs, "pieces", pieces)?;
    let private = number_if(head.is_private, 1);
    push_field(alloc, pairs, "private", private)
}

/// The file tree of BEP 52.
fn tree(
    alloc: Global,
    head: &Head,
    list: &FileList,
    sums: &Sums,
) -> Result<Option<Item>, AllocError>
    requires { HaveTrees head.now list.now.files sums.now }
    ensures { IfOk result (λ item.
        option_map view item ≡ when (has_v2 head.now.kind) (file_tree list.now.files list.now.attrs
        sums.now.roots.items)) }
{
    if !head.kind.has_v2() {
        return Ok(None);
    }
    Ok(Some(to_item(alloc, list, &sums.roots)?))
}

/// The `files` of BEP 3, if there may be more than one.
fn entry_list(alloc: Global, head: &Head, list: &FileList) -> Result<Option<Item>, AllocError>
    requires { IsJudged head.now list.now.files }
    ensures { IfOk result (λ item. option_map view item ≡ when (has_v1 head.now.kind && not head.now.single)
        (files_list (with_letters list.now.attrs
        (v1_entries (layout_of (settings_of head.now)) head.now.piece_length list.now.files)))) }
{
    if !head.kind.has_v1() || head.single {
        return Ok(None);
    }
    let entries = entries(alloc, head, list)?;
    Ok(Some(files(alloc, &entries)?))
}

/// The `attr` beside the `length` of a single file (BEP 47), if it has letters.
fn only_attr(alloc: Global, head: &Head, list: &FileList) -> Result<Option<Item>, AllocError>
    requires one { head.now.single ≡ true → length list.now.files ≡ 1 }
    ensures { (facts : List Facts) → attrs_in facts ≡ list.now.attrs → IfOk result (λ item.
        option_map view item ≡ (if has_v1 head.now.kind && head.now.single
        then option_map string (single_letters facts) else None)) }
{
    if !head.kind.has_v1() || !head.single {
        return Ok(None);
    }
    letters(alloc, list.attr(0))
}

/// The `length` of BEP 3, of a single file.
fn only_length(head: &Head, files: &[(FilePath, u64)]) -> Option<Item>
    requires one { head.now.single ≡ true → length files.now ≡ 1 }
    requires small { All (λ file. file.1 < 2 ^ 63) files.now }
    ensures { (facts : List Facts) → listed facts ≡ files.now →
        option_map view result ≡ when (has_v1 head.now.kind && head.now.single) (integer (pos (total_size facts))) }
{
    if !head.kind.has_v1() || !head.single {
        return None;
    }
    let [(_, length)] = files else {
        unreachable!();
    };
    Some(number(*length))
}

/// The joined SHA-1 of BEP 3.
fn pieces(alloc: Global, head: &Head, pieces: &[u8]) -> Result<Option<Item>, AllocError>
    ensures { IfOk result (λ item. option_map view item ≡ when (has_v1 head.now.kind) (string pieces.now)) }
{
    if !head.kind.has_v1() {
        return Ok(None);
    }
    Ok(Some(text(alloc, pieces)?))
}

/// A number if the key is to be there.
fn number_if(there: bool, n: u64) -> Option<Item>
    requires { n < 2 ^ 63 }
    ensures { option_map view result ≡ when there (integer (pos n)) }
{
    there.then_some(number(n))
}
