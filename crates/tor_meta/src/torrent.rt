//! The one way from a head, a list of files and their sums to the bytes of a torrent.
ghost use Rattle.std.specs.Prelude.{◌≡◌, List, IfOk, IsSome, codes, option_map};
ghost use Rattle.tor_bencode.specs.Data.{string, dictionary};
ghost use Rattle.tor_bencode.specs.Find.{value_of};
ghost use Rattle.tor_bencode.specs.Spelling.{spelling};
ghost use Rattle.tor_bencode.specs.View.{view};
ghost use Rattle.tor_spec.specs.Hashes.{HasInfo};
ghost use Rattle.tor_meta.specs.Head.{settings_of};
ghost use Rattle.tor_meta.specs.steps.Sums.{AreFactsOf, HaveTrees, IsJudged};
ghost use Rattle.tor_spec.specs.Dictionary.{when};
ghost use Rattle.tor_spec.specs.Facts.{Facts};
ghost use Rattle.tor_spec.specs.Metainfo.{root_dictionary};
ghost use Rattle.tor_spec.specs.PieceLayers.{piece_layers};
ghost use Rattle.tor_tree.specs.Kinds.{has_v2};

use crate::fields::info::info;
use crate::fields::items::{dictionary, push_field, text};
use crate::fields::layers::piece_layers;
use crate::head::Head;
use std::alloc::{AllocError, Global};
use tor_bencode::{BenError, Item, Tree, encode};
use tor_engine::Sums;
use tor_spec::laws::torrents_are_lawful;
use tor_tree::FileList;

/// The bytes of the torrent of these files.
pub(crate) fn torrent_bytes(
    alloc: Global,
    head: &Head,
    list: &FileList,
    sums: &Sums,
) -> Result<Vec<u8>, AllocError>
    requires judged { IsJudged head.now list.now.files }
    requires trees { HaveTrees head.now list.now.files sums.now }
    ensures made { (facts : List Facts) → AreFactsOf head.now list.now sums.now facts → IfOk result (λ bytes.
        bytes.items ≡ spelling (root_dictionary (settings_of head.now) facts sums.now.pieces.items)) }
    ensures info { IfOk result (λ bytes. HasInfo bytes.items) }
{
    let tree = tree(alloc, head, list, sums)?;
    match encode(alloc, &tree) {
        Ok(bytes) => Ok(bytes),
        Err(BenError::Memory) => Err(AllocError),
        Err(BenError::Refused { .. }) => unreachable!(),
    }
}

/// Its root dictionary.
fn tree(alloc: Global, head: &Head, list: &FileList, sums: &Sums) -> Result<Tree, AllocError>
    requires judged { IsJudged head.now list.now.files }
    requires trees { HaveTrees head.now list.now.files sums.now }
    ensures made { (facts : List Facts) → AreFactsOf head.now list.now sums.now facts → IfOk result (λ tree.
        view tree ≡ root_dictionary (settings_of head.now) facts sums.now.pieces.items) }
    ensures info { IfOk result (λ tree. IsSome (value_of (codes "info") (view tree))) }
{
    torrents_are_lawful();
    // Called for its clause `one_each`, which tells the prover that the list has as many letters as files.
    let _attrs = list.attrs();
    let root = root(alloc, head, list, sums)?;
    match Tree::of(root) {
        Ok(tree) => Ok(tree),
        Err(_) => unreachable!(),
    }
}

/// The root dictionary of the torrent as an item.
fn root(alloc: Global, head: &Head, list: &FileList, sums: &Sums) -> Result<Item, AllocError>
    requires judged { IsJudged head.now list.now.files }
    requires trees { HaveTrees head.now list.now.files sums.now }
    ensures { (facts : List Facts) → AreFactsOf head.now list.now sums.now facts → IfOk result (λ item.
        view item ≡ root_dictionary (settings_of head.now) facts sums.now.pieces.items) }
{
    let mut pairs = Vec::new(alloc);
    push_field(alloc, &mut pairs, "announce", announce(alloc, head)?)?;
    let info = info(alloc, head, list, sums)?;
    push_field(alloc, &mut pairs, "info", Some(info))?;
    push_field(
        alloc,
        &mut pairs,
        "piece layers",
        layers(alloc, head, list, sums)?,
    )?;
    Ok(dictionary(pairs))
}

/// The tracker's URL, if there is one.
fn announce(alloc: Global, head: &Head) -> Result<Option<Item>, AllocError>
    ensures { IfOk result (λ item. option_map view item ≡ option_map string (settings_of head.now).announce) }
{
    match &head.announce {
        Some(url) => Ok(Some(text(alloc, url)?)),
        None => Ok(None),
    }
}

/// The piece layers, if the head asks for them.
fn layers(
    alloc: Global,
    head: &Head,
    list: &FileList,
    sums: &Sums,
) -> Result<Option<Item>, AllocError>
    requires judged { IsJudged head.now list.now.files }
    requires trees { HaveTrees head.now list.now.files sums.now }
    ensures { (facts : List Facts) → AreFactsOf head.now list.now sums.now facts → IfOk result (λ item.
        option_map view item ≡ when (has_v2 head.now.kind) (dictionary (piece_layers head.now.piece_length facts))) }
{
    if !head.kind.has_v2() {
        return Ok(None);
    }
    let files = list.files();
    let layers = piece_layers(alloc, head.piece_length, files, &sums.roots, &sums.layers)?;
    Ok(Some(layers))
}
