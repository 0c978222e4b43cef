//! What a torrent describes whose sides have no fault.
ghost use Rattle.std.specs.Prelude.{◌≡◌, [], true, None, IfOk, OnErr, codes, unwrap_or, if◌then◌else◌};
ghost use Rattle.tor_bencode.specs.Lawful.{HasRisingKeys, IsLawful};
ghost use Rattle.tor_bencode.specs.Span.{span_of};
ghost use Rattle.tor_bencode.specs.RefView.{view};
ghost use Rattle.tor_check.specs.steps.Judged.{IsHeadOf};
ghost use Rattle.tor_check.specs.steps.Sides.{AreSidesOf, first_of_both};
ghost use Rattle.tor_spec.specs.valid.Conditions.{refusal_of};
ghost use Rattle.tor_spec.specs.valid.Parts.{info_of, kind_of, part, text_of};
ghost use Rattle.tor_spec.specs.valid.ListSide.{side_piece_count};
ghost use Rattle.tor_spec.specs.valid.View.{files_of, tree_piece_count, view_of};
ghost use Rattle.tor_tree.specs.Kinds.{has_v1, has_v2};

use crate::head::CommonKeys;
use crate::layer_keys::layers_of;
use crate::parts::text;
use crate::sides::Sides;
use crate::torrent::{Torrent, ViewFile};
use crate::views::{entries_of, pieces_of_tree, take_letters, views_of_list, views_of_tree};
use std::alloc::{AllocError, Global};
use tor_bencode::ItemRef;

/// What the torrent describes.
pub fn torrent_of(
    alloc: Global,
    root: &ItemRef<'_>,
    head: &CommonKeys<'_, '_>,
    sides: Sides,
    info_span: (usize, usize),
) -> Result<Torrent, AllocError>
    requires lawful { IsLawful (view root.now) }
    requires head { IsHeadOf (view root.now) head.now }
    requires sides { AreSidesOf (info_of (view root.now)) sides }
    requires judged { first_of_both (info_of (view root.now)) ≡ None }
    requires accepted { refusal_of (view root.now) ≡ None }
    requires span { info_span ≡ unwrap_or (span_of (codes "info") (view root.now)) (0, 0) }
    ensures { IfOk result (λ torrent. torrent ≡ view_of (view root.now)) }
{
    let piece_count = piece_count(root, head, &sides);
    let entries = entries_of(alloc, &sides.list.files)?;
    let pieces = pieces_of(alloc, head)?;
    let files = files_of(alloc, root, head, sides)?;
    Ok(Torrent {
        kind: head.kind,
        name: head.name.copy(alloc)?,
        piece_length: head.piece_length,
        is_private: head.is_private,
        files,
        entries,
        pieces,
        info_span,
        piece_count,
    })
}

/// How many pieces it has: those of the files one by one, or of the joined list.
fn piece_count(root: &ItemRef<'_>, head: &CommonKeys<'_, '_>, sides: &Sides) -> u64
    requires head { IsHeadOf (view root.now) head.now }
    requires sides { AreSidesOf (info_of (view root.now)) sides.now }
    requires judged { first_of_both (info_of (view root.now)) ≡ None }
    ensures { result ≡ (if has_v2 (kind_of (info_of (view root.now))) then tree_piece_count (info_of (view root.now))
        else side_piece_count (info_of (view root.now))) }
{
    // The contract speaks of it alone.
    let _root = root;
    if head.kind.has_v2() {
        pieces_of_tree(head.piece_length, &sides.files)
    } else {
        sides.list.size.div_ceil(head.piece_length)
    }
}

/// The joined SHA-1 of each piece of the v1 side; no byte without that side.
fn pieces_of(alloc: Global, head: &CommonKeys<'_, '_>) -> Result<Vec<u8>, AllocError>
    requires { head.now.kind ≡ kind_of (view head.now.info.now) }
    ensures pieces { IfOk result (λ pieces. pieces.items ≡ (if has_v1 (kind_of (view head.now.info.now))
        then text_of (part (codes "pieces") (view head.now.info.now)) else [])) }
    ensures memory { OnErr result (has_v1 (kind_of (view head.now.info.now)) ≡ true) }
{
    if !head.kind.has_v1() {
        return Ok(Vec::new(alloc));
    }
    match text(head.info, b"pieces") {
        Some(pieces) => Vec::from_slice(alloc, pieces),
        None => Ok(Vec::new(alloc)),
    }
}

/// The files of the tree, with the letters of both sides, or, without a tree, those of the list.
fn files_of(
    alloc: Global,
    root: &ItemRef<'_>,
    head: &CommonKeys<'_, '_>,
    sides: Sides,
) -> Result<Vec<ViewFile>, AllocError>
    requires keys { HasRisingKeys (view root.now) }
    requires head { IsHeadOf (view root.now) head.now }
    requires sides { AreSidesOf (info_of (view root.now)) sides }
    ensures { IfOk result (λ files. files.items ≡ files_of (view root.now)) }
{
    if !head.kind.has_v2() {
        return views_of_list(alloc, sides.list.files);
    }
    let layers = layers_of(root, head.piece_length);
    let mut files = sides.files;
    take_letters(&mut files, &sides.list.files);
    views_of_tree(alloc, &layers, files)
}
