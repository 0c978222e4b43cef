//! Why bytes are no torrent, and where.
ghost use Rattle.std.specs.Prelude.{◌<◌, ◌≡◌, false, true, IfOk, length, string_bytes};
ghost use Rattle.tor_bencode.specs.Lawful.{IsLawful};
ghost use Rattle.tor_bencode.specs.RefView.{view};
ghost use Rattle.tor_explain.specs.Plain.{IsPlainText};

use crate::bencode::tell_fault;
use crate::clashes::{tell_nested, tell_same};
use crate::codes::words_of_refusal;
use crate::head::{
    has_v1, has_v2, tell_info, tell_length_and_files, tell_meta_version, tell_own_name,
    tell_piece_length, tell_root,
};
use crate::layers::{Lack, tell_layer, tell_no_layers};
use crate::line::Line;
use crate::list::{tell_list, tell_no_entry};
use crate::properties::Question;
use crate::sides::{tell_alignment, tell_differing, tell_letters};
use crate::sums::{tell_large, tell_pieces};
use crate::tree::tell_tree;
use std::alloc::{AllocError, Global};
use tor_bencode::{BenError, ItemRef, decode_ref};
use tor_check::Refusal;

/// Where in the bytes, which `validate` refuses so, the fault is, in the torrent's own words. If there is no such place
/// in them, what the refusal means.
pub fn refusal_text(alloc: Global, torrent: &[u8], refusal: &Refusal) -> Result<String, AllocError>
    ensures plain { IfOk result (λ text. IsPlainText (string_bytes text)) }
    ensures some { IfOk result (λ text. 0 < length (string_bytes text)) }
{
    let mut line = Line::new();
    if !tell(alloc, &mut line, torrent, refusal)? {
        line.say(words_of_refusal(refusal));
    }
    line.into_text(alloc)
}

fn tell(
    alloc: Global,
    line: &mut Line,
    torrent: &[u8],
    refusal: &Refusal,
) -> Result<bool, AllocError>
    ensures nothing { result ≡ Ok false → line.new ≡ line.old }
    ensures told { result ≡ Ok true → 0 < length line.new }
{
    match refusal {
        Refusal::Bencode { fault, offset } => {
            tell_fault(line, torrent, *fault, *offset);
            return Ok(true);
        }
        Refusal::Memory => return Ok(false),
        _ => {}
    }
    match decode_ref(alloc, torrent) {
        Ok(root) => tell_of_root(alloc, line, &root, refusal),
        Err(BenError::Memory) => Err(AllocError),
        Err(_) => Ok(false),
    }
}

fn tell_of_root(
    alloc: Global,
    line: &mut Line,
    root: &ItemRef<'_>,
    refusal: &Refusal,
) -> Result<bool, AllocError>
    requires { IsLawful (view root.now) }
    ensures nothing { result ≡ Ok false → line.new ≡ line.old }
    ensures told { result ≡ Ok true → 0 < length line.new }
{
    let Some(info) = root.get(b"info") else {
        return match refusal {
            Refusal::RootShape => Ok(tell_root(line, root)),
            _ => Ok(tell_info(line, root)),
        };
    };
    match refusal {
        Refusal::RootShape => Ok(tell_root(line, root)),
        Refusal::InfoShape => Ok(tell_info(line, root)),
        Refusal::LayersAbsent => tell_no_layers(alloc, line, root, info),
        Refusal::LayerAbsent => tell_layer(alloc, line, Lack::Absent, root, info),
        Refusal::LayerLength => tell_layer(alloc, line, Lack::Length, root, info),
        Refusal::LayerRoot => tell_layer(alloc, line, Lack::Root, root, info),
        _ => tell_of_info(alloc, line, info, refusal),
    }
}

fn tell_of_info(
    alloc: Global,
    line: &mut Line,
    info: &ItemRef<'_>,
    refusal: &Refusal,
) -> Result<bool, AllocError>
    ensures nothing { result ≡ Ok false → line.new ≡ line.old }
    ensures told { result ≡ Ok true → 0 < length line.new }
{
    match refusal {
        Refusal::MetaVersion => Ok(tell_meta_version(line, info)),
        Refusal::PieceLength => Ok(tell_piece_length(line, info)),
        Refusal::Name => tell_own_name(alloc, line, info),
        Refusal::LengthAndFiles => Ok(tell_length_and_files(line, info)),
        Refusal::FileShape => tell_file(alloc, line, Question::Shape, info),
        Refusal::FileLength => tell_file(alloc, line, Question::Length, info),
        Refusal::Duplicate => tell_same(alloc, line, info),
        Refusal::FileAndFolder => tell_nested(alloc, line, info),
        Refusal::NoFiles => Ok(tell_no_file(line, info)),
        Refusal::TooLarge => tell_too_large(alloc, line, info),
        Refusal::Symlink => tell_file(alloc, line, Question::Symlink, info),
        Refusal::PiecesLength => Ok(tell_pieces(line, info)),
        Refusal::MixedNode => tell_tree(alloc, line, Question::Mixed, info),
        Refusal::RootHash => tell_tree(alloc, line, Question::Root, info),
        Refusal::FilesDiffer => tell_differing(alloc, line, info),
        Refusal::Alignment => Ok(tell_alignment(line, info)),
        Refusal::AttrDiffer => tell_letters(alloc, line, info),
        _ => Ok(false),
    }
}

// Tells the first file of either side of which the question holds.
fn tell_file(
    alloc: Global,
    line: &mut Line,
    question: Question,
    info: &ItemRef<'_>,
) -> Result<bool, AllocError>
    ensures nothing { result ≡ Ok false → line.new ≡ line.old }
    ensures told { result ≡ Ok true → 0 < length line.new }
{
    if has_v1(info) && tell_list(alloc, line, question, info)? {
        return Ok(true);
    }
    if !has_v2(info) {
        return Ok(false);
    }
    tell_tree(alloc, line, question, info)
}

fn tell_no_file(line: &mut Line, info: &ItemRef<'_>) -> bool
    ensures nothing { result ≡ false → line.new ≡ line.old }
    ensures told { result ≡ true → 0 < length line.new }
{
    if has_v1(info) && tell_no_entry(line, info) {
        return true;
    }
    line.say("file tree: no file, where one at least has to be");
    true
}

fn tell_too_large(alloc: Global, line: &mut Line, info: &ItemRef<'_>) -> Result<bool, AllocError>
    ensures nothing { result ≡ Ok false → line.new ≡ line.old }
    ensures told { result ≡ Ok true → 0 < length line.new }
{
    if tell_file(alloc, line, Question::TooLarge, info)? {
        return Ok(true);
    }
    Ok(tell_large(line))
}
