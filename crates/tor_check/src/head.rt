//! The root of a torrent, and the keys of `info` that all kinds have.
ghost use Rattle.std.specs.Prelude.{◌≡◌, ◌⊎◌, ◌<◌, true, false, None, Err, IfErr, IfOk, IfSome, MatchOption, OnOk};
ghost use Rattle.tor_bencode.specs.RefView.{view};
ghost use Rattle.tor_check.specs.steps.Judged.{IsFirst, IsHeadOf, conditions_before_memory, head_conditions, first_in};
ghost use Rattle.tor_spec.specs.valid.Heads.{info_shape, length_and_files, meta_version, name, piece_length};
ghost use Rattle.tor_spec.specs.valid.Parts.{info_of, is_private, kind_of, name_of, piece_length_of};
ghost use Rattle.tor_check.specs.declared.refusal.Refusal.TheVariants as refusals;

use crate::parts::{integer, is_dictionary, is_number, is_there, text};
use crate::refusal::Refusal;
use std::alloc::Global;
use tor_bencode::ItemRef;
use tor_merkle::{MAX_PIECE_LENGTH, is_piece_length};
use tor_tree::{Kind, Name, NameError};

/// What the keys say that all kinds have.
#[derive(Drop)]
pub struct CommonKeys<'t, 'a> {
    pub info: &'t ItemRef<'a>,
    pub kind: Kind,
    pub name: Name,
    /// In bytes.
    pub piece_length: u64,
    pub is_private: bool,
}

/// The keys that all kinds have (a `Head` is what `tor_meta` makes a torrent by); or the first of V2 to V7.
pub fn read_head<'t, 'a>(
    alloc: Global,
    root: &'t ItemRef<'a>,
) -> Result<CommonKeys<'t, 'a>, Refusal>
    ensures read { IfOk result (IsHeadOf (view root.now)) }
    ensures accepted { OnOk result (first_in head_conditions (view root.now) ≡ None) }
    ensures refused { IfErr result (IsFirst (first_in head_conditions (view root.now))) }
    ensures memory { result ≡ Err refusals.Memory → first_in conditions_before_memory (view root.now) ≡ None }
{
    if !is_dictionary(root) {
        return Err(Refusal::RootShape);
    }
    let Some(info) = info_of(root) else {
        return Err(Refusal::InfoShape);
    };
    if has_other_version(info) {
        return Err(Refusal::MetaVersion);
    }
    let kind = kind_of(info);
    let Some(piece_length) = piece_length_of(info, kind) else {
        return Err(Refusal::PieceLength);
    };
    let name = name_of(alloc, info)?;
    if kind.has_v1() && is_there(info, b"length") == is_there(info, b"files") {
        return Err(Refusal::LengthAndFiles);
    }
    Ok(CommonKeys {
        info,
        kind,
        name,
        piece_length,
        is_private: is_number(info, b"private", 1),
    })
}

/// The dictionary `info`.
fn info_of<'t, 'a>(root: &'t ItemRef<'a>) -> Option<&'t ItemRef<'a>>
    ensures { MatchOption result (info_shape (view root.now) ≡ true)
        (λ info. (info_shape (view root.now) ≡ false) × (view info.now ≡ info_of (view root.now))) }
{
    match root.get(b"info") {
        Some(info) if is_dictionary(info) => Some(info),
        _ => None,
    }
}

/// Whether `meta version` is there and is not 2.
fn has_other_version(info: &ItemRef<'_>) -> bool
    ensures { result ≡ meta_version (view info.now) }
{
    is_there(info, b"meta version") && !is_number(info, b"meta version", 2)
}

/// Which sides the torrent has.
fn kind_of(info: &ItemRef<'_>) -> Kind
    ensures { result ≡ kind_of (view info.now) }
{
    if !is_there(info, b"meta version") {
        return Kind::V1;
    }
    if is_there(info, b"pieces") {
        Kind::Hybrid
    } else {
        Kind::V2
    }
}

/// The piece length, if a torrent of the kind can have it.
fn piece_length_of(info: &ItemRef<'_>, kind: Kind) -> Option<u64>
    requires { kind ≡ kind_of (view info.now) }
    ensures { MatchOption result (piece_length (view info.now) ≡ true)
        (λ n. (piece_length (view info.now) ≡ false) × (n ≡ piece_length_of (view info.now)) × (0 < n)) }
{
    let n = u64::try_from(integer(info, b"piece length")?).ok()?;
    if !(1..=MAX_PIECE_LENGTH).contains(&n) || kind.has_v2() && !is_piece_length(n) {
        return None;
    }
    Some(n)
}

/// The name that the torrent suggests.
fn name_of(alloc: Global, info: &ItemRef<'_>) -> Result<Name, Refusal>
    ensures made { IfOk result (λ text. (name (view info.now) ≡ false) × (text ≡ name_of (view info.now))) }
    ensures refused { IfErr result
        (λ refusal. ((refusal ≡ refusals.Memory) × (name (view info.now) ≡ false))
        ⊎ ((refusal ≡ refusals.Name) × (name (view info.now) ≡ true))) }
{
    let Some(text) = text(info, b"name") else {
        return Err(Refusal::Name);
    };
    match Name::new(alloc, text) {
        Ok(name) => Ok(name),
        Err(NameError::Memory) => Err(Refusal::Memory),
        Err(_) => Err(Refusal::Name),
    }
}
