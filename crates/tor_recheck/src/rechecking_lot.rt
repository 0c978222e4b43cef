//! A torrent's pieces looked for by many machines: each looks for those of its own lot.
ghost use Rattle.std.specs.Prelude.{◌≡◌, ◌≢◌, ◌+◌, ◌++◌, ◌-◌, ◌<◌, ◌≤◌, ◌^◌, Err, IfErr, IfOk, MatchResult, None, OnOk};
ghost use Rattle.std.specs.Prelude.{drop, length, replicate, take};
ghost use Rattle.tor_recheck.specs.Lots.{IsOfLot, first_lot_fault, first_of_lot, in_lot, lot_byte};
ghost use Rattle.tor_view.specs.Pieces.{IsCut};
ghost use Rattle.tor_recheck.specs.Recheck.{IsFault, IsGiven};
ghost use Rattle.tor_recheck.specs.declared.errors.RecheckError.TheVariants.{Workers};
ghost use Rattle.tor_recheck.specs.steps.Hashes.{hashes_in_lot};
ghost use Rattle.tor_recheck.specs.steps.Judge.{all_judged};
ghost use Rattle.tor_source.specs.Source.{SourceFacts};
ghost use Rattle.tor_spec.specs.Verified.{verified_pieces};
ghost use Rattle.tor_sums.specs.Contents.{contents_in};
ghost use Rattle.tor_sums.specs.How.{IsHow};

use crate::errors::RecheckError;
use crate::own_files::{OwnFiles, own_files};
use crate::piece_bits::verified_bits;
use crate::rechecking::{SPAN, plan_of};
use std::alloc::{AllocError, Global};
use std::thread::Threads;
use tor_check::Torrent;
use tor_engine::{How, PieceHashes, find_pieces_between};
use tor_source::Source;
use tor_view::Bits;

/// Which of the pieces of one of so many lots are there and right, as [`recheck`](crate::recheck) tells of all. The
/// bytes of the bitfield are dealt, the first lots perhaps one more than the others, and a lot has the pieces of its
/// bytes: so the bitfields of all lots, one after another, are that of the torrent. Lots are counted from 0; one may
/// have no piece. Those files alone are asked and read that have bytes in these pieces.
pub fn recheck_lot<S: Source, R: Threads + Sync>(
    rt: &R,
    alloc: Global,
    source: &S,
    torrent: &Torrent,
    lots: u32,
    lot: u32,
    how: How,
) -> Result<Bits, RecheckError<S::Fault>>
    requires { lot < lots }
    ensures workers { (IsHow how → ⊥) → result ≡ Err Workers }
    ensures found { IsHow how → (facts : SourceFacts S.Fault) → S.is_steady source.now facts →
        MatchResult result
        (λ bits. (bits
        ≡ in_lot lots lot (verified_pieces torrent.now (contents_in facts (length torrent.now.files))))
        × (first_lot_fault facts torrent.now lots lot ≡ None))
        (IsFault (first_lot_fault facts torrent.now lots lot)) }
    ensures counted { IfOk result (λ bits. length bits
        ≡ first_of_lot torrent.now.piece_count lots (lot + 1) - first_of_lot torrent.now.piece_count lots lot) }
    ensures allowed { IsHow how → IfErr result (λ error. error ≢ Workers) }
    ensures of_lot { IfErr result (IsOfLot torrent.now lots lot) }
    ensures gave { IfErr result (IsGiven (S.answers source.now) (length torrent.now.files)) }
{
    if !how.is_allowed() {
        return Err(RecheckError::Workers);
    }
    let hashes = match hashes_in_lot(rt, alloc, source, torrent, lots, lot, how) {
        Ok(hashes) => hashes,
        Err(error) => return Err(error),
    };
    let (from, to) = range_of_lot(torrent, lots, lot);
    let bits = bits_by_hashes(alloc, torrent, hashes, from, to)?;
    Ok(bits)
}

/// Which of the pieces from one on, and before another, are there and right, by what they hash to.
fn bits_by_hashes(
    alloc: Global,
    torrent: &Torrent,
    hashes: PieceHashes,
    from: usize,
    to: usize,
) -> Result<Bits, AllocError>
    requires ordered { from ≤ to }
    requires within { to ≤ from + length hashes }
    ensures { IfOk result (λ own. own
        ≡ take (to - from) (drop from (all_judged torrent.now (replicate from None ++ hashes)))) }
{
    let all = PieceHashes::after(alloc, from, hashes)?;
    let bits = verified_bits(alloc, torrent, &all)?;
    bits_between(alloc, &bits, from, to)
}

/// What each piece of a lot hashes to: None if a byte of it is not there. Those files alone are asked and read that
/// have bytes in these pieces.
fn hashes_in_lot<S: Source, R: Threads + Sync>(
    rt: &R,
    alloc: Global,
    source: &S,
    torrent: &Torrent,
    lots: u32,
    lot: u32,
    how: How,
) -> Result<PieceHashes, RecheckError<S::Fault>>
    requires lot { lot < lots }
    requires how { IsHow how }
    ensures hashed { (facts : SourceFacts S.Fault) → S.is_steady source.now facts →
        MatchResult result
        (λ hashes. (hashes ≡ hashes_in_lot torrent.now lots lot (contents_in facts (length torrent.now.files)))
        × (first_lot_fault facts torrent.now lots lot ≡ None))
        (IsFault (first_lot_fault facts torrent.now lots lot)) }
    ensures counted { IfOk result (λ hashes. length hashes
        ≡ first_of_lot torrent.now.piece_count lots (lot + 1) - first_of_lot torrent.now.piece_count lots lot) }
    ensures cut { OnOk result (IsCut torrent.now) }
    ensures allowed { IfErr result (λ error. error ≢ Workers) }
    ensures of_lot { IfErr result (IsOfLot torrent.now lots lot) }
    ensures gave { IfErr result (IsGiven (S.answers source.now) (length torrent.now.files)) }
{
    let plan = plan_of(alloc, torrent, SPAN)?;
    let (from, to) = range_of_lot(torrent, lots, lot);
    let own = own_files(alloc, torrent, from, to)?;
    let some = OwnFiles { source, own: &own };
    match find_pieces_between(rt, alloc, &some, &plan, from, to, how) {
        Ok(found) => Ok(found.hashes),
        Err(error) => Err(error.into()),
    }
}

/// The first piece of a lot, and the first after it. Lots are counted from 0; one may have no piece.
pub fn pieces_of_lot(torrent: &Torrent, lots: u32, lot: u32) -> (u64, u64)
    requires { lot < lots }
    ensures first { result.0 ≡ first_of_lot torrent.now.piece_count lots lot }
    ensures after { result.1 ≡ first_of_lot torrent.now.piece_count lots (lot + 1) }
{
    let (first, after) = range_of_lot(torrent, lots, lot);
    (first as u64, after as u64)
}

/// The first piece of a lot, and the first after it.
fn range_of_lot(torrent: &Torrent, lots: u32, lot: u32) -> (usize, usize)
    requires { lot < lots }
    ensures first { result.0 ≡ first_of_lot torrent.now.piece_count lots lot }
    ensures after { result.1 ≡ first_of_lot torrent.now.piece_count lots (lot + 1) }
    ensures ordered { result.0 ≤ result.1 }
    ensures within { result.1 ≤ torrent.now.piece_count }
{
    let count = torrent.piece_count() as usize;
    let first = first_of_lot(count, lots, u64::from(lot));
    let after = first_of_lot(count, lots, u64::from(lot) + 1);
    (first, after)
}

/// The first of so many pieces that a lot has; past the last lot, how many there are.
fn first_of_lot(count: usize, lots: u32, lot: u64) -> usize
    requires some { 0 < lots }
    requires within { lot ≤ lots }
    ensures result { result ≡ first_of_lot count lots lot }
    ensures bound { result ≤ count }
{
    let byte = lot_byte(count.div_ceil(8) as u128, u128::from(lots), u128::from(lot));
    let first = 8 * byte;
    if first < count as u128 {
        first as usize
    } else {
        count
    }
}

/// The byte at which a lot begins.
fn lot_byte(bytes: u128, lots: u128, lot: u128) -> u128
    requires some { 0 < lots }
    requires within { lot ≤ lots }
    requires few { bytes < 2 ^ 64 }
    ensures byte { result ≡ lot_byte bytes lots lot }
    ensures bound { result ≤ bytes }
{
    lot * (bytes / lots) + lot.min(bytes % lots)
}

/// The bits from one piece on, and before another.
fn bits_between(alloc: Global, bits: &Bits, from: usize, to: usize) -> Result<Bits, AllocError>
    requires ordered { from ≤ to }
    requires within { to ≤ length bits.now }
    ensures { IfOk result (λ own. own ≡ take (to - from) (drop from bits.now)) }
{
    let mut own = Bits::with_capacity(alloc, (to - from) as u64)?;
    'pieces: for index in from..to {
        own.push(bits.get(index as u64) == Some(true))?;
    }
    Ok(own)
}
