//! The hashes of pieces judged by those of a torrent.
ghost use Rattle.std.specs.Prelude.{◌≡◌, [], IfOk, unwrap_or};
ghost use Rattle.std.specs.Str.{bytes_eq};
ghost use Rattle.tor_recheck.specs.steps.Judge.{all_judged, all_merkle_judged, is_found, is_merkle_found};
ghost use Rattle.tor_recheck.specs.steps.Judge.{is_told};

use crate::merkle_hashes::ToldHashes;
use std::alloc::{AllocError, Global};
use tor_check::Torrent;
use tor_engine::{PieceHash, PieceHashes};
use tor_merkle::Hash;
use tor_view::Bits;

/// The length of a SHA-1.
const SUM_LENGTH: usize = 20;

/// For each piece whether it is there, and has what each side of the torrent has for it.
pub(crate) fn verified_bits(
    alloc: Global,
    torrent: &Torrent,
    hashes: &PieceHashes,
) -> Result<Bits, AllocError>
    ensures { IfOk result (λ bits. bits ≡ all_judged torrent.now hashes.now) }
{
    let mut bits = Bits::with_capacity(alloc, torrent.piece_count())?;
    let mut told = ToldHashes::of(torrent);
    let mut sums = torrent.pieces();
    let mut left = hashes.each();
    'judging: while let Some(hash) = left.next() {
        let (sum, later) = sums.split_at(sums.len().min(SUM_LENGTH));
        bits.push(is_found(&hash, sum, told.next()))?;
        sums = later;
    }
    Ok(bits)
}

/// For each piece whether it is there, and has its Merkle hash.
pub(crate) fn merkle_verified_bits(
    alloc: Global,
    torrent: &Torrent,
    hashes: &PieceHashes,
) -> Result<Bits, AllocError>
    ensures { IfOk result (λ held. held ≡ all_merkle_judged torrent.now hashes.now) }
{
    let mut held = Bits::with_capacity(alloc, torrent.piece_count())?;
    let mut told = ToldHashes::of(torrent);
    let mut left = hashes.each();
    'judging: while let Some(hash) = left.next() {
        held.push(is_merkle_found(&hash, told.next()))?;
    }
    Ok(held)
}

/// Whether a piece is there, and has this Merkle hash if it has any.
fn is_merkle_found(hash: &Option<PieceHash>, root: Option<Hash>) -> bool
    ensures { result ≡ is_merkle_found hash.now (unwrap_or root []) }
{
    match hash {
        Some(hash) => is_root(&hash.v2, root),
        None => false,
    }
}

/// Whether a piece is there, and has these hashes if it has any.
fn is_found(hash: &Option<PieceHash>, sum: &[u8], root: Option<Hash>) -> bool
    ensures { result ≡ is_found hash.now sum.now (unwrap_or root []) }
{
    match hash {
        Some(hash) => is_sum(&hash.v1, sum) && is_root(&hash.v2, root),
        None => false,
    }
}

/// Whether a SHA-1, if there is one, is this.
fn is_sum(sum: &Option<[u8; 20]>, told: &[u8]) -> bool
    ensures { result ≡ is_told sum.now told.now }
{
    match sum {
        Some(sum) => sum.as_slice() == told,
        None => true,
    }
}

/// Whether a Merkle hash, if there is one, is this.
fn is_root(hash: &Option<Hash>, told: Option<Hash>) -> bool
    ensures { result ≡ is_told hash.now (unwrap_or told []) }
{
    match hash {
        Some(hash) => is_hash(hash, told),
        None => true,
    }
}

/// Whether this is the hash that was told, if any was.
fn is_hash(hash: &Hash, told: Option<Hash>) -> bool
    ensures { result ≡ bytes_eq hash.now (unwrap_or told []) }
{
    match told {
        Some(told) => *hash == told,
        None => false,
    }
}
