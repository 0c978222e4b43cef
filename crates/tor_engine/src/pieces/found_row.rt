//! What is found of pieces that stand one after another.
ghost use Rattle.std.specs.Prelude.{◌≡◌, ◌≤◌, IfOk, drop, length, replicate, slice_index_or, sum_by};
ghost use Rattle.std.specs.List.{list_all};
ghost use Rattle.tor_sums.specs.steps.Owing.{paid_each};
ghost use Rattle.tor_engine.specs.declared.pieces.piece_hash.FoundPiece.TheVariants.{Missing};
ghost use Rattle.tor_engine.specs.steps.FoundRow.{is_missing};
ghost use Rattle.tor_engine.specs.steps.Pieces.{hashes_in, owed_to_piece, paid_piece};

use crate::pieces::piece_hash::{FoundPiece, PieceHash};
use std::alloc::{AllocError, Global};
use std::marker::Model;
use tor_sums::pay;

/// What is found of pieces, one after another. Contracts see the list.
#[derive(Drop)]
pub(crate) struct FoundRow {
    row: Row,
}

/// If none is there, only their number is held: a torrent of half a megabyte may claim millions. For the same reason
/// what is known of each stands behind a box, so that a row is two words long.
#[derive(Drop)]
pub(crate) enum Row {
    /// So many, all of them missing.
    AllMissing(usize),
    /// Each by itself.
    Each(Box<Vec<FoundPiece>>),
}

impl Model for FoundRow {
    ghost use Rattle.std.specs.Prelude.{List};
    ghost use Rattle.tor_engine.specs.declared.pieces.piece_hash.FoundPiece.{FoundPiece};
    ghost use Rattle.tor_engine.specs.steps.FoundRow.{found_in};

    ghost Value = { List FoundPiece };

    ghost view = { λ found. found_in found.row };
}

impl FoundRow {
    /// What was found of these.
    pub(crate) fn of(alloc: Global, found: Vec<FoundPiece>) -> Result<FoundRow, AllocError>
        ensures { IfOk result (λ row. row ≡ found.items) }
    {
        if are_missing(&found) {
            return Ok(FoundRow::missing(found.len()));
        }
        let each = Box::new(alloc, found)?;
        Ok(FoundRow {
            row: Row::Each(each),
        })
    }

    /// So many pieces, none of which is there.
    pub(crate) fn missing(count: usize) -> FoundRow
        ensures { result ≡ replicate count Missing }
    {
        FoundRow {
            row: Row::AllMissing(count),
        }
    }

    /// How many they are.
    pub(crate) fn count(&self) -> usize
        ensures { result ≡ length self.now }
    {
        match &self.row {
            Row::AllMissing(count) => *count,
            Row::Each(found) => found.len(),
        }
    }

    /// The hashes of a piece; none if it is not there, or there is no such piece.
    pub(crate) fn hashes(&self, piece: usize) -> Option<PieceHash>
        ensures { result ≡ hashes_in (slice_index_or self.now piece Missing) }
    {
        match &self.row {
            Row::AllMissing(_) => None,
            Row::Each(found) => hashes_at(found, piece),
        }
    }

    /// Gives each what is owed to it, as [`pay`] does.
    pub(crate) fn take_own<'a>(&mut self, sums: &'a [u8]) -> &'a [u8]
        requires { sum_by owed_to_piece self.old ≤ length sums.now }
        ensures paid { self.new ≡ paid_each owed_to_piece paid_piece self.old sums.now }
        ensures rest { result.now ≡ drop (sum_by owed_to_piece self.old) sums.now }
    {
        match &mut self.row {
            Row::AllMissing(_) => sums,
            Row::Each(found) => pay(found.as_mut_slice(), sums),
        }
    }
}

// Whether none of these is there.
fn are_missing(found: &[FoundPiece]) -> bool
    ensures { result ≡ list_all is_missing found.now }
{
    found.iter().all(|one| is_missing(one))
}

fn is_missing(one: &FoundPiece) -> bool
    ensures { result ≡ is_missing one.now }
{
    matches!(one, FoundPiece::Missing)
}

// The hashes of a piece of these.
fn hashes_at(found: &[FoundPiece], piece: usize) -> Option<PieceHash>
    ensures { result ≡ hashes_in (slice_index_or found.now piece Missing) }
{
    match found.get(piece) {
        Some(one) => one.hashes(),
        None => None,
    }
}
