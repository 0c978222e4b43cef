//! What pieces hash to, held unit by unit.
ghost use Rattle.std.specs.Prelude.{◌≡◌, ◌++◌, ◌∷◌, [], IfOk, MatchOption, None, replicate};
ghost use Rattle.std.specs.List.{flat_map};
ghost use Rattle.tor_engine.specs.steps.UnitHashes.{hashes_of_unit};

use crate::pieces::found_row::FoundRow;
use crate::pieces::piece_hash::PieceHash;
use crate::pieces::piece_work::UnitPieces;
use std::alloc::{AllocError, Global};
use std::marker::Model;
use tor_sums::append;

/// What each of some pieces hashes to, in their order, and none if some byte of it is not there. Of a unit of which no
/// piece is there only a number is held. Contracts see the list.
#[derive(Drop)]
pub struct PieceHashes {
    units: Vec<UnitPieces>,
}

impl Model for PieceHashes {
    ghost use Rattle.std.specs.Prelude.{List, Option};
    ghost use Rattle.std.specs.List.{flat_map};
    ghost use Rattle.tor_engine.specs.declared.pieces.piece_hash.PieceHash.{PieceHash};
    ghost use Rattle.tor_engine.specs.steps.UnitHashes.{hashes_of_unit};

    ghost Value = { List (Option PieceHash) };

    ghost view = { λ hashes. flat_map hashes_of_unit hashes.units.items };
}

impl PieceHashes {
    /// Those of units, one after the other.
    pub(crate) fn of(units: Vec<UnitPieces>) -> PieceHashes
        ensures { result ≡ flat_map hashes_of_unit units.items }
    {
        PieceHashes { units }
    }

    /// These after so many pieces that have none.
    pub fn after(
        alloc: Global,
        missing: usize,
        hashes: PieceHashes,
    ) -> Result<PieceHashes, AllocError>
        ensures { IfOk result (λ all. all ≡ replicate missing None ++ hashes) }
    {
        let first = UnitPieces {
            unit: 0,
            pieces: FoundRow::missing(missing),
        };
        let mut units = vec![in alloc; first]?;
        append(&mut units, hashes.units)?;
        Ok(PieceHashes { units })
    }

    /// Each, in their order.
    pub fn each(&self) -> HashesLeft<'_>
        ensures { result ≡ self.now }
    {
        HashesLeft {
            units: &self.units,
            taken: 0,
        }
    }
}

/// Those hashes that were not taken yet. Contracts see the list.
#[derive(Drop)]
pub struct HashesLeft<'a> {
    units: &'a [UnitPieces],
    /// How many of the first pieces of these units were taken.
    taken: usize,
}

impl<'a> Model for HashesLeft<'a> {
    ghost use Rattle.std.specs.Prelude.{List, Option, drop};
    ghost use Rattle.std.specs.List.{flat_map};
    ghost use Rattle.tor_engine.specs.declared.pieces.piece_hash.PieceHash.{PieceHash};
    ghost use Rattle.tor_engine.specs.steps.UnitHashes.{hashes_of_unit};

    ghost Value = { List (Option PieceHash) };

    ghost view = { λ left. drop left.taken (flat_map hashes_of_unit left.units.now) };
}

impl<'a> HashesLeft<'a> {
    /// The next of them, which is none if its piece is not there; None if none is left.
    pub fn next(&mut self) -> Option<Option<PieceHash>>
        ensures { MatchOption result ((self.old ≡ []) × (self.new ≡ [])) (λ hash. self.old ≡ hash ∷ self.new) }
    {
        let mut units = self.units;
        let mut taken = self.taken;
        while let Some((unit, later)) = units.split_first() {
            if taken < unit.pieces.count() {
                self.units = units;
                self.taken = taken + 1;
                return Some(unit.pieces.hashes(taken));
            }
            taken -= unit.pieces.count();
            units = later;
        }
        None
    }
}
