//! What was found of a unit whose pieces were hashed as far as their bytes can be read.
ghost use Rattle.std.specs.Prelude.{◌≡◌};
ghost use Rattle.tor_engine.specs.steps.ReadableUnit.{faults_found, unit_found};

use crate::pieces::piece_work::UnitPieces;
use crate::pieces::read_fault::ReadFault;
use std::alloc::Global;

/// What is known of the pieces of a unit, and what of them could not be read. One without a fault takes little, since a
/// torrent of half a megabyte may claim millions.
#[derive(Drop)]
pub(crate) enum ReadableUnit<F> {
    /// Nothing failed.
    Clean(UnitPieces),
    /// Something did, if perhaps not when it was read once more.
    Faulty(Box<FaultyUnit<F>>),
}

/// What is known of the pieces of a unit that were read one by one, and what of them could not be read.
#[derive(Drop)]
pub(crate) struct FaultyUnit<F> {
    pub(crate) found: UnitPieces,
    pub(crate) faults: Vec<ReadFault<F>>,
}

impl<F: Drop> ReadableUnit<F> {
    /// The unit's number.
    pub(crate) fn number(&self) -> u64
        ensures { result ≡ (unit_found self.now).unit }
    {
        match self {
            ReadableUnit::Clean(found) => found.unit,
            ReadableUnit::Faulty(unit) => unit.found.unit,
        }
    }

    /// What is known of its pieces, and what of them could not be read.
    pub(crate) fn into_parts(self, alloc: Global) -> (UnitPieces, Vec<ReadFault<F>>)
        ensures found { result.0 ≡ unit_found self }
        ensures faults { result.1.items ≡ faults_found self }
    {
        match self {
            ReadableUnit::Clean(found) => (found, Vec::new(alloc)),
            ReadableUnit::Faulty(unit) => {
                let FaultyUnit { found, faults } = Box::into_inner(unit);
                (found, faults)
            }
        }
    }
}
