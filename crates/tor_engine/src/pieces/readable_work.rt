//! The pieces of units hashed as far as their bytes can be read.
ghost use Rattle.std.specs.Prelude.{◌≡◌, ◌∷◌, [], None, IfErr, IfOk, OnOk, length, map, replicate};
ghost use Rattle.tor_plan.specs.Pieces.{pieces_of_unit};
ghost use Rattle.tor_plan.specs.PlanFacts.{IsPlan};
ghost use Rattle.tor_source.specs.Source.{SourceFacts};
ghost use Rattle.tor_sums.specs.Contents.{contents_in};
ghost use Rattle.tor_sums.specs.declared.errors.EngineError.TheVariants.{Resources};
ghost use Rattle.tor_sums.specs.steps.Each.{SumUpEach};
ghost use Rattle.tor_sums.specs.steps.Given.{IsGivenRead, lengths_of_sizes};
ghost use Rattle.tor_sums.specs.steps.Owing.{Owes};
ghost use Rattle.tor_engine.specs.Readable.{IsNoReadFault};
ghost use Rattle.tor_engine.specs.steps.Pieces.{AreTold, IsPaddingSum, IsPiece, IsUnitToHash, hashes_in};
ghost use Rattle.tor_engine.specs.steps.Readable.{FindsReadable, FindsUnit};
ghost use Rattle.tor_engine.specs.steps.ReadableUnit.{unit_found};

use crate::pieces::alone::{find_alone, find_unit};
use crate::pieces::found_row::FoundRow;
use crate::pieces::piece_hash::FoundPiece;
use crate::pieces::piece_work::{Known, UnitPieces};
use crate::pieces::probing::faults_of;
use crate::pieces::read_fault::{ReadFault, as_read_fault};
use crate::pieces::readable_unit::{FaultyUnit, ReadableUnit};
use crate::workers::unit_work::UnitWork;
use std::alloc::{AllocError, Global};
use tor_merkle::Hash;
use tor_plan::{Plan, PlanUnit};
use tor_sums::{EngineError, FileBytes, OwingSums, append};

/// Hashes the pieces of units as far as they can be read. Each unit gets its SHA-1s at its end, and after a fault of
/// one its pieces are read again, each by itself: then none of another is lost with the worker that stopped.
#[derive(Drop)]
pub(crate) struct ReadableWork<'a, S> {
    pub(crate) alloc: Global,
    pub(crate) source: &'a S,
    pub(crate) plan: &'a Plan,
    pub(crate) known: &'a Known,
}

impl<'a, S: FileBytes> UnitWork for ReadableWork<'a, S> {
    type Fault = S::Fault;

    type Sums = ReadableUnit<S::Fault>;

    ghost may_begin = { λ work. IsPlan work.plan.now × IsPaddingSum work.plan.now work.known.now.padding_sum };

    ghost may_hash = { λ work unit. IsUnitToHash work.plan.now unit };

    ghost is_steady = { λ work facts. S.is_steady work.source.now facts
        × AreTold work.known.now.lengths.items (contents_in facts (length work.plan.now.lengths)) };

    ghost fault = { λ _ _ _. None };

    ghost sums_up = { λ work unit sums. FindsUnit (S.is_steady work.source.now)
        (IsGivenRead (S.answers work.source.now) (lengths_of_sizes work.known.now.lengths.items)) work.plan.now
        work.known.now.lengths.items unit sums };

    ghost stands = { λ work units sums worker. Owes work.plan.now [] worker
        × SumUpEach (FindsUnit (S.is_steady work.source.now)
        (IsGivenRead (S.answers work.source.now) (lengths_of_sizes work.known.now.lengths.items)) work.plan.now
        work.known.now.lengths.items) units sums };

    ghost number_in = { λ _ sums. (unit_found sums).unit };

    ghost hash_in = { λ _ _. replicate 32 0 };

    ghost gave = { λ work error. IsNoReadFault error
        × IsGivenRead (S.answers work.source.now) (lengths_of_sizes work.known.now.lengths.items) error };

    ghost may_refuse = { λ _. (tt, tt) };

    fn alloc(&self) -> Global {
        self.alloc
    }

    fn begin(&self) -> Result<OwingSums, AllocError> {
        OwingSums::new(self.alloc, self.plan)
    }

    fn hash(
        &self,
        number: u64,
        unit: &PlanUnit,
        worker: &mut OwingSums,
    ) -> Result<ReadableUnit<S::Fault>, EngineError<S::Fault>> {
        let error = match find_unit(
            self.alloc,
            self.source,
            self.plan,
            self.known,
            number,
            unit,
            worker,
        ) {
            Ok(found) => return Ok(ReadableUnit::Clean(found)),
            Err(error) => error,
        };
        match as_read_fault(error) {
            Ok(_) => {}
            Err(error) => return Err(error),
        }
        *worker = OwingSums::new(self.alloc, self.plan)?;
        find_each(
            self.alloc,
            self.source,
            self.plan,
            self.known,
            number,
            unit,
            worker,
        )
    }

    // Each unit is complete: it has its own sums.
    fn complete(&self, _worker: OwingSums, _sums: &mut Vec<ReadableUnit<S::Fault>>) {}

    fn number_of(&self, sums: &ReadableUnit<S::Fault>) -> u64 {
        sums.number()
    }

    // It goes into no tree: `find_readable` has none put together.
    fn hash_of(&self, _sums: &ReadableUnit<S::Fault>) -> Hash {
        [0; 32]
    }
}

/// What is found of the pieces of a unit, each by itself, and what of them could not be read.
fn find_each<S: FileBytes>(
    alloc: Global,
    source: &S,
    plan: &Plan,
    known: &Known,
    number: u64,
    unit: &PlanUnit,
    worker: &mut OwingSums,
) -> Result<ReadableUnit<S::Fault>, EngineError<S::Fault>>
    requires planned { IsPlan plan.now }
    requires padding { IsPaddingSum plan.now known.now.padding_sum }
    requires unit { IsUnitToHash plan.now unit.now }
    requires owing { Owes plan.now [] worker.old }
    ensures owing { OnOk result (Owes plan.now [] worker.new) }
    ensures number { IfOk result (λ one. (unit_found one).unit ≡ number) }
    ensures found { IfOk result (FindsUnit (S.is_steady source.now)
        (IsGivenRead (S.answers source.now) (lengths_of_sizes known.now.lengths.items)) plan.now
        known.now.lengths.items unit.now) }
    ensures refused { (facts : SourceFacts S.Fault) → S.is_steady source.now facts →
        AreTold known.now.lengths.items (contents_in facts (length plan.now.lengths)) →
        IfErr result (λ error. error ≡ Resources) }
    ensures no_read_fault { IfErr result IsNoReadFault }
    ensures gave { IfErr result (IsGivenRead (S.answers source.now) (lengths_of_sizes known.now.lengths.items)) }
{
    let pieces = unit.pieces(alloc, plan.piece_length())?;
    let mut found = Vec::with_capacity(alloc, pieces.len())?;
    let mut faults = Vec::new(alloc);
    'pieces: for piece in pieces.as_slice() {
        let (one, own) = match find_or_faults(alloc, source, plan, known, piece, worker) {
            Ok(one) => one,
            Err(error) => return Err(error),
        };
        found.push(one)?;
        append(&mut faults, own)?;
    }
    let row = FoundRow::of(alloc, found)?;
    let found = UnitPieces {
        unit: number,
        pieces: row,
    };
    let unit = Box::new(alloc, FaultyUnit { found, faults })?;
    Ok(ReadableUnit::Faulty(unit))
}

/// What is found of a piece, and what of it could not be read: of one that has several parts the first fault of each,
/// for which they are read once more.
fn find_or_faults<S: FileBytes>(
    alloc: Global,
    source: &S,
    plan: &Plan,
    known: &Known,
    piece: &PlanUnit,
    worker: &mut OwingSums,
) -> Result<(FoundPiece, Vec<ReadFault<S::Fault>>), EngineError<S::Fault>>
    requires planned { IsPlan plan.now }
    requires padding { IsPaddingSum plan.now known.now.padding_sum }
    requires piece { IsPiece plan.now piece.now }
    requires owing { Owes plan.now [] worker.old }
    ensures owing { OnOk result (Owes plan.now [] worker.new) }
    ensures found { IfOk result (λ one. FindsReadable (S.is_steady source.now)
        (IsGivenRead (S.answers source.now) (lengths_of_sizes known.now.lengths.items)) plan.now
        known.now.lengths.items (piece.now ∷ []) (hashes_in one.0 ∷ []) one.1.items) }
    ensures refused { (facts : SourceFacts S.Fault) → S.is_steady source.now facts →
        AreTold known.now.lengths.items (contents_in facts (length plan.now.lengths)) →
        IfErr result (λ error. error ≡ Resources) }
    ensures no_read_fault { IfErr result IsNoReadFault }
    ensures gave { IfErr result (IsGivenRead (S.answers source.now) (lengths_of_sizes known.now.lengths.items)) }
{
    let error = match find_alone(alloc, source, plan, known, piece, worker) {
        Ok(found) => return Ok((found, Vec::new(alloc))),
        Err(error) => error,
    };
    let first = match as_read_fault(error) {
        Ok(first) => first,
        Err(error) => return Err(error),
    };
    // The one that stopped is of no use.
    *worker = OwingSums::new(alloc, plan)?;
    match faults_of(alloc, source, piece, first) {
        Ok(faults) => Ok((FoundPiece::Missing, faults)),
        Err(error) => Err(error),
    }
}
