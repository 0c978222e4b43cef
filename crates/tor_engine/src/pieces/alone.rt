//! Units and pieces that get their SHA-1s each at its end, so that a fault of one costs the others nothing.
ghost use Rattle.std.specs.Prelude.{◌≡◌, ◌⊎◌, [], None, IfErr, IfOk, MatchResult, OnOk, length, map, true};
ghost use Rattle.tor_plan.specs.PlanFacts.{IsPlan};
ghost use Rattle.tor_source.specs.Source.{SourceFacts};
ghost use Rattle.tor_sums.specs.Contents.{contents_in};
ghost use Rattle.tor_sums.specs.Fault.{IsFault};
ghost use Rattle.tor_sums.specs.steps.Given.{IsGivenRead, lengths_of_sizes};
ghost use Rattle.tor_sums.specs.steps.Owing.{Owes};
ghost use Rattle.tor_sums.specs.declared.errors.EngineError.TheVariants.{Resources};
ghost use Rattle.tor_engine.specs.PieceFault.{piece_fault};
ghost use Rattle.tor_engine.specs.There.{is_within};
ghost use Rattle.tor_engine.specs.steps.Pieces.{AreTold, HashesPieces, IsPaddingSum, IsPiece, IsUnitToHash, hashes_in};
ghost use Rattle.tor_engine.specs.steps.Pieces.{unit_pieces_fault};
ghost use Rattle.tor_engine.specs.steps.Unsummed.{FindsPiece};

use crate::pieces::piece_hash::FoundPiece;
use crate::pieces::piece_work::{Known, PieceWork, UnitPieces, find_piece};
use crate::workers::unit_work::UnitWork;
use std::alloc::Global;
use tor_plan::{Plan, PlanUnit};
use tor_sums::{EngineError, FileBytes, Owed, OwingSums};

/// What the pieces of a unit hash to, which has this number.
pub(crate) fn find_unit<S: FileBytes>(
    alloc: Global,
    source: &S,
    plan: &Plan,
    known: &Known,
    number: u64,
    unit: &PlanUnit,
    worker: &mut OwingSums,
) -> Result<UnitPieces, EngineError<S::Fault>>
    requires planned { IsPlan plan.now }
    requires padding { IsPaddingSum plan.now known.now.padding_sum }
    requires unit { IsUnitToHash plan.now unit.now }
    requires owing { Owes plan.now [] worker.old }
    ensures owing { OnOk result (Owes plan.now [] worker.new) }
    ensures number { IfOk result (λ found. found.unit ≡ number) }
    ensures hashed { IfOk result (λ found. HashesPieces (S.is_steady source.now) plan.now known.now.lengths.items
        unit.now (map hashes_in found.pieces)) }
    ensures fault { (facts : SourceFacts S.Fault) → S.is_steady source.now facts →
        AreTold known.now.lengths.items (contents_in facts (length plan.now.lengths)) →
        MatchResult result
        (λ _. unit_pieces_fault facts plan.now (contents_in facts (length plan.now.lengths)) unit.now ≡ None)
        (IsFault (unit_pieces_fault facts plan.now (contents_in facts (length plan.now.lengths)) unit.now)) }
    ensures gave { IfErr result (IsGivenRead (S.answers source.now) (lengths_of_sizes known.now.lengths.items)) }
{
    let work = PieceWork {
        alloc,
        source,
        plan,
        known,
    };
    let mut found = match work.hash(number, unit, worker) {
        Ok(found) => found,
        Err(error) => return Err(error),
    };
    let owed = worker.settle(alloc, plan)?;
    found.take_own(&owed);
    Ok(found)
}

/// What is found of one piece.
pub(crate) fn find_alone<S: FileBytes>(
    alloc: Global,
    source: &S,
    plan: &Plan,
    known: &Known,
    piece: &PlanUnit,
    worker: &mut OwingSums,
) -> Result<FoundPiece, EngineError<S::Fault>>
    requires planned { IsPlan plan.now }
    requires padding { IsPaddingSum plan.now known.now.padding_sum }
    requires piece { IsPiece plan.now piece.now }
    requires owing { Owes plan.now [] worker.old }
    ensures owing { OnOk result (Owes plan.now [] worker.new) }
    ensures found { IfOk result (λ found.
        FindsPiece (S.is_steady source.now) plan.now known.now.lengths.items piece.now found []) }
    ensures fault { (facts : SourceFacts S.Fault) → S.is_steady source.now facts →
        AreTold known.now.lengths.items (contents_in facts (length plan.now.lengths)) →
        MatchResult result
        (λ _. piece_fault facts (contents_in facts (length plan.now.lengths)) piece.now ≡ None)
        (IsFault (piece_fault facts (contents_in facts (length plan.now.lengths)) piece.now)) }
    ensures gave { IfErr result (IsGivenRead (S.answers source.now) (lengths_of_sizes known.now.lengths.items)) }
    ensures there { IfErr result
        (λ error. (error ≡ Resources) ⊎ (is_within known.now.lengths.items piece.now ≡ true)) }
{
    let mut found = match find_piece(alloc, source, plan, known, piece, worker) {
        Ok(found) => found,
        Err(error) => return Err(error),
    };
    let owed = worker.settle(alloc, plan)?;
    found.take_own(&owed);
    Ok(found)
}
