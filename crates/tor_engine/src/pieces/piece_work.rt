//! The pieces of units hashed, those that are wholly there.
ghost use Rattle.std.specs.Prelude.{◌≡◌, ◌↔◌, ◌++◌, [], ℕ, IsTrue, List, None, IfErr, IfOk, MatchResult, length, map};
ghost use Rattle.std.specs.Prelude.{true};
ghost use Rattle.std.specs.Prelude.{replicate};
ghost use Rattle.tor_plan.specs.Pieces.{pieces_of_unit};
ghost use Rattle.tor_plan.specs.PlanFacts.{IsPlan};
ghost use Rattle.tor_source.specs.Source.{SourceFacts};
ghost use Rattle.tor_sums.specs.Contents.{contents_in};
ghost use Rattle.tor_sums.specs.Fault.{IsFault};
ghost use Rattle.tor_sums.specs.steps.Each.{OweEach};
ghost use Rattle.tor_sums.specs.steps.Given.{IsGivenRead, lengths_of_sizes};
ghost use Rattle.tor_sums.specs.steps.Owing.{Owes};
ghost use Rattle.tor_engine.specs.PieceFault.{piece_fault};
ghost use Rattle.tor_engine.specs.There.{is_within};
ghost use Rattle.tor_engine.specs.steps.Pieces.{AreTold, HashesPieces, IsPaddingSum, IsPiece, IsUnitToHash, hashes_in};
ghost use Rattle.tor_engine.specs.steps.Pieces.{unit_pieces_fault};
ghost use Rattle.tor_engine.specs.steps.Unsummed.{FindsPiece, OwePieces, owed_to_pieces, paid_pieces};

use crate::pieces::found_row::FoundRow;
use crate::pieces::piece_hash::{FoundPiece, PieceHash, piece_of_tree};
use crate::pieces::present::is_there;
use crate::pieces::together::{find_together, is_together};
use crate::workers::unit_work::UnitWork;
use std::alloc::{AllocError, Global};
use tor_merkle::Hash;
use tor_plan::{Plan, PlanUnit};
use tor_sums::{EngineError, FileBytes, Owed, OwingSums, pay, tree_of_unit};
use tor_v1::laws::length_of_sums;

/// What is known before units are read.
#[derive(Drop)]
pub(crate) struct Known {
    /// The length that was told of each file, none of one that is missing.
    pub(crate) lengths: Vec<Option<u64>>,
    /// The SHA-1 of a whole piece of padding, which a torrent may have so many of that each is not hashed again.
    pub(crate) padding_sum: Option<[u8; 20]>,
}

/// What is known of the pieces of a unit.
#[derive(Drop)]
pub(crate) struct UnitPieces {
    /// The unit's number.
    pub(crate) unit: u64,
    pub(crate) pieces: FoundRow,
}

impl Owed for UnitPieces {
    ghost owed = { owed_to_pieces };

    ghost paid = { paid_pieces };

    fn take_own<'a>(&mut self, sums: &'a [u8]) -> &'a [u8] {
        self.pieces.take_own(sums)
    }
}

/// Hashes the pieces of units, of files that may be cut short or missing.
#[derive(Drop)]
pub(crate) struct PieceWork<'a, S> {
    pub(crate) alloc: Global,
    pub(crate) source: &'a S,
    pub(crate) plan: &'a Plan,
    pub(crate) known: &'a Known,
}

impl<'a, S: FileBytes> UnitWork for PieceWork<'a, S> {
    type Fault = S::Fault;

    type Sums = UnitPieces;

    ghost may_begin = { λ work. IsPlan work.plan.now × IsPaddingSum work.plan.now work.known.now.padding_sum };

    ghost may_hash = { λ work unit. IsUnitToHash work.plan.now unit };

    ghost is_steady = { λ work facts. S.is_steady work.source.now facts
        × AreTold work.known.now.lengths.items (contents_in facts (length work.plan.now.lengths)) };

    ghost fault = { λ work facts unit.
        unit_pieces_fault facts work.plan.now (contents_in facts (length work.plan.now.lengths)) unit };

    ghost sums_up = { λ work unit sums. HashesPieces (S.is_steady work.source.now) work.plan.now
        work.known.now.lengths.items unit (map hashes_in sums.pieces) };

    ghost stands = { λ work units sums worker. (owed : List ℕ) × Owes work.plan.now owed worker
        × OweEach (OwePieces (S.is_steady work.source.now) work.plan.now work.known.now.lengths.items)
        units sums owed };

    ghost number_in = { λ _ sums. sums.unit };

    ghost hash_in = { λ _ _. replicate 32 0 };

    ghost gave = { λ work. IsGivenRead (S.answers work.source.now) (lengths_of_sizes work.known.now.lengths.items) };

    ghost may_refuse = { λ _. tt };

    fn alloc(&self) -> Global {
        self.alloc
    }

    fn begin(&self) -> Result<OwingSums, AllocError> {
        OwingSums::new(self.alloc, self.plan)
    }

    fn hash(
        &self,
        number: u64,
        unit: &PlanUnit,
        worker: &mut OwingSums,
    ) -> Result<UnitPieces, EngineError<S::Fault>> {
        let found = match find_pieces_of(
            self.alloc,
            self.source,
            self.plan,
            self.known,
            unit,
            worker,
        ) {
            Ok(found) => found,
            Err(error) => return Err(error),
        };
        let pieces = FoundRow::of(self.alloc, found)?;
        Ok(UnitPieces {
            unit: number,
            pieces,
        })
    }

    fn complete(&self, worker: OwingSums, sums: &mut Vec<UnitPieces>) {
        let owed = worker.finish(self.alloc);
        pay(sums.as_mut_slice(), &owed);
    }

    fn number_of(&self, sums: &UnitPieces) -> u64 {
        sums.unit
    }

    // It goes into no tree: `find_pieces` has none put together.
    fn hash_of(&self, _sums: &UnitPieces) -> Hash {
        [0; 32]
    }
}

/// What is found of the pieces of a unit: all together, if they can be hashed so, and else one after the other.
fn find_pieces_of<S: FileBytes>(
    alloc: Global,
    source: &S,
    plan: &Plan,
    known: &Known,
    unit: &PlanUnit,
    worker: &mut OwingSums,
) -> Result<Vec<FoundPiece>, EngineError<S::Fault>>
    requires planned { IsPlan plan.now }
    requires padding { IsPaddingSum plan.now known.now.padding_sum }
    requires unit { IsUnitToHash plan.now unit.now }
    requires owing { (owed : List ℕ) × Owes plan.now owed worker.old }
    ensures owing { (owed : List ℕ) → Owes plan.now owed worker.old → IfOk result (λ found. (own : List ℕ)
        × OweEach (FindsPiece (S.is_steady source.now) plan.now known.now.lengths.items)
        (pieces_of_unit plan.now.piece_length unit.now) found.items own
        × Owes plan.now (owed ++ own) worker.new) }
    ensures fault { (facts : SourceFacts S.Fault) → S.is_steady source.now facts →
        AreTold known.now.lengths.items (contents_in facts (length plan.now.lengths)) →
        MatchResult result
        (λ _. unit_pieces_fault facts plan.now (contents_in facts (length plan.now.lengths)) unit.now ≡ None)
        (IsFault (unit_pieces_fault facts plan.now (contents_in facts (length plan.now.lengths)) unit.now)) }
    ensures gave { IfErr result (IsGivenRead (S.answers source.now) (lengths_of_sizes known.now.lengths.items)) }
{
    if is_together(plan, known, unit) {
        return find_together(alloc, source, plan, known, unit, worker);
    }
    find_in_turn(alloc, source, plan, known, unit, worker)
}

/// What is found of the pieces of a unit, one after the other.
fn find_in_turn<S: FileBytes>(
    alloc: Global,
    source: &S,
    plan: &Plan,
    known: &Known,
    unit: &PlanUnit,
    worker: &mut OwingSums,
) -> Result<Vec<FoundPiece>, EngineError<S::Fault>>
    requires planned { IsPlan plan.now }
    requires padding { IsPaddingSum plan.now known.now.padding_sum }
    requires unit { IsUnitToHash plan.now unit.now }
    requires owing { (owed : List ℕ) × Owes plan.now owed worker.old }
    ensures owing { (owed : List ℕ) → Owes plan.now owed worker.old → IfOk result (λ found. (own : List ℕ)
        × OweEach (FindsPiece (S.is_steady source.now) plan.now known.now.lengths.items)
        (pieces_of_unit plan.now.piece_length unit.now) found.items own
        × Owes plan.now (owed ++ own) worker.new) }
    ensures fault { (facts : SourceFacts S.Fault) → S.is_steady source.now facts →
        AreTold known.now.lengths.items (contents_in facts (length plan.now.lengths)) →
        MatchResult result
        (λ _. unit_pieces_fault facts plan.now (contents_in facts (length plan.now.lengths)) unit.now ≡ None)
        (IsFault (unit_pieces_fault facts plan.now (contents_in facts (length plan.now.lengths)) unit.now)) }
    ensures gave { IfErr result (IsGivenRead (S.answers source.now) (lengths_of_sizes known.now.lengths.items)) }
{
    let pieces = unit.pieces(alloc, plan.piece_length())?;
    let mut found = Vec::with_capacity(alloc, pieces.len())?;
    'pieces: for piece in pieces.as_slice() {
        let one = match find_piece(alloc, source, plan, known, piece, worker) {
            Ok(one) => one,
            Err(error) => return Err(error),
        };
        found.push(one)?;
    }
    Ok(found)
}

/// What is found of a piece. One of which a byte is not there is not read.
pub(crate) fn find_piece<S: FileBytes>(
    alloc: Global,
    source: &S,
    plan: &Plan,
    known: &Known,
    piece: &PlanUnit,
    worker: &mut OwingSums,
) -> Result<FoundPiece, EngineError<S::Fault>>
    requires planned { IsPlan plan.now }
    requires padding { IsPaddingSum plan.now known.now.padding_sum }
    requires piece { IsPiece plan.now piece.now }
    requires owing { (owed : List ℕ) × Owes plan.now owed worker.old }
    ensures owing { (owed : List ℕ) → Owes plan.now owed worker.old → IfOk result (λ found. (own : List ℕ)
        × FindsPiece (S.is_steady source.now) plan.now known.now.lengths.items piece.now found own
        × Owes plan.now (owed ++ own) worker.new) }
    ensures fault { (facts : SourceFacts S.Fault) → S.is_steady source.now facts →
        AreTold known.now.lengths.items (contents_in facts (length plan.now.lengths)) →
        MatchResult result
        (λ _. piece_fault facts (contents_in facts (length plan.now.lengths)) piece.now ≡ None)
        (IsFault (piece_fault facts (contents_in facts (length plan.now.lengths)) piece.now)) }
    ensures gave { IfErr result (IsGivenRead (S.answers source.now) (lengths_of_sizes known.now.lengths.items)) }
    ensures there { IfErr result (λ _. is_within known.now.lengths.items piece.now ≡ true) }
{
    length_of_sums();
    if !is_there(&known.lengths, piece) {
        return Ok(FoundPiece::Missing);
    }
    match known.padding_sum {
        Some(sum) if is_padding(piece, plan.piece_length()) => Ok(FoundPiece::Hashed(PieceHash {
            v1: Some(sum),
            v2: None,
        })),
        _ => match tree_of_unit(alloc, source, plan, piece, worker) {
            Ok(tree) => Ok(piece_of_tree(plan, piece, tree)),
            Err(error) => Err(error),
        },
    }
}

/// Whether a piece is padding alone, and whole.
fn is_padding(piece: &PlanUnit, piece_length: u64) -> bool
    ensures { IsTrue result ↔ ((piece.now.zeros ≡ piece_length) × (piece.now.parts ≡ [])) }
{
    piece.zeros == piece_length && piece.parts.as_slice().is_empty()
}
