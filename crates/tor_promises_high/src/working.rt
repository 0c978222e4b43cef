//! One worker at a board.
ghost use Rattle.std.specs.Prelude.{◌≡◌, ◌<◌, ◌++◌, [], ◌∷◌, true, All, IfErr, IfOk, List, OnOk, length, map};
ghost use Rattle.tor_board.specs.Desks.{GivenUnit};
ghost use Rattle.tor_board.specs.Seats.{IsSeatOf, forest_of, knows, unit_count};
ghost use Rattle.tor_engine.specs.Shares.{IsShareOf};
ghost use Rattle.tor_source.specs.Source.{SourceFacts};
ghost use Rattle.tor_sums.specs.Contents.{contents_in};
ghost use Rattle.tor_sums.specs.Fault.{IsFault, unit_fault};
ghost use Rattle.tor_sums.specs.Given.{IsGivenRead};
ghost use Rattle.tor_sums.specs.UnitSums.{IsUnitSums, unit_at};

use std::alloc::Global;
use tor_board::{Board, Seat};
use tor_engine::{EngineError, Share, work};
use tor_plan::Plan;
use tor_source::Source;

/// What one worker did: it claims units of a plan at a board, hashes each and gives its hash, until none is left or one
/// failed.
pub fn share_of<S: Source>(
    alloc: Global,
    source: &S,
    plan: &Plan,
    board: &Board,
    seat: &mut Seat,
) -> Result<Share, (u64, EngineError<S::Fault>)>
    requires board { (unit_count board.now ≡ length plan.now.units) × (forest_of board.now ≡ plan.now.trees) }
    requires seat { IsSeatOf board.now seat.old }
    requires idle { ((knows seat.old).held ≡ []) × ((knows seat.old).failed ≡ []) }
    ensures seat { IsSeatOf board.now seat.new }
    ensures idle { (knows seat.new).held ≡ [] }
    ensures room { (knows seat.new).room ≡ (knows seat.old).room }
    ensures done { OnOk result (((knows seat.new).done ≡ true) × ((knows seat.new).failed ≡ [])) }
    ensures failed { IfErr result (λ error. ((knows seat.new).failed ≡ error.0 ∷ [])
        × (error.0 < length plan.now.units)) }
    ensures kept { IfErr result (λ _. (news : List GivenUnit)
        × ((knows seat.new).given ≡ news ++ (knows seat.old).given)) }
    ensures given { IfOk result (IsShareOf (knows seat.old) (knows seat.new)) }
    ensures within { IfOk result (λ share. All (λ sums. sums.unit < length plan.now.units) share.units.items) }
    ensures summed { (facts : SourceFacts S.Fault) → S.is_steady source.now facts →
        map length (contents_in facts (length plan.now.lengths)) ≡ plan.now.lengths →
        IfOk result (λ share.
        All (IsUnitSums plan.now (contents_in facts (length plan.now.lengths))) share.units.items) }
    ensures fault { (facts : SourceFacts S.Fault) → S.is_steady source.now facts →
        map length (contents_in facts (length plan.now.lengths)) ≡ plan.now.lengths →
        IfErr result (λ error. IsFault (unit_fault facts (unit_at plan.now.units error.0)) error.1) }
    ensures gave { IfErr result (λ error. IsGivenRead (S.answers source.now) plan.now.lengths error.1) }
{
    work(alloc, source, plan, board, seat)
}
