//! One worker's part of units that are shared at a board.
ghost use Rattle.std.specs.Prelude.{◌≡◌, ◌<◌, ◌++◌, [], ◌∷◌, true, All, IfErr, IfOk, List, OnOk, length, map};
ghost use Rattle.tor_board.specs.Seats.{IsSeatOf, forest_of, knows, unit_count};
ghost use Rattle.tor_source.specs.Source.{SourceFacts};
ghost use Rattle.tor_sums.specs.Contents.{contents_in};
ghost use Rattle.tor_board.specs.Desks.{GivenUnit, told};
ghost use Rattle.tor_sums.specs.Fault.{IsFault, unit_fault};
ghost use Rattle.tor_sums.specs.Given.{IsGivenRead};
ghost use Rattle.tor_engine.specs.Shares.{IsShareOf};
ghost use Rattle.tor_sums.specs.UnitSums.{IsUnitSums, unit_at};
ghost use Rattle.tor_engine.specs.steps.Taken.{HasRoom};

use crate::sum_work::SumWork;
use crate::workers::taking::take_units;
use std::alloc::{AllocError, Global};
use tor_board::{Board, Seat};
use tor_merkle::Hash;
use tor_plan::Plan;
use tor_source::Source;
use tor_sums::{EngineError, UnitSums};

/// What one worker did: both in the order in which it gave the units.
#[derive(Debug, Drop)]
pub struct Share<T = UnitSums> {
    /// What each unit that it claimed sums up to.
    pub units: Vec<T>,
    /// The roots of the trees that it completed, each with its number among the trees of the plan.
    pub tops: Vec<(u64, Hash)>,
}

impl<T: Drop> Share<T> {
    /// Of no unit.
    pub(crate) fn new(alloc: Global) -> Share<T>
        ensures units { result.units.items ≡ [] }
        ensures tops { result.tops.items ≡ [] }
    {
        Share {
            units: Vec::new(alloc),
            tops: Vec::new(alloc),
        }
    }

    /// Makes room for one more unit, so that it can be kept once its hash is given.
    pub(crate) fn reserve(&mut self) -> Result<(), AllocError>
        ensures units { self.new.units.items ≡ self.old.units.items }
        ensures tops { self.new.tops.items ≡ self.old.tops.items }
        ensures room { OnOk result (HasRoom self.new) }
    {
        self.units.reserve(1)?;
        self.tops.reserve(1)
    }

    /// Keeps what one more unit sums up to, and the top that its give told, if any.
    pub(crate) fn keep(&mut self, sums: T, top: Option<(u64, Hash)>)
        requires { HasRoom self.old }
        ensures units { self.new.units.items ≡ self.old.units.items ++ sums ∷ [] }
        ensures tops { self.new.tops.items ≡ self.old.tops.items ++ told top }
    {
        // There is room for both, so neither is refused.
        let _kept = self.units.push(sums);
        if let Some(top) = top {
            let _told = self.tops.push(top);
        }
    }
}

/// One worker: claims units of the plan at the board, reads and hashes each, and gives its hash, until none is left or
/// some worker failed one. File i of the plan is file i of the source, and as long as the plan says. At an error that
/// unit is failed, whose number is answered with it. It waits for nobody.
pub fn work<S: Source>(
    alloc: Global,
    source: &S,
    plan: &Plan,
    board: &Board,
    seat: &mut Seat,
) -> Result<Share, (u64, EngineError<S::Fault>)>
    requires board { (unit_count board.now ≡ length plan.now.units) × (forest_of board.now ≡ plan.now.trees) }
    requires seat { IsSeatOf board.now seat.old }
    requires idle { ((knows seat.old).held ≡ []) × ((knows seat.old).failed ≡ []) }
    ensures seat { IsSeatOf board.now seat.new }
    ensures idle { (knows seat.new).held ≡ [] }
    ensures room { (knows seat.new).room ≡ (knows seat.old).room }
    ensures done { OnOk result (((knows seat.new).done ≡ true) × ((knows seat.new).failed ≡ [])) }
    ensures failed { IfErr result (λ error. ((knows seat.new).failed ≡ error.0 ∷ [])
        × (error.0 < length plan.now.units)) }
    ensures kept { IfErr result (λ _. (news : List GivenUnit)
        × ((knows seat.new).given ≡ news ++ (knows seat.old).given)) }
    ensures given { IfOk result (IsShareOf (knows seat.old) (knows seat.new)) }
    ensures within { IfOk result (λ share. All (λ sums. sums.unit < length plan.now.units) share.units.items) }
    ensures summed { (facts : SourceFacts S.Fault) → S.is_steady source.now facts →
        map length (contents_in facts (length plan.now.lengths)) ≡ plan.now.lengths →
        IfOk result (λ share.
        All (IsUnitSums plan.now (contents_in facts (length plan.now.lengths))) share.units.items) }
    ensures fault { (facts : SourceFacts S.Fault) → S.is_steady source.now facts →
        map length (contents_in facts (length plan.now.lengths)) ≡ plan.now.lengths →
        IfErr result (λ error. IsFault (unit_fault facts (unit_at plan.now.units error.0)) error.1) }
    ensures gave { IfErr result (λ error. IsGivenRead (S.answers source.now) plan.now.lengths error.1) }
{
    let units = plan.units();
    let work = SumWork {
        alloc,
        source,
        plan,
        units,
    };
    match take_units(&work, units, board, seat) {
        Ok(share) => Ok(share),
        Err(failure) => Err((failure.unit, failure.error)),
    }
}
