//! Units claimed, and given up.
ghost use Rattle.std.specs.Prelude.{◌≡◌, ◌≢◌, ◌<◌, ◌≤◌, [], true, false, IfSome, IfNone, IsNone};
ghost use Rattle.tor_board.specs.Desks.{Has, names, finished, holding, failing};
ghost use Rattle.tor_board.specs.Plays.{IsFree};
ghost use Rattle.tor_board.specs.Seats.{knows, unit_count, IsSeatOf};
ghost use Rattle.tor_board.specs.Shapes.{IsShape};
ghost use Rattle.tor_board.specs.Views.{named, looking as looking_view, finished as finished_view, ended};
ghost use Rattle.tor_board.specs.Views.{holding as holding_view};
ghost use Rattle.tor_board.specs.Weights.{only};

use crate::board::{Board, CLAIMS, LEAST_FAILED, NONE_FAILED};
use crate::climb::{Cells, TableSeat};
use crate::rule::{Claim, Fail, Look};
use crate::seat::{Job, Seat};

impl Board {
    /// The next unit that nobody has claimed, while none has failed.
    pub fn claim(&self, seat: &mut Seat) -> Option<Job>
        requires { IsSeatOf self.now seat.old }
        ensures board { IsSeatOf self.now seat.new }
        ensures some { IfSome result (λ job. (job.number < unit_count self.now)
            × (knows seat.new ≡ holding (knows seat.old) job.number) × (names job.number (knows seat.old) ≡ 0)) }
        ensures none { IfNone result (knows seat.new ≡ finished (knows seat.old)) }
        ensures done { (knows seat.old).done ≡ true → IsNone result }
        ensures failed { (knows seat.old).failed ≢ [] → IsNone result }
    {
        if seat.done {
            return None;
        }
        let Seat {
            inner,
            room: _,
            done,
        } = seat;
        let cells = &self.table.shared;
        if sees_failure(cells, inner) {
            *done = true;
            return None;
        }
        let number = next_number(cells, inner);
        if number < self.shape.units {
            Some(Job { number })
        } else {
            *done = true;
            None
        }
    }

    /// Gives a unit up.
    pub fn fail(&self, seat: &mut Seat, job: Job)
        requires board { IsSeatOf self.now seat.old }
        requires job { Has (knows seat.old).held job.number }
        ensures board { IsSeatOf self.now seat.new }
        ensures failed { knows seat.new ≡ failing (knows seat.old) job.number }
    {
        let Job { number } = job;
        self.table
            .shared
            .fetch_min::<Fail>(&mut seat.inner, LEAST_FAILED, number);
    }
}

// One load: whether a unit has failed.
fn sees_failure(cells: &Cells, seat: &mut TableSeat) -> bool
    requires table { seat.old.table_id ≡ cells.now.table_id }
    requires shape { IsShape cells.now.table_id.words cells.now.table_id.slots cells.now.key }
    requires free { IsFree seat.old.me.0 × (seat.old.me.0.done ≡ false) }
    ensures table { seat.new.table_id ≡ seat.old.table_id }
    ensures yes { result ≡ true → seat.new.me ≡ (finished_view seat.old.me.0, seat.old.me.1) }
    ensures no { result ≡ false → (seat.new.me ≡ (looking_view seat.old.me.0, seat.old.me.1))
        × (seat.old.me.0.failed ≡ []) }
{
    cells.load::<Look>(seat, LEAST_FAILED) != NONE_FAILED
}

// One step: the number that is found is the seat's, if the board has such a unit.
fn next_number(cells: &Cells, seat: &mut TableSeat) -> u64
    requires table { seat.old.table_id ≡ cells.now.table_id }
    requires shape { IsShape cells.now.table_id.words cells.now.table_id.slots cells.now.key }
    requires free { IsFree seat.old.me.0 × (seat.old.me.0.done ≡ false) }
    requires looked { seat.old.me.0.looked ≡ true }
    requires units { seat.old.me.0.units ≡ cells.now.key.units }
    ensures table { seat.new.table_id ≡ seat.old.table_id }
    ensures some { result < cells.now.key.units → (seat.new.me ≡ (holding_view seat.old.me.0 result, seat.old.me.1))
        × (named (only result) seat.old.me.0 ≡ 0) }
    ensures none { cells.now.key.units ≤ result → seat.new.me ≡ (ended seat.old.me.0, seat.old.me.1) }
{
    cells.fetch_add::<Claim>(seat, CLAIMS, 1)
}
