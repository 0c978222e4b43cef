//! Seats cut in two, and put together.
ghost use Rattle.std.specs.Prelude.{◌≡◌, ℕ, ◌≤◌, MatchResult};
ghost use Rattle.tor_board.specs.Desks.{both, names};
ghost use Rattle.tor_board.specs.Seats.{knows, IsCut, IsSeatOf};

use crate::board::{Board, CLAIMS, SplitError};
use crate::rule::{Both, Halves, Merge};
use crate::seat::Seat;

impl Board {
    /// Cuts a seat's room in two: the first keeps all its work.
    pub fn split(&self, seat: Seat) -> Result<(Seat, Seat), (Seat, SplitError)>
        requires { IsSeatOf self.now seat }
        ensures { MatchResult result (λ seats. IsCut self.now seat seats.0 seats.1)
            (λ refused. (refused.0 ≡ seat) × ((knows seat).room ≡ 1)) }
    {
        if seat.room == 1 {
            return Err((seat, SplitError::TooManySeats));
        }
        let Seat {
            mut inner,
            room,
            done,
        } = seat;
        let other = self.table.shared.split_seat::<Halves>(&mut inner);
        let half = room / 2;
        let old = Seat {
            inner,
            room: room - half,
            done,
        };
        let new = Seat {
            inner: other,
            room: half,
            done,
        };
        Ok((old, new))
    }

    /// Makes two seats one, which has the work of both.
    pub fn join(&self, seat: Seat, other: Seat) -> Seat
        requires { IsSeatOf self.now seat × IsSeatOf self.now other }
        ensures seat { IsSeatOf self.now result × (knows result ≡ both (knows seat) (knows other)) }
        ensures apart { (u : ℕ) → names u (knows result) ≤ 1 }
    {
        let Seat {
            mut inner,
            room,
            done,
        } = seat;
        let Seat {
            inner: second,
            room: more,
            done: is_done,
        } = other;
        self.table.shared.join_seat::<Both>(&mut inner, second);
        self.table.shared.load::<Merge>(&mut inner, CLAIMS);
        Seat {
            inner,
            room: room + more,
            done: done || is_done,
        }
    }

    /// How many seats can be made of this one.
    pub fn room(seat: &Seat) -> u32
        ensures { result ≡ (knows seat.now).room }
    {
        seat.room
    }
}
