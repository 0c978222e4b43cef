//! What a seat knows, of which no value is ever made.
ghost use Rattle.std.specs.Prelude.{ℕ, List, Bool, Option};
ghost use Rattle.std.specs.Borrow.{ftrue};
ghost use Rattle.tor_board.specs.Climb.{Climb};
ghost use Rattle.tor_board.specs.Desks.{GivenUnit};

use std::marker::Model;

/// What a seat knows: how many units the board has, how many claims it made, its own work, and the climb that it is
/// in.
pub struct View {
    pub ghost units: { ℕ },
    pub ghost claims: { ℕ },
    pub ghost room: { ℕ },
    pub ghost held: { List ℕ },
    pub ghost given: { List GivenUnit },
    pub ghost failed: { List ℕ },
    pub ghost done: { Bool },
    pub ghost looked: { Bool },
    pub ghost arrivals: { ℕ },
    pub ghost climb: { Option Climb },
    pub ghost tops: { List (ℕ × List ℕ) },
}

impl Model for View {
    ghost also_owns = { λ _. ftrue };
}
