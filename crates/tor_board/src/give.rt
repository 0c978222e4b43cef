//! Giving the hash of a unit.
ghost use Rattle.std.specs.Prelude.{◌≡◌, ℕ, ◌+◌, ◌<◌, ◌≤◌, IfSome, MatchOption, Some};
ghost use Rattle.tor_board.specs.steps.Climbing.{IsClimbing, topped_view, rested_view};
ghost use Rattle.tor_board.specs.Desks.{Has, after_give};
ghost use Rattle.tor_board.specs.Seats.{knows, levels_above, IsClimbOf, IsSeatOf};
ghost use Rattle.tor_board.specs.Shapes.{IsShape, IsTreeOf};

use crate::board::Board;
use crate::climb::{Cells, TableSeat, arrive, begin, hand_alone, seal};
use crate::seat::{Job, Seat};
use crate::tree::{Spot, Tree};
use std::marker::Brand;
use tor_merkle::Hash;

/// What a give did: at how many nodes it came second, and the root of the tree that it completed, if any, with the
/// tree's number.
#[derive(Drop)]
pub struct Given {
    pub joined: u32,
    pub top: Option<(u64, Hash)>,
}

impl Board {
    /// Hands in a unit's hash, which climbs its tree as far as it is the second to arrive.
    pub fn give(&self, seat: &mut Seat, job: Job, hash: Hash) -> Given
        requires board { IsSeatOf self.now seat.old }
        requires job { Has (knows seat.old).held job.number }
        ensures board { IsSeatOf self.now seat.new }
        ensures given { (arrivals : ℕ)
            × (knows seat.new ≡ after_give (knows seat.old) job.number hash result.joined arrivals result.top)
            × (arrivals ≤ levels_above self.now job.number)
            × IsClimbOf self.now job.number result.joined arrivals result.top }
    {
        let Job { number } = job;
        let cells = &self.table.shared;
        let Seat {
            inner,
            room: _,
            done: _,
        } = seat;
        let Some(tree) = self.shape.tree_of(&self.starts, number) else {
            hand_alone::<Brand>(cells, inner, number, &hash);
            return Given {
                joined: 0,
                top: None,
            };
        };
        let start = begin(cells, inner, &tree, number, &hash);
        climb(cells, inner, &tree, start)
    }
}

// From a spot up, as far as this hash is the second to arrive.
fn climb(cells: &Cells, seat: &mut TableSeat, tree: &Tree, start: Spot) -> Given
    requires table { seat.old.table_id ≡ cells.now.table_id }
    requires shape { IsShape cells.now.table_id.words cells.now.table_id.slots cells.now.key }
    requires room { 0 < seat.old.me.0.room }
    requires tree { IsTreeOf cells.now.key tree.now }
    requires climbs { IsClimbing tree.now start.level start.index start.hash seat.old.me }
    requires low { start.level ≤ tree.now.height }
    ensures table { seat.new.table_id ≡ seat.old.table_id }
    ensures few { MatchOption result.top (result.joined + 1 ≤ tree.now.height) (λ _. result.joined ≤ tree.now.height) }
    ensures number { IfSome result.top (λ top. top.0 ≡ tree.now.number) }
    ensures view { MatchOption result.top
        (seat.new.me ≡ rested_view result.joined seat.old.me.0)
        (λ top. seat.new.me ≡ topped_view result.joined top seat.old.me.0) }
{
    let mut spot = start;
    let mut joined = 0;
    'nodes: while spot.level < tree.height {
        match arrive(cells, seat, tree, spot) {
            None => return Given { joined, top: None },
            Some(next) => {
                spot = next;
                joined += 1;
            }
        }
    }
    seal(cells, seat, tree, &spot);
    Given {
        joined,
        top: Some((tree.number, spot.hash)),
    }
}
