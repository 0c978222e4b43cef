//! The way of a hash up its tree, step by step.
//!
//! What the loads of word 0 find is not used: each is the moment from which on a unit is given, or a root told.
ghost use Rattle.std.specs.Prelude.{◌≡◌, ◌≢◌, ℕ, ◌+◌, ◌-◌, ◌*◌, ◌<◌, ◌≤◌, List, [], ◌∷◌, Some, None, IfSome, IfNone};
ghost use Rattle.tor_board.specs.Climb.{Climb};
ghost use Rattle.tor_board.specs.steps.Climbing.{IsClimbing, IsIdle};
ghost use Rattle.tor_board.specs.Rising.{climb_from};
ghost use Rattle.tor_board.specs.Desks.{Has};
ghost use Rattle.tor_board.specs.Shapes.{IsShape, IsTreeOf};
ghost use Rattle.tor_board.specs.Views.{handed, rested, joining, topped};
ghost use Rattle.tor_board.specs.declared.tree.Tree.{Tree};

use crate::board::CLAIMS;
use crate::rule::{Arrive, BoardRule, Hand, Handing, Seal};
use crate::tree::{Shape, Spot, Tree, middle};
use crate::view::View;
use atomic_table::Shared;
use std::marker::Brand;
use tor_merkle::{Hash, pair};

/// The words and slots of a board.
pub(crate) type Cells = Shared<Hash, View, Shape, BoardRule>;

/// A seat of the table, which in the middle of a climb has slots.
pub(crate) type TableSeat = atomic_table::Seat<Hash, View>;

/// One load, at which a unit of no tree moves from the held to the given ones.
pub(crate) fn hand_alone<J: Handing>(cells: &Cells, seat: &mut TableSeat, _unit: u64, _hash: &Hash)
    requires picked { (J.tree ≡ None) × (J.unit ≡ _unit) × (J.hash ≡ _hash.now) }
    requires table { seat.old.table_id ≡ cells.now.table_id }
    requires shape { IsShape cells.now.table_id.words cells.now.table_id.slots cells.now.key }
    requires idle { IsIdle seat.old.me }
    requires held { Has seat.old.me.0.held _unit }
    requires alone { (t : Tree) → IsTreeOf cells.now.key t → (j : ℕ) → j < t.count → _unit ≢ t.first + j }
    ensures table { seat.new.table_id ≡ seat.old.table_id }
    ensures given { seat.new.me ≡ (handed seat.old.me.0 _unit _hash.now None, []) }
{
    cells.load::<Hand<J>>(seat, CLAIMS);
}

/// One load, at which a unit of a tree moves from the held to the given ones, and its climb begins.
pub(crate) fn hand_in<J: Handing>(
    cells: &Cells,
    seat: &mut TableSeat,
    _tree: &Tree,
    _unit: u64,
    _hash: &Hash,
)
    requires picked { (J.tree ≡ Some _tree.now) × (J.unit ≡ _unit) × (J.hash ≡ _hash.now) }
    requires table { seat.old.table_id ≡ cells.now.table_id }
    requires shape { IsShape cells.now.table_id.words cells.now.table_id.slots cells.now.key }
    requires idle { IsIdle seat.old.me }
    requires held { Has seat.old.me.0.held _unit }
    requires tree { IsTreeOf cells.now.key _tree.now × (_tree.now.first ≤ _unit)
        × (_unit < _tree.now.first + _tree.now.count) }
    ensures table { seat.new.table_id ≡ seat.old.table_id }
    ensures given { (z : List ℕ)
        × (seat.new.me ≡ (
          handed seat.old.me.0 _unit _hash.now
              (Some (climb_from _tree.now 0 (_unit - _tree.now.first) _hash.now [])),
          ((climb_from _tree.now 0 (_unit - _tree.now.first) _hash.now []).slot, z) ∷ [],
        )) }
{
    cells.load::<Hand<J>>(seat, CLAIMS);
}

/// Gives a unit of a tree: its hash stands where it rises to.
pub(crate) fn begin(
    cells: &Cells,
    seat: &mut TableSeat,
    tree: &Tree,
    unit: u64,
    hash: &Hash,
) -> Spot
    requires table { seat.old.table_id ≡ cells.now.table_id }
    requires shape { IsShape cells.now.table_id.words cells.now.table_id.slots cells.now.key }
    requires idle { IsIdle seat.old.me }
    requires held { Has seat.old.me.0.held unit }
    requires tree { IsTreeOf cells.now.key tree.now × (tree.now.first ≤ unit)
        × (unit < tree.now.first + tree.now.count) }
    ensures table { seat.new.table_id ≡ seat.old.table_id }
    ensures low { result.level ≤ tree.now.height }
    ensures climbs { IsClimbing tree.now result.level result.index result.hash seat.new.me }
    ensures given { (c : Climb) × (seat.new.me.0 ≡ handed seat.old.me.0 unit hash.now (Some c)) }
{
    hand_in::<Brand>(cells, seat, tree, unit, hash);
    let spot = tree.risen(Spot {
        level: 0,
        index: unit - tree.first,
        hash: *hash,
    });
    cells.exchange(seat, tree.slot_at(spot.level, spot.index), spot.hash);
    spot
}

/// One step: the first to arrive at the node above rests; the second joins the two hashes, and stands at the next
/// spot.
pub(crate) fn arrive(cells: &Cells, seat: &mut TableSeat, tree: &Tree, spot: Spot) -> Option<Spot>
    requires table { seat.old.table_id ≡ cells.now.table_id }
    requires shape { IsShape cells.now.table_id.words cells.now.table_id.slots cells.now.key }
    requires room { 0 < seat.old.me.0.room }
    requires tree { IsTreeOf cells.now.key tree.now }
    requires climbs { IsClimbing tree.now spot.level spot.index spot.hash seat.old.me }
    requires below { spot.level < tree.now.height }
    ensures table { seat.new.table_id ≡ seat.old.table_id }
    ensures first { IfNone result (seat.new.me ≡ (rested seat.old.me.0, [])) }
    ensures low { IfSome result (λ s. (spot.level < s.level) × (s.level ≤ tree.now.height)) }
    ensures climbs { IfSome result (λ s. IsClimbing tree.now s.level s.index s.hash seat.new.me) }
    ensures second { IfSome result (λ s. (c : Climb) × (seat.new.me.0 ≡ joining seat.old.me.0 c)) }
{
    let Spot { level, index, hash } = spot;
    let node = middle(level, index / 2);
    let found = cells.fetch_add::<Arrive>(seat, tree.word(node), 1);
    if found == 0 {
        return None;
    }
    let beside = *seat.slot_mut(cells, tree.side_slot(node, 1 - index % 2));
    let joined = if index % 2 == 0 {
        pair(&hash, &beside)
    } else {
        pair(&beside, &hash)
    };
    let next = tree.risen(Spot {
        level: level + 1,
        index: index / 2,
        hash: joined,
    });
    seat.turn();
    cells.exchange(seat, tree.slot_at(next.level, next.index), next.hash);
    seat.turn();
    Some(next)
}

/// One load, at which the root of a tree is told.
pub(crate) fn seal(cells: &Cells, seat: &mut TableSeat, _tree: &Tree, _spot: &Spot)
    requires table { seat.old.table_id ≡ cells.now.table_id }
    requires shape { IsShape cells.now.table_id.words cells.now.table_id.slots cells.now.key }
    requires room { 0 < seat.old.me.0.room }
    requires tree { IsTreeOf cells.now.key _tree.now }
    requires climbs { IsClimbing _tree.now _spot.now.level _spot.now.index _spot.now.hash seat.old.me }
    requires top { _tree.now.height ≤ _spot.now.level }
    ensures table { seat.new.table_id ≡ seat.old.table_id }
    ensures told { seat.new.me ≡ (topped seat.old.me.0 _tree.now.number _spot.now.hash, []) }
{
    cells.load::<Seal>(seat, CLAIMS);
}
