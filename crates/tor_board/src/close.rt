//! The end of a board.
ghost use Rattle.std.specs.Prelude.{◌≡◌, ℕ, ◌<◌, [], false, None, length, replicate, slice_index_or, MatchOption};
ghost use mathlib.Core.Option.{some};
ghost use lib.ListN.{get_elem?};
ghost use Rattle.std.specs.Mem.Slots.{slots_items, slots_filled, slots_len, IsFull};
ghost use Rattle.tor_plan.specs.declared.forests.Run.{Run};
ghost use Rattle.tor_board.specs.Results.{IsTreeEnd};
ghost use Rattle.tor_board.specs.steps.Row.{IsLeft};
ghost use Rattle.tor_board.specs.Shapes.{IsShape};
ghost use Rattle.tor_board.specs.declared.tree.Tree.{Tree};
ghost use Rattle.tor_board.specs.Seats.{knows, unit_count, forest_of, IsSeatOf, IsLeastOf, IsAllGiven};

use crate::board::{Board, LEAST_FAILED, NONE_FAILED};
use crate::seat::Seat;
use crate::tree::{Shape, middle};
use std::alloc::Global;
use tor_merkle::Hash;

/// What a board tells in the end: the least unit that failed, and the roots of the trees whose units were all given.
#[derive(Drop)]
pub struct Closed {
    pub least_failed: Option<u64>,
    pub roots: Vec<Option<Hash>>,
}

impl Board {
    /// Ends the board, once all its seats are one.
    pub fn close(self, seat: Seat) -> Closed
        requires seat { IsSeatOf self seat }
        requires whole { (knows seat).room ≡ 256 }
        ensures least { MatchOption result.least_failed ((knows seat).failed ≡ []) (IsLeastOf (knows seat).failed) }
        ensures all { IsAllGiven (unit_count self) (knows seat) result.least_failed }
        ensures count { length result.roots.items ≡ length (forest_of self) }
        ensures roots { (k : ℕ) (run : Run) → get_elem? (forest_of self) k ≡ some run
            → IsTreeEnd (knows seat).given (knows seat).tops k run (slice_index_or result.roots.items k None) }
    {
        let Board {
            table,
            shape,
            starts: _,
            mut roots,
        } = self;
        let Seat {
            inner,
            room: _,
            done: _,
        } = seat;
        let mut ended = table.close_with(inner);
        let least = ended.word(LEAST_FAILED);
        take_roots(&mut ended, &shape, &mut roots);
        ended.free();
        let least_failed = if least == NONE_FAILED {
            None
        } else {
            Some(least)
        };
        Closed {
            least_failed,
            roots,
        }
    }
}

// Takes the value of every slot: each tree to whose highest node two came gets its root.
fn take_roots(
    ended: &mut atomic_table::Closed<Hash, Global>,
    shape: &Shape,
    roots: &mut Vec<Option<Hash>>,
)
    requires shape { IsShape (slots_len ended.old.words) (slots_len ended.old.slots) shape.now }
    requires full { IsFull ended.old.words × IsFull ended.old.slots }
    requires bare { roots.old.items ≡ replicate (length shape.now.trees.items) None }
    ensures taken { (k : ℕ) → k < slots_len ended.new.slots
        → slice_index_or (slots_filled ended.new.slots) k false ≡ false }
    ensures count { length roots.new.items ≡ length shape.now.trees.items }
    ensures roots { (k : ℕ) (t : Tree) → get_elem? shape.now.trees.items k ≡ some t
        → IsLeft (slots_items ended.old.words) (slots_items ended.old.slots) t (slice_index_or roots.new.items k None) }
{
    // The first tree whose root's slot is still to come.
    let mut next = 0;
    'slots: for slot in 0..ended.slot_count() {
        let hash = ended.take(slot);
        if next < shape.trees.len() && shape.trees[next].side_slot(0, 0) == slot {
            let tree = shape.trees[next];
            if ended.word(tree.word(middle(tree.height - 1, 0))) >= 2 {
                roots[next] = Some(hash);
            }
            next += 1;
        }
    }
}
