//! What holds of a board between any two steps, and of the machine of events that it is.
ghost use Rattle.std.specs.Prelude.{◌≡◌, ◌≢◌, ◌<◌, ◌⊎◌, true, ℕ, ◌+◌, ◌≤◌, List, [], ◌∷◌, ◌++◌, None, slice_index};
ghost use Rattle.std.specs.Prelude.{slice_set};
ghost use Rattle.std.specs.List.Sorted.{IsPermutation};
ghost use mathlib.Core.Option.{some};
ghost use lib.ListN.{get_elem?};
ghost use Rattle.atomic_table.specs.Table.{State, Step};
ghost use Rattle.tor_plan.specs.Forest.{AreRuns};
ghost use Rattle.tor_plan.specs.declared.forests.Run.{Run};
ghost use Rattle.tor_board.specs.Examples.{IsExcluded, end, events, forest, rising_end, rising_events, three_units};
ghost use Rattle.tor_board.specs.Machine.{Event, Machine, IsLegalRun, IsLawfulState};
ghost use Rattle.tor_board.specs.Machine.{look, claim, hand, arrive, seal, fail, split, join};
ghost use Rattle.tor_board.specs.Plays.{IsFree};
ghost use Rattle.tor_board.specs.Rule.{Keeps, nobody};
ghost use Rattle.tor_board.specs.Running.{IsRunning};
ghost use Rattle.tor_board.specs.Shapes.{AreApart, IsShape};
ghost use Rattle.tor_board.specs.Stepping.{Shows, AreHome, IsBoardStep, IsEvent, IsHistory, IsNoStep, IsRunOf};
ghost use Rattle.tor_board.specs.Stepping.{IsStepOf};
ghost use Rattle.tor_board.specs.declared.board.Board.{Board};
ghost use Rattle.tor_board.specs.declared.seat.Seat.{Seat};
ghost use Rattle.tor_board.specs.declared.tree.Shape.{Shape};
ghost use Rattle.tor_board.specs.declared.view.View.{View};

use crate::board::Board;
use crate::rule::{Arrive, BoardRule, Both, Claim, Fail, Halves, Hand, Handing, Look, Merge, Seal};
use crate::seat::Seat;
use crate::tree::Shape;
use crate::view::View;
use atomic_table::{Join, Play, Split, TableRule};
use tor_merkle::Hash;

/// A seat is done only if a unit has failed or all were claimed; the claims are at most 256 more than the units. Words
/// and views are lawful. By the machine that stands where the board does, the slot of each side that has arrived, if it
/// is at home, holds the root over its side's hashes, and that of each tree whose top was told the tree's root. Each
/// step is the event of its name, so that what happened to a board is a legal run of the machine. Of the machine alone:
/// every legal run ends lawful.
pub fn board_law()
    ensures reason { (shape : Shape) (state : State (List ℕ) View) → Keeps shape state →
        (i : ℕ) (v : View) → get_elem? state.views i ≡ some v → v.done ≡ true →
        (slice_index state.words 1 < nobody) ⊎ (shape.units ≤ slice_index state.words 0) }
    ensures few_claims { (shape : Shape) (state : State (List ℕ) View) → Keeps shape state →
        slice_index state.words 0 ≤ shape.units + 256 }
    ensures running { (words slots : ℕ) (shape : Shape) (state : State (List ℕ) View) → IsShape words slots shape →
        Keeps shape state → IsRunning shape state }
    ensures homes { (words slots : ℕ) (shape : Shape) (m : Machine) (s : State (List ℕ) View) →
        IsShape words slots shape → Keeps shape s → Shows shape m s → AreHome shape m s }
    ensures events { (words slots : ℕ) (shape : Shape) → IsShape words slots shape
        → (m : Machine) (s s' : State (List ℕ) View) →
        Keeps shape s → Keeps shape s' → Shows shape m s → (id : ℕ) (v : View) (has : List (ℕ × List ℕ)) (e : Event) →
        get_elem? s.views id ≡ some v → IsBoardStep shape s id v has e s' → IsEvent shape m id e s' }
    ensures history { (words slots : ℕ) (shape : Shape) → IsShape words slots shape →
        (events : List (ℕ × Event)) (s : State (List ℕ) View) → IsHistory shape events s → IsRunOf shape events s }
    ensures runs { (units : ℕ) (forest : List Run) (events : List (ℕ × Event)) (m : Machine) →
        IsLegalRun units forest events m → IsLawfulState units forest m }
{}

/// A board is a table of the kit under `BoardRule`. That rule is the one of which `board_law` speaks; a table that
/// keeps it, and has a first seat alone, is a board that has just opened. Each step of that table at which the rule
/// holds before and after is the board's step of the event of its name, whatever operation takes it. So are its cuts of
/// a seat and its joins of two, and the load that follows a join changes no word and no view. A board's words and slots
/// fit its trees, and a seat is in no climb between two calls.
pub fn rule_law<J: Handing>()
    ensures rule { (shape : Shape) (state : State (List ℕ) View) →
        ⟦<BoardRule as TableRule<Hash, View, Shape>>⟧.holds shape state → Keeps shape state }
    ensures begins { (shape : Shape) (s : State (List ℕ) View) → Keeps shape s →
        s.views ≡ ⟦<BoardRule as TableRule<Hash, View, Shape>>⟧.first shape ∷ [] → IsHistory shape [] s }
    ensures steps { (shape : Shape) (st : Step (List ℕ)) →
        IsStepOf shape look st ⟦<Look as Play<Hash, View>>⟧.then
        × IsStepOf shape claim st ⟦<Claim as Play<Hash, View>>⟧.then
        × IsStepOf shape (hand J.unit J.hash) st ⟦<Hand<J> as Play<Hash, View>>⟧.then
        × IsStepOf shape arrive st ⟦<Arrive as Play<Hash, View>>⟧.then
        × IsStepOf shape seal st ⟦<Seal as Play<Hash, View>>⟧.then
        × IsStepOf shape (fail st.first) st ⟦<Fail as Play<Hash, View>>⟧.then }
    ensures merges { (shape : Shape) (st : Step (List ℕ)) → IsNoStep shape st ⟦<Merge as Play<Hash, View>>⟧.then }
    ensures cut { (shape : Shape) (s : State (List ℕ) View) (id : ℕ) (v : View) (has : List (ℕ × List ℕ)) →
        2 ≤ v.room → v.climb ≡ None → IsBoardStep shape s id v has split record {
          words = s.words;
          homes = s.homes;
          views = slice_set s.views id (⟦<Halves as Split<View>>⟧.left v) ++ ⟦<Halves as Split<View>>⟧.right v ∷ [];
        } }
    ensures joined { (shape : Shape) (s : State (List ℕ) View) (id : ℕ) (v : View) (has : List (ℕ × List ℕ)) →
        (other : ℕ) (w : View) → get_elem? s.views other ≡ some w → other ≢ id → IsFree v → IsFree w →
        IsBoardStep shape s id v has (join other) record {
          words = s.words;
          homes = s.homes;
          views = slice_set (slice_set s.views id (⟦<Both as Join<View>>⟧.both v w)) other ⟦<Both as Join<View>>⟧.spent;
        } }
    ensures board { (b : Board) → (b.table.shared.key ≡ b.shape)
        × IsShape b.table.shared.table_id.words b.table.shared.table_id.slots b.shape }
    ensures seat { (s : Seat) → IsFree s.inner.me.0 × (s.inner.me.1 ≡ []) }
{}

/// Runs in the order of their units, each after the one before it, are apart, and so are they in any other order. So a
/// board opens over a plan's forest, in whatever order its runs are handed in.
pub fn runs_are_apart()
    ensures rising { (units from : ℕ) (runs : List Run) → AreRuns units from runs → AreApart units runs }
    ensures moved { (units : ℕ) (runs moved : List Run) → AreApart units runs → IsPermutation runs moved
        → AreApart units moved }
{}

/// Two runs of the machine that are worked out, and what is no event of it.
pub fn machine_examples()
    ensures worked { (a b : List ℕ) → IsLegalRun 3 forest (events a b) (end a b) }
    ensures risen { (a b c : List ℕ) → IsLegalRun 3 (three_units ∷ []) (rising_events a b c) (rising_end a b c) }
    ensures excluded { (units : ℕ) (forest : List Run) → IsExcluded units forest }
{}
