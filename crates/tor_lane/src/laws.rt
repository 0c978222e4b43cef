//! What holds of a lane between any two steps.
ghost use Rattle.std.specs.Prelude.{◌≡◌, ◌≢◌, ◌*◌, true, false, ℕ, List, [], ◌∷◌, ◌++◌, slice_set};
ghost use mathlib.Core.Option.{some};
ghost use lib.ListN.{get_elem?};
ghost use Rattle.crossbeam_channel.specs.Claims.{view};
ghost use Rattle.tor_lane.specs.Lane.{room_of, takers_of};
ghost use Rattle.tor_lane.specs.Reached.{IsReached};
ghost use Rattle.tor_lane.specs.Rule.{CanPut, CanTake, HasOneFeeder, IsAllThere, Keeps};
ghost use Rattle.tor_lane.specs.Views.{both, first, fresh, making, putting, spent, taking};
ghost use Rattle.tor_lane.specs.declared.chunk.Message.{Message};
ghost use Rattle.tor_lane.specs.declared.feeder.Feeder.{Feeder};
ghost use Rattle.tor_lane.specs.declared.taker.Taker.{Taker};
ghost use Rattle.tor_lane.specs.declared.view.View.{View};

use crate::chunk::Message;
use crate::rule::{Another, Both, LaneRule, Put, Take};
use crate::view::View;
use crossbeam_channel::protocol::{Join, Outcome, Protocol, Split};

/// Whatever steps a lane's ends make, in any order: one end feeds; what the takers took, with what is in the channel,
/// is what the feeder put, each chunk once and unchanged; chunks leave the channel in the order in which they were put,
/// and the marks last, of which there is at most one a taker; and the channel holds at most two messages a taker.
pub fn lane_law()
    ensures reached { (items : List Message) (views : List View) → IsReached items views → Keeps items views }
    ensures fed { (items : List Message) (views : List View) → Keeps items views → HasOneFeeder views }
    ensures whole { (items : List Message) (views : List View) → Keeps items views → (at : ℕ) (v : View)
        → get_elem? views at ≡ some v → v.feeds ≡ true → IsAllThere items views v }
{}

/// A lane is a channel of the kit under `LaneRule`. That rule is the one of which `lane_law` speaks. A send and a
/// receive tell what they do to what their end knows, and that it was that end's turn: the feeder puts, and a taker
/// takes until its mark. From a channel that a lane's ends can have led to, each send, receive, making of a taker and
/// learning that keeps the rule leads to another. A feeder knows how many takers its lane has, and its channel has room
/// for two messages each.
pub fn rule_law()
    ensures rule { (items : List Message) (views : List View) →
        ⟦<LaneRule as Protocol<Message, View>>⟧.holds items views → Keeps items views }
    ensures begins { (⟦<LaneRule as Protocol<Message, View>>⟧.first ≡ first)
        × IsReached [] (⟦<LaneRule as Protocol<Message, View>>⟧.first ∷ []) }
    ensures told { (v : View) (x : Message) (w : View) →
        (⟦<Put as Outcome<Message, View>>⟧.then v x w → (w ≡ putting v x) × CanPut v x)
        × (⟦<Take as Outcome<Message, View>>⟧.then v x w → (w ≡ taking v x) × CanTake v) }
    ensures made { (v : View) → (⟦<Another as Split<View>>⟧.left v ≡ making v)
        × (⟦<Another as Split<View>>⟧.right v ≡ fresh v) }
    ensures joined { (v w : View) → (⟦<Both as Join<View>>⟧.both v w ≡ both v w)
        × (⟦<Both as Join<View>>⟧.spent ≡ spent) }
    ensures sends { (items : List Message) (views : List View) (at : ℕ) (v : View) (x : Message) (w : View) →
        IsReached items views → get_elem? views at ≡ some v → ⟦<Put as Outcome<Message, View>>⟧.then v x w →
        ⟦<LaneRule as Protocol<Message, View>>⟧.holds (items ++ x ∷ []) (slice_set views at w) →
        IsReached (items ++ x ∷ []) (slice_set views at w) }
    ensures receives { (items : List Message) (views : List View) (at : ℕ) (v : View) (x : Message) (w : View) →
        IsReached (x ∷ items) views → get_elem? views at ≡ some v → ⟦<Take as Outcome<Message, View>>⟧.then v x w →
        IsReached items (slice_set views at w) }
    ensures makes { (items : List Message) (views : List View) (at : ℕ) (v : View) →
        IsReached items views → get_elem? views at ≡ some v →
        ⟦<LaneRule as Protocol<Message, View>>⟧.holds items (slice_set views at (making v) ++ fresh v ∷ []) →
        IsReached items (slice_set views at (making v) ++ fresh v ∷ []) }
    ensures learns { (items : List Message) (views : List View) (at other : ℕ) (v w : View) →
        IsReached items views → get_elem? views at ≡ some v → get_elem? views other ≡ some w → other ≢ at →
        ⟦<LaneRule as Protocol<Message, View>>⟧.holds items (slice_set (slice_set views at (both v w)) other spent) →
        IsReached items (slice_set (slice_set views at (both v w)) other spent) }
    ensures feeder { (f : Feeder) → ((view f.pass).feeds ≡ true) × ((view f.pass).made ≡ takers_of f)
        × (room_of f ≡ 2 * takers_of f) }
    ensures taker { (t : Taker) → ((view t.pass).feeds ≡ false) × ((view t.pass).takers ≡ 1) }
{}
