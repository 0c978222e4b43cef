//! The rule of a lane's channel, and what each step on it tells.
//!
//! Only the prover reads these structs, of which no value is ever made: a call on the channel names one, as in
//! `send_as::<Put, R>`, so that its step is known to keep the rule.
ghost use Rattle.std.specs.Prelude.{◌≡◌, ⊤};
ghost use Rattle.tor_lane.specs.Rule.{CanPut, CanTake};

use crate::chunk::Message;
use crate::view::View;
use crossbeam_channel::protocol::{Join, Lesson, Outcome, Protocol, Split};
use crossbeam_channel::{Pass, RuledReceiver, RuledSender};
use std::alloc::Global;

/// The rule that every step keeps.
pub struct LaneRule;

impl Protocol<Message, View> for LaneRule {
    ghost use Rattle.tor_lane.specs.Rule.{Keeps};
    ghost use Rattle.tor_lane.specs.Views.{first};

    ghost holds = { Keeps };

    ghost first = { first };
}

/// A message is put.
pub struct Put;

impl Outcome<Message, View> for Put {
    ghost use Rattle.tor_lane.specs.Views.{putting};

    ghost then = { λ v x w. (w ≡ putting v x) × CanPut v x };
}

impl Lesson<Message, View> for Put {
    ghost fact = { λ v items. ⊤ };
}

/// A message is taken.
pub struct Take;

impl Outcome<Message, View> for Take {
    ghost use Rattle.tor_lane.specs.Views.{taking};

    ghost then = { λ v x w. (w ≡ taking v x) × CanTake v };
}

impl Lesson<Message, View> for Take {
    ghost fact = { λ v items. ⊤ };
}

/// How a taker is made.
pub struct Another;

impl Split<View> for Another {
    ghost use Rattle.tor_lane.specs.Views.{making, fresh};

    ghost left = { making };

    ghost right = { fresh };
}

/// How the feeder learns what a taker did.
pub struct Both;

impl Join<View> for Both {
    ghost use Rattle.tor_lane.specs.Views.{both, spent};

    ghost both = { both };

    ghost spent = { spent };
}

/// What the feeder sees once it knows of all its takers.
pub struct Settle;

impl Lesson<Message, View> for Settle {
    ghost use Rattle.tor_lane.specs.steps.Ends.{Settles};

    ghost fact = { Settles };
}

pub(crate) type LaneSender = RuledSender<Message, View, LaneRule>;

pub(crate) type LaneReceiver = RuledReceiver<Message, View, LaneRule>;

pub(crate) type LanePass = Pass<Message, View>;
