//! The end of a lane that takes chunks.
ghost use Rattle.std.specs.Prelude.{◌≡◌, ◌++◌, ◌∷◌, [], IfNone, IfSome, IsNone};
ghost use Rattle.crossbeam_channel.specs.Claims.{IsSeatAt, view};
ghost use Rattle.crossbeam_channel.specs.Ends.{receives_on};
ghost use Rattle.tor_lane.specs.steps.Ends.{IsTaking};

use crate::chunk::{Chunk, Message};
use crate::rule::{LanePass, LaneReceiver, Take};
use std::sync::Wait;

/// Takes chunks until its mark. A taker that is let go before leaves its mark in the channel, and its lane cannot be
/// settled.
#[derive(Drop)]
pub struct Taker {
    pub(crate) from: LaneReceiver,
    pub(crate) pass: LanePass,
    pub(crate) stopped: bool,
    ghost seated: { IsSeatAt (receives_on from) pass },
    ghost taking: { IsTaking stopped (view pass) },
}

impl Taker {
    ghost use Rattle.tor_lane.specs.Lane.{IsAtMark, TakesFromLaneOf, taken_by};

    /// The next chunk: waits until there is one. None at this taker's mark, and from then on.
    pub fn take<R: Wait>(&mut self, rt: &R) -> Option<Chunk>
        ensures some { IfSome result (λ chunk. taken_by self.new ≡ taken_by self.old ++ chunk ∷ []) }
        ensures unmarked { IfSome result (λ _. ¬ IsAtMark self.new) }
        ensures none { IfNone result (IsAtMark self.new × (taken_by self.new ≡ taken_by self.old)) }
        ensures after { IsAtMark self.old → IsNone result }
        ensures lane { TakesFromLaneOf self.old self.new }
    {
        if self.stopped {
            return None;
        }
        'tries: for _ in rt.forever() {
            match self.from.recv_as::<Take, R>(rt, &mut self.pass) {
                Ok(Message::More(chunk)) => return Some(chunk),
                Ok(Message::Mark) => {
                    self.stopped = true;
                    return None;
                }
                // It was empty at one moment.
                Err(_) => {}
            }
        }
        unreachable!()
    }

    pub(crate) fn into_pass(self) -> LanePass
        ensures { result ≡ self.pass }
    {
        let Taker { pass, .. } = self;
        pass
    }
}
