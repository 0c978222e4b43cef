//! The end of a lane that puts chunks.
ghost use Rattle.std.specs.Prelude.{◌≡◌, ◌*◌, ◌<◌, ◌++◌, ◌∷◌, [], All, IsPermutation, vec_len};
ghost use Rattle.std.specs.List.{flat_map};
ghost use Rattle.crossbeam_channel.specs.Claims.{IsSeatAt, view};
ghost use Rattle.crossbeam_channel.specs.Ends.{ruled_capacity, sends_on};
ghost use Rattle.tor_lane.specs.Rule.{CanPut};
ghost use Rattle.tor_lane.specs.Views.{putting};
ghost use Rattle.tor_lane.specs.steps.Ends.{IsFeeding};

use crate::chunk::{Chunk, Message};
use crate::rule::{Both, LanePass, LaneSender, Put, Settle};
use crate::taker::Taker;
use std::sync::Wait;

/// Puts chunks, and then a mark for each taker.
#[derive(Drop)]
pub struct Feeder {
    pub(crate) to: LaneSender,
    pub(crate) pass: LanePass,
    pub(crate) workers: u32,
    ghost seated: { IsSeatAt (sends_on to) pass },
    ghost feeding: { IsFeeding workers (view pass) },
    ghost some: { 0 < workers },
    ghost room: { ruled_capacity (sends_on to) ≡ 2 * workers },
}

impl Feeder {
    ghost use Rattle.tor_lane.specs.Lane.{FeedsLaneOf, IsAtMark, IsEnded, IsOpen, IsTakerOf, put_by, taken_by};
    ghost use Rattle.tor_lane.specs.Lane.{takers_of};

    /// Puts a chunk, which one taker takes. Waits while the channel is full.
    pub fn put<R: Wait>(&mut self, rt: &R, chunk: Chunk)
        requires { IsOpen self.old }
        ensures put { put_by self.new ≡ put_by self.old ++ chunk ∷ [] }
        ensures open { IsOpen self.new }
        ensures lane { FeedsLaneOf self.old self.new }
    {
        self.send(rt, Message::More(chunk));
    }

    /// Puts a mark for each taker, after which nothing is put.
    pub fn end<R: Wait>(&mut self, rt: &R)
        requires { IsOpen self.old }
        ensures ended { IsEnded self.new }
        ensures put { put_by self.new ≡ put_by self.old }
        ensures lane { FeedsLaneOf self.old self.new }
    {
        'marks: for _ in 0..self.workers {
            self.send(rt, Message::Mark);
        }
    }

    /// Shows that all its takers, each at its mark, together took what was put: each chunk once and unchanged.
    pub fn settle(self, takers: Vec<Taker>)
        requires ended { IsEnded self }
        requires all { vec_len takers ≡ takers_of self }
        requires takers { All (λ t. IsTakerOf self t × IsAtMark t) takers.items }
        ensures { IsPermutation (put_by self) (flat_map taken_by takers.items) }
    {
        let Feeder { to, mut pass, .. } = self;
        'takers: for taker in takers {
            to.absorb::<Both>(&mut pass, taker.into_pass());
        }
        to.learn_as::<Settle>(&mut pass);
    }

    // Puts a message. One that the channel hands back is sent again.
    fn send<R: Wait>(&mut self, rt: &R, message: Message)
        requires { CanPut (view self.old.pass) message }
        ensures put { view self.new.pass ≡ putting (view self.old.pass) message }
        ensures lane { FeedsLaneOf self.old self.new }
    {
        let mut message = message;
        'tries: for _ in rt.forever() {
            match self.to.send_as::<Put, R>(rt, &mut self.pass, message) {
                Ok(()) => return,
                Err(error) => message = error.into_inner(),
            }
        }
        unreachable!()
    }
}
