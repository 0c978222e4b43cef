//! A new lane.
ghost use Rattle.std.specs.Prelude.{◌≡◌, ◌*◌, ◌<◌, [], All, IfOk, vec_len};
ghost use Rattle.tor_lane.specs.Lane.{IsAtMark, IsOpen, IsTakerOf, put_by, room_of, taken_by, takers_of};

use crate::chunk::Message;
use crate::feeder::Feeder;
use crate::rule::{Another, LaneRule};
use crate::taker::Taker;
use crate::view::View;
use crossbeam_channel::bounded_with;
use std::alloc::{AllocError, Global};

/// A feeder and so many takers. The channel between them has room for two messages a taker.
pub fn lane(alloc: Global, workers: u32) -> Result<(Feeder, Vec<Taker>), AllocError>
    requires { 0 < workers }
    ensures feeder { IfOk result (λ r. IsOpen r.0 × (put_by r.0 ≡ []) × (takers_of r.0 ≡ workers)) }
    ensures room { IfOk result (λ r. room_of r.0 ≡ 2 * workers) }
    ensures count { IfOk result (λ r. vec_len r.1 ≡ workers) }
    ensures takers { IfOk result (λ r. All (λ t. IsTakerOf r.0 t × (taken_by t ≡ []) × ¬ IsAtMark t) r.1.items) }
{
    let room = 2 * workers as usize;
    let (to, from, mut pass) = bounded_with::<Message, View, LaneRule, Global>(alloc, room)?;
    let mut takers = Vec::with_capacity(alloc, workers as usize)?;
    'takers: for _ in 0..workers {
        let from = from.try_clone()?;
        let pass = to.another::<Another>(&mut pass);
        takers.push_reserved(Taker {
            from,
            pass,
            stopped: false,
        });
    }
    Ok((Feeder { to, pass, workers }, takers))
}
