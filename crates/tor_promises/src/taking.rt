//! Chunks of a lane.
ghost use Rattle.std.specs.Prelude.{◌≡◌, ◌++◌, ◌∷◌, [], IfNone, IfSome, IsNone};
ghost use Rattle.tor_lane.specs.Lane.{IsAtMark, TakesFromLaneOf, taken_by};

use std::sync::Wait;
use tor_lane::{Chunk, Taker};

/// The next chunk: waits until there is one. None at this taker's mark, and from then on.
pub fn next_chunk<R: Wait>(rt: &R, taker: &mut Taker) -> Option<Chunk>
    ensures some { IfSome result (λ chunk. taken_by taker.new ≡ taken_by taker.old ++ chunk ∷ []) }
    ensures unmarked { IfSome result (λ _. ¬ IsAtMark taker.new) }
    ensures none { IfNone result (IsAtMark taker.new × (taken_by taker.new ≡ taken_by taker.old)) }
    ensures after { IsAtMark taker.old → IsNone result }
    ensures lane { TakesFromLaneOf taker.old taker.new }
{
    taker.take(rt)
}
