//! Lanes of one worker and of two, in one thread: the channel has the room for all that is put.
ghost use Rattle.std.specs.Prelude.{◌≡◌};
ghost use Rattle.tor_lane.specs.Lane.{IsAtMark, IsEnded, IsOpen, IsTakerOf, TakesFromLaneOf, takers_of};

use std::process::Abort;
use std::sync::Wait;
use tor_lane::{Chunk, Feeder, Taker, lane};

/// A chunk of two bytes.
fn chunk<R: AllocGlobal + Abort>(rt: &R, unit: u64, byte: u8, zeros: u64) -> Chunk {
    let bytes = vec![in rt.alloc(); byte; 2].expect(rt, "memory");
    Chunk { unit, bytes, zeros }
}

/// Whether the chunk is that one.
fn is_chunk(found: &Chunk, unit: u64, byte: u8, zeros: u64) -> bool {
    found.unit == unit && found.bytes.as_slice() == [byte, byte].as_slice() && found.zeros == zeros
}

/// The next chunk, which has to be there.
fn next<R: Abort + Wait>(rt: &R, taker: &mut Taker) -> Chunk
    ensures { TakesFromLaneOf taker.old taker.new }
{
    match taker.take(rt) {
        Some(chunk) => chunk,
        None => panic!(rt; "no chunk"),
    }
}

/// A lane of one worker.
fn lane_of_one<R: AllocGlobal + Abort>(rt: &R) -> (Feeder, Taker)
    ensures { IsOpen result.0 × (takers_of result.0 ≡ 1) × IsTakerOf result.0 result.1 }
{
    let (feeder, mut takers) = lane(rt.alloc(), 1).expect(rt, "memory");
    match takers.pop() {
        Some(taker) => (feeder, taker),
        None => panic!(rt; "no taker"),
    }
}

/// Settles a lane of one worker.
fn settle_one<R: AllocGlobal + Abort>(rt: &R, feeder: Feeder, taker: Taker)
    requires { IsEnded feeder × (takers_of feeder ≡ 1) × IsTakerOf feeder taker × IsAtMark taker }
{
    let takers = vec![in rt.alloc(); taker].expect(rt, "memory");
    feeder.settle(takers);
}

/// Whether the next chunk is that one.
fn gives<R: Abort + Wait>(rt: &R, taker: &mut Taker, unit: u64, byte: u8, zeros: u64) -> bool
    ensures { TakesFromLaneOf taker.old taker.new }
{
    is_chunk(&next(rt, taker), unit, byte, zeros)
}

#[test]
fn one_worker(rt: HostRuntime) {
    let (mut feeder, mut taker) = lane_of_one(&rt);
    feeder.put(&rt, chunk(&rt, 8, 5, 3));
    feeder.end(&rt);
    assert!(rt; gives(&rt, &mut taker, 8, 5, 3));
    let None = taker.take(&rt) else {
        panic!(rt; "a chunk too many")
    };
    settle_one(&rt, feeder, taker);
}

/// Whether a taker gets no chunk, however often it asks.
fn gets_none<R: Wait>(rt: &R, taker: &mut Taker, times: u32) -> bool {
    'takes: for _ in 0..times {
        if taker.take(rt).is_some() {
            return false;
        }
    }
    true
}

fn is_ended_for_ever<R: AllocGlobal + Abort + Wait>(rt: &R) -> bool {
    let (mut feeder, mut taker) = lane_of_one(rt);
    feeder.end(rt);
    gets_none(rt, &mut taker, 100)
}

/// Whether one of two takers gets both chunks, and each is at its own mark then.
fn takes_both<R: AllocGlobal + Abort + Wait>(rt: &R, one: &mut Taker, other: &mut Taker) -> bool {
    gives(rt, one, 0, 1, 0)
        && gives(rt, one, 1, 2, 7)
        && gets_none(rt, one, 2)
        && gets_none(rt, other, 1)
}

fn are_at_their_marks<R: AllocGlobal + Abort + Wait>(rt: &R) -> bool {
    let (mut feeder, mut takers) = lane(rt.alloc(), 2).expect(rt, "memory");
    feeder.put(rt, chunk(rt, 0, 1, 0));
    feeder.put(rt, chunk(rt, 1, 2, 7));
    feeder.end(rt);
    match takers.as_mut_slice() {
        [one, other] => takes_both(rt, one, other),
        _ => false,
    }
}

#[test]
fn an_ended_lane_gives_none_for_ever(rt: HostRuntime) {
    assert!(rt; is_ended_for_ever(&rt) && are_at_their_marks(&rt));
}
