//! Three callers' threads take from a lane.
ghost use Rattle.tor_lane.specs.Lane.{IsOpen};

use std::process::Abort;
use std::sync::Wait;
use std::thread::{self, JoinHandle, Scope, Threads};
use tor_lane::{Chunk, Feeder, Taker, lane};

/// The numbers of the units that a taker takes, until its mark.
fn units_of<R: AllocGlobal + Abort + Wait>(rt: &R, mut taker: Taker) -> Vec<u64> {
    let mut units = Vec::new(rt.alloc());
    'chunks: for _ in rt.forever() {
        match taker.take(rt) {
            Some(chunk) => units.push(chunk.unit).expect(rt, "memory"),
            None => return units,
        }
    }
    unreachable!()
}

/// Puts so many chunks, each of one byte, and ends the lane.
fn put_units<R: AllocGlobal + Abort + Wait>(rt: &R, feeder: &mut Feeder, count: u64)
    requires { IsOpen feeder.old }
{
    'units: for unit in 0..count {
        let bytes = vec![in rt.alloc(); 1; 1].expect(rt, "memory");
        let zeros = 0;
        feeder.put(rt, Chunk { unit, bytes, zeros });
    }
    feeder.end(rt);
}

/// Whether these are the numbers from 0 on.
fn count_up(units: &[u64]) -> bool {
    for (index, unit) in units.iter().enumerate() {
        if *unit != index as u64 {
            return false;
        }
    }
    true
}

/// A thread for each taker.
fn take_by_each<'s, E, R: AllocGlobal + Abort + Wait + Sync>(
    rt: &'s R,
    scope: &Scope<'s, E>,
    takers: Vec<Taker>,
) -> Vec<JoinHandle<Vec<u64>>> {
    let mut handles = Vec::new(rt.alloc());
    for taker in takers {
        let Ok(handle) = scope.spawn(move || units_of(rt, taker)) else {
            panic!(rt; "no thread")
        };
        handles.push(handle).expect(rt, "memory");
    }
    handles
}

/// What the threads took, together.
fn taken<R: AllocGlobal + Abort + Threads>(rt: &R, handles: Vec<JoinHandle<Vec<u64>>>) -> Vec<u64> {
    let mut units = Vec::new(rt.alloc());
    for handle in handles {
        units.extend(handle.join(rt)).expect(rt, "memory");
    }
    units
}

/// What three callers take of forty units.
fn forty_by_three<R: AllocGlobal + Abort + Threads + Wait + Sync>(rt: &R) -> Vec<u64> {
    let (mut feeder, takers) = lane(rt.alloc(), 3).expect(rt, "memory");
    thread::scope(
        thread::scope_env(),
        rt,
        |scope| -> Vec<u64>
            requires { IsOpen feeder }
        {
            let handles = take_by_each(rt, scope, takers);
            put_units(rt, &mut feeder, 40);
            taken(rt, handles)
        },
    )
}

/// Whether these are the numbers from 0 to 39, each once.
fn are_forty<R: AllocGlobal + Abort>(rt: &R, mut units: Vec<u64>) -> bool {
    units.sort().expect(rt, "memory");
    units.len() == 40 && count_up(&units)
}

#[test]
fn callers_take(rt: HostRuntime) {
    assert!(rt; are_forty(&rt, forty_by_three(&rt)));
}
