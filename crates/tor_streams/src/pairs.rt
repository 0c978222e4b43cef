//! The end of a lane that puts short chunks two by two, so that a worker that sleeps is woken half as often.
ghost use Rattle.std.specs.Prelude.{◌*◌, ◌+◌, ◌<◌, ◌≤◌};
ghost use Rattle.tor_streams.specs.declared.pairs.TheConstants.{MAX_SHORT};
ghost use Rattle.tor_streams.specs.declared.spares.TheConstants.{MOST_HELD};

use std::sync::Wait;
use tor_lane::{Chunk, Feeder};

/// A longer chunk is put at once: its worker has to begin while the next one is read.
const MAX_SHORT: usize = 1 << 16;

/// If units are longer, each chunk is put at once: beside long ones the thread that reads waits until all that it lent
/// is given back (`spares.rt`), and a chunk that it keeps itself would never be.
const MAX_UNIT_OF_PAIRS: usize = 1 << 22;

/// Puts chunks into a lane, in order. Every other short one waits for the next, and both are put in a row.
#[derive(Drop)]
pub(crate) struct Pairs {
    pub(crate) feeder: Feeder,
    pub(crate) waiting: Option<Chunk>,
    /// The bytes of a unit of the lane.
    pub(crate) unit_length: usize,
    /// The most bytes of a chunk that waits.
    most: usize,
    ghost short: { most ≤ MAX_SHORT },
    ghost room: { 0 < most → 2 * unit_length + most ≤ MOST_HELD },
}

impl Pairs {
    ghost use Rattle.std.specs.Prelude.{◌≡◌, ◌<◌, ◌++◌, ◌∷◌, [], None, vec_len};
    ghost use Rattle.tor_lane.specs.Lane.{FeedsLaneOf, IsOpen, put_by};
    ghost use Rattle.tor_streams.specs.steps.Cuts.{given_to};

    /// Over this end of a lane through which units of so many bytes go.
    pub(crate) fn new(feeder: Feeder, unit_length: usize) -> Pairs
        ensures feeder { result.feeder ≡ feeder }
        ensures none { result.waiting ≡ None }
        ensures unit { result.unit_length ≡ unit_length }
    {
        let most = if unit_length > MAX_UNIT_OF_PAIRS {
            0
        } else {
            MAX_SHORT
        };
        Pairs {
            feeder,
            waiting: None,
            unit_length,
            most,
        }
    }

    /// Puts a chunk behind the one that waits, or has it wait.
    pub(crate) fn put<T: Wait>(&mut self, rt: &T, chunk: Chunk)
        requires { IsOpen self.old.feeder }
        ensures put { given_to self.new ≡ given_to self.old ++ chunk ∷ [] }
        ensures long { self.old.most < vec_len chunk.bytes → self.new.waiting ≡ None }
        ensures unit { self.new.unit_length ≡ self.old.unit_length }
        ensures open { IsOpen self.new.feeder }
        ensures lane { FeedsLaneOf self.old.feeder self.new.feeder }
    {
        if self.waiting.is_none() && chunk.bytes.len() <= self.most {
            self.waiting = Some(chunk);
            return;
        }
        self.flush(rt);
        self.feeder.put(rt, chunk);
    }

    /// Puts the chunk that waits, if one does.
    pub(crate) fn flush<T: Wait>(&mut self, rt: &T)
        requires { IsOpen self.old.feeder }
        ensures put { put_by self.new.feeder ≡ given_to self.old }
        ensures none { self.new.waiting ≡ None }
        ensures unit { self.new.unit_length ≡ self.old.unit_length }
        ensures open { IsOpen self.new.feeder }
        ensures lane { FeedsLaneOf self.old.feeder self.new.feeder }
    {
        if let Some(chunk) = self.waiting.take() {
            self.feeder.put(rt, chunk);
        }
    }
}
