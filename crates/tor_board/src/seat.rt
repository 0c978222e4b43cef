//! Seats at a board, and the units that they claim.
ghost use Rattle.std.specs.Prelude.{◌≡◌, ◌<◌, ◌≤◌, false, [], None};

use crate::view::View;
use tor_merkle::Hash;

/// A worker's place at a board. The units of a seat that is let go are lost, and its board can no longer be closed.
#[derive(Drop)]
pub struct Seat {
    pub(crate) inner: atomic_table::Seat<Hash, View>,
    pub(crate) room: u32,
    pub(crate) done: bool,
    ghost same: { (inner.me.0.room ≡ room) × (inner.me.0.done ≡ done) × (inner.me.1 ≡ []) },
    ghost roomy: { (0 < room) × (room ≤ 256) },
    ghost idle: { inner.me.0.climb ≡ None },
    ghost calm: { inner.me.0.looked ≡ false },
}

/// The right to one unit, which is to be given or failed: it cannot be let go.
pub struct Job {
    pub(crate) number: u64,
}

impl Job {
    /// Its unit.
    pub fn number(&self) -> u64
        ensures { result ≡ self.now.number }
    {
        self.number
    }
}
