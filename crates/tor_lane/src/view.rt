//! What an end of a lane knows, of which no value is ever made.
ghost use Rattle.std.specs.Prelude.{ℕ, List, Bool};
ghost use Rattle.std.specs.Borrow.{ftrue};
ghost use Rattle.tor_lane.specs.declared.chunk.Chunk.{Chunk};

use std::marker::Model;

/// What an end of a lane has done. The feeder's: the chunks that it put, how many marks after them, and how many takers
/// it made. Of as many takers as `takers` says: the chunks that they took, and how many marks.
pub struct View {
    pub ghost feeds: { Bool },
    pub ghost put: { List Chunk },
    pub ghost ended: { ℕ },
    pub ghost made: { ℕ },
    pub ghost takers: { ℕ },
    pub ghost taken: { List Chunk },
    pub ghost marks: { ℕ },
}

impl Model for View {
    ghost also_owns = { λ _. ftrue };
}
