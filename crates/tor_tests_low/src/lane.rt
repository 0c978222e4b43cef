//! The tests of `tor_lane`.
//!
//! - `rows.rt`: lanes of one worker and of two, in one thread.
//! - `callers.rt`: three callers' threads take from a lane.

mod callers;
mod rows;
