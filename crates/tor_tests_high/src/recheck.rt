//! The tests of `tor_recheck`.
//!
//! `rechecks.rt`: which pieces are there, each way to share the units, and faults; `readable.rt`: the same where places
//! fail, and what is told of files; `bits.rt`, `ranges.rt`: bits that no recheck shows; `meetings.rt`: whether its
//! workers work at once. What a recheck by some workers tells is tried on the built program (`tests/found.py`).

pub mod bits;
mod meetings;
mod ranges;
mod readable;
pub mod rechecks;
