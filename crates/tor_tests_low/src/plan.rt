//! The tests of `tor_plan`.
//!
//! - `plans.rt`: units of work for lists of files; `entries.rt`: for entries.
//! - `pieces.rt`: the pieces of units.

mod entries;
mod pieces;
mod plans;
