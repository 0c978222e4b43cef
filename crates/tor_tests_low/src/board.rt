//! The tests of `tor_board`.
//!
//! - `rows.rt`: rows: in which order units are given, what each give tells, failures, rooms.
//! - `trees.rt`: trees of other counts and levels, two trees in either order, units of no tree.
//! - `callers.rt`: four callers' threads share a board.
//!
//! `shared.rt` opens boards, works through their units, and closes them.

mod callers;
mod rows;
pub mod shared;
mod trees;
