//! The tests of `tor_engine`, and of `tor_sums` through it.
//!
//! - `faults.rt`: which fault a hash of files answers; `pieces.rt`: hashes of single pieces.
//! - `workers.rt`: how many workers read at once; `board.rt`: workers that share a board.
//!
//! `shared.rt` has files, plans, and how files are hashed.

mod board;
pub mod faults;
mod pieces;
pub mod shared;
mod workers;
