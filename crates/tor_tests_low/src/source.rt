//! The tests of `tor_source`.
//!
//! - `memory.rt`: what sources in memory answer.
//! - `folders.rt`: reads of a real folder; `systems.rt`: scans of a system that has what no test can make.
//! - `extra.rt`: what stands beside given files.

mod extra;
mod folders;
mod memory;
mod systems;
