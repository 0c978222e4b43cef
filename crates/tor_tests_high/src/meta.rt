//! The tests of `tor_meta`.
//!
//! `contents.rt`: torrents of files in memory, links, writing out. `sources.rt`: of the files of a source that gives
//! few bytes, changes or fails; `streams.rt`: of readers; `tail.rt`: those whose last file is padded; `letters.rt`: of
//! files with letters that are not in order; `plans.rt`: plans. `workers.rt`: that workers meet. `inputs.rt`: inputs of
//! tor_source, and the torrent of one. `given.rt` has files that are given as texts. What the program makes is tried
//! there: `tests/made.py`, `tests/joining.py`.

pub mod contents;
pub mod given;
mod inputs;
mod letters;
mod plans;
pub mod sources;
pub mod streams;
mod tail;
mod workers;
