//! The commands `check` and `magnet`.
//!
//! - `telling.rt`: both; `words.rt`: what the words of `check` ask for; `link.rt`: those of `magnet`, and its line.
//! - What tells of a torrent is written by `tor_report`.

pub(crate) mod link;
pub(crate) mod telling;
pub(crate) mod words;
