//! The tests of `tor_check`, `tor_edit`, `tor_explain`, `tor_recheck`, `tor_parts`, `tor_meta` and `tor_report` by
//! their public items, in a crate of their own: a crate with tests is proved twice, and these libraries are large.
//!
//! Each module is named after the crate that it tests. They have what neither a clause says nor the program shows:
//! entries, readers and sources that give few bytes, change or fail, workers that meet, and public calls that the
//! program does not make. All else is a row of `tests/` (`verdicts.py`, `sides.py`, `layers.py`, `reasons.py`,
//! `trackers.py`, `told.py`, `found.py`, `made.py`, `joining.py`).
#![tactic(auto)]

#[cfg(test)]
mod check;
#[cfg(test)]
mod edit;
#[cfg(test)]
mod explain;
#[cfg(test)]
mod meta;
#[cfg(test)]
mod parts;
#[cfg(test)]
mod recheck;
#[cfg(test)]
mod report;
