//! The tests of `tor_check`.
//!
//! `entries.rt`: what is told of the v1 side, which no command prints, of the torrents in `tables.rt`; `codes.rt`:
//! lines that the program does not show. `telling.rt` has what the tests share. Which bytes are torrents, and what else
//! is told of them, is tried on the built program: `tests/verdicts.py`, `tests/sides.py`, `tests/layers.py`,
//! `tests/foreign.py`.

mod codes;
mod entries;
mod tables;
pub mod telling;
