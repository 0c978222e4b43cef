//! The tests of `tor_report`.
//!
//! `texts.rt`: texts longer than the buffer, and how segments are spelled. What is told of torrents is tried on the
//! built program (`tests/told.py`). `narrow.rt` has a writer.

mod narrow;
mod texts;
