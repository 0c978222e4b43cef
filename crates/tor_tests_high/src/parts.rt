//! The tests of `tor_parts`: `rows.rt` has rows that are not those of a plan, and `texts.rt` lots as bytes.

mod rows;
mod texts;
