//! One torrent by many machines: `tor plan`, `tor make --plan --part`, and `tor join`.
//!
//! - `plan.rt`, `lot.rt`, `join.rt`: the doing of each; `plan_words.rt`, `lot_words.rt`, `join_words.rt`: what the
//!   words of each ask for. `plan_options.rt`: what a plan is made of. `number.rt`: the word for one part of so many, a
//!   `LotNumber` (`lot_number.rt`).

pub(crate) mod join;
pub(crate) mod join_words;
pub(crate) mod lot;
pub(crate) mod lot_number;
pub(crate) mod lot_words;
pub(crate) mod number;
pub(crate) mod plan;
pub(crate) mod plan_options;
pub(crate) mod plan_words;
