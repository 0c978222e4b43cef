//! The command `scan`: what `make` would take of a place, and what it would refuse.
//!
//! - `command.rt`: the command; `words.rt`: what its words ask for. `inventory.rt`: what stands at a place.
//! - `lines.rt`: it as lines; `record.rt`: as JSON; `refusals.rt`: the words for a refusal.

pub mod command;
pub mod inventory;
mod lines;
mod record;
mod refusals;
pub(crate) mod words;
