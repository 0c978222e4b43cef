//! The command `edit`.
//!
//! - `command.rt`: its doing; `words.rt`: what its words ask for.

pub(crate) mod command;
pub(crate) mod words;
