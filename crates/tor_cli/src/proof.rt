//! The commands `prove` and `verify`.
//!
//! - `prove.rt`, `verify.rt`: each of them; `words.rt`: what their words ask for; `claim.rt`: what those of `verify`
//!   claim.
//! - `text.rt`: a proof as a text, both ways.

pub(crate) mod claim;
pub(crate) mod prove;
pub mod text;
pub(crate) mod verify;
pub(crate) mod words;
