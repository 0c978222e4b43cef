//! The tests of `tor_merkle`.
//!
//! - `feeds.rt`: contents that are fed in parts; `roots.rt`: stacks.
//! - `piece_proofs.rt`: proofs of single pieces.

mod feeds;
mod piece_proofs;
mod roots;
