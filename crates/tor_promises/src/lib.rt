//! What libraries promise, each on one call: a function here says what that of a library says, and only calls it. A
//! wrong body that the promise has to refuse is planted here, since the library would be proved once more for it. Only
//! `refusal_of` says less: whether and why bytes are no torrent, and not what a torrent describes.
//!
//! - `reading.rt`: bytes as a tree of bencode, or their first fault.
//! - `ordering.rt`: paths, name by name.
//! - `trees.rt`: root and piece layer of a content. `proving.rt`: proofs of indices, and what two of them are worth.
//! - `entries.rt`: the entries of version 1. `plans.rt`: entries cut into units of work.
//! - `judging.rt`: why bytes are no torrent. `piece_proofs.rt`: that the hash of a piece stands in its file's tree.
//! - `taking.rt`: the chunks of a lane.
//!
//! No other crate calls them. If a library comes to say less, its function here is not proved any more. What workers
//! and rechecks promise is in `tor_promises_high`.
#![tactic(auto)]

mod entries;
mod judging;
mod ordering;
mod piece_proofs;
mod plans;
mod proving;
mod reading;
mod taking;
mod trees;

pub use entries::entries_of;
pub use judging::refusal_of;
pub use ordering::compare;
pub use piece_proofs::proof_of_piece;
pub use plans::plan_of;
pub use proving::{collision, is_proved};
pub use reading::read;
pub use taking::next_chunk;
pub use trees::root_and_layer;
