//! Foreign torrents (BEP 3, BEP 47, BEP 52) judged, and what they describe.
//!
//! ```rust
//! use tor_check::validate;
//!
//! let torrent = validate(alloc, &bytes)?;
//! for view in torrent.files() {
//!     println!(rt; "{}", view.file().length)?;
//! }
//! ```
//!
//! - [`validate`] (`verdict.rt`): what the torrent describes that bytes are, or why they are none.
//! - [`Torrent`], [`ViewFile`] (`torrent.rt`): what it describes. [`Refusal`] (`refusal.rt`): V1 to V25.
//! - [`prove_piece`] (`piece_proofs.rt`): that the hash of a piece stands in the tree of its file, or why not
//!   ([`ProveError`]).
//!
//! The root and the keys that all kinds have: `head.rt`. The v1 side: `marks.rt` and `listed.rt` read it,
//! `list_side.rt` judges it; the v2 side: `tree_side.rt`; both: `sides.rt`. Piece layers: `layer_keys.rt`, `layers.rt`,
//! `layer_texts.rt`, `layer_roots.rt`, `shared_layers.rt`.
//! Whether the sides of a hybrid agree: `agree.rt`, judged in `alignment.rt`. What is told: `views.rt`, `described.rt`.
//! `parts.rt` reads single keys.
#![tactic(auto)]

mod agree;
mod alignment;
mod described;
mod head;
mod layer_keys;
mod layer_roots;
mod layer_texts;
mod layers;
mod list_side;
mod listed;
mod marks;
mod parts;
mod piece_proofs;
mod refusal;
mod shared_layers;
mod sides;
mod torrent;
mod tree_side;
mod verdict;
mod views;

pub use piece_proofs::{ProveError, prove_piece};
pub use refusal::Refusal;
pub use torrent::{Torrent, ViewFile};
pub use verdict::validate;
