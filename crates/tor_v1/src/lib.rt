//! The list of files of a version 1 torrent (BEP 3, "info dictionary"), with padding between the files of a
//! hybrid one (BEP 47, "padding files"), and the SHA-1 of its pieces.
//!
//! - [`Entry`] (`entry.rt`): an entry of the list, a file or padding; [`is_reserved`]: a path only padding may have.
//! - [`lay_out`] (`layout.rt`): the entries of a list of files, in one of three layouts, with the letters of the files
//!   (`letters.rt`); [`entries_without_letters`] makes them of any paths. `padding.rt` makes the padding:
//!   [`pad_entry`] is one, [`padding_length`] how long it is.
//! - [`PieceSums`] (`sums.rt`): the SHA-1 of each piece of a content that is fed in parts.
//!   `runs.rt` has eight pieces hashed at once.
//! - [`laws`]: what follows from the definitions alone.
//!
//! ```rust
//! use tor_v1::PieceSums;
//!
//! let mut sums = PieceSums::new(rt.alloc(), 16384);
//! sums.feed(b"ab")?;
//! sums.feed_zeros(16382)?;
//! sums.feed(b"c")?;
//! assert_eq!(rt; sums.finish().len(), 40);
//! ```
#![tactic(auto)]

mod entry;
pub mod laws;
mod layout;
mod letters;
mod padding;
mod runs;
mod sums;

pub use entry::{Entry, is_reserved};
pub use layout::{Layout, LayoutError, entries_without_letters, lay_out};
pub use padding::{pad_entry, padding_length};
pub use runs::MAX_PIECE_IN_RUN;
pub use sums::PieceSums;
