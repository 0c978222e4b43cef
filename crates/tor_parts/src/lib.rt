//! One torrent hashed by many machines: which units of its plan each of them hashes, what it writes down of them, and
//! what the files sum up to once all of that is there.
//!
//! ```rust
//! use tor_engine::How;
//! use tor_parts::{has_all_pieces, hash_dealt, join_rows};
//!
//! // Each machine hashes the lot of its number.
//! let row = hash_dealt(&rt, rt.alloc(), &source, &plan, 3, 0, How::Board(4))?;
//! // One machine joins the rows of all lots, in the order of their numbers.
//! let rows = [row, second, third];
//! if has_all_pieces(&plan, &rows) {
//!     let sums = join_rows(rt.alloc(), &plan, &rows)?;
//! }
//! ```
//!
//! - [`deal`] (`dealing.rt`): which units each of so many lots has; [`deal_all`]: of all of them at once. [`hash_dealt`]
//!   (`hashing.rt`) hashes those of one; [`hash_own`] (`own_lot.rt`) asks the lengths of its files too, before and
//!   after (`own_files.rt`). [`units_of_lot`]: the units themselves.
//! - [`Lot`], [`write_lot`], [`read_lot`] (`lot_text.rt`): what one machine hashed, as bytes.
//! - [`join_sums`] (`joining.rt`): the sums of the files, from the hashes of all pieces; [`join_rows`] (`rows.rt`):
//!   from those of each lot. [`has_all_pieces`] (`counting.rt`): whether rows have as many as all pieces want;
//!   [`has_own_pieces`] (`own_counts.rt`): whether one has as many as those of its own units want.
//! - [`laws`] (`laws.rt`): the lots have each unit once and about as many bytes, and their hashes are those of all
//!   pieces, as many as these want; how many lots there may be.
#![tactic(auto)]

mod counting;
mod dealing;
mod hashing;
mod joining;
pub mod laws;
mod lot_text;
mod own_counts;
mod own_files;
mod own_lot;
mod rows;

pub use counting::has_all_pieces;
pub use dealing::{deal, deal_all};
pub use hashing::hash_dealt;
pub use joining::join_sums;
pub use lot_text::{Lot, MAX_LOTS, read_lot, write_lot};
pub use own_counts::has_own_pieces;
pub use own_lot::{hash_own, units_of_lot};
pub use rows::join_rows;
