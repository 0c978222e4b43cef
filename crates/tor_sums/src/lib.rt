//! What bytes hash to, and how the sums of files are put together from those of units.
//!
//! - [`Sums`] (`sums.rt`): lengths, roots, layers and pieces of the files of a plan; [`sums_of_units`] puts them
//!   together from what its units sum up to, and [`sums_with`] from what those of readers do. [`trees_of`] (`trees.rt`)
//!   goes from one file to the next for it ([`FileTrees`], [`Trees`]). `joined.rt` joins what units have
//!   ([`pieces_of_units`], [`append`]), and `places.rt` puts it in the order of their numbers
//!   ([`put_in_order`]).
//! - [`UnitSums`] (`unit_sums.rt`): the hash, the part of the layer and the SHA-1s of a unit. [`sum_unit`] reads a unit
//!   of a source and tells them. The sums of a unit's pieces may wait for those of the units after it: a worker owes
//!   them ([`OwingSums`], `owing.rt`), and pays them when it has no more units ([`pay`],
//!   [`Owed`], `paying.rt`). Those of units in memory wait in [`OwingPieces`] (`owing_pieces.rt`).
//! - [`tree_of_unit`] (`unit_tree.rt`) reads a unit and gives its tree, whatever files it is of. `reading.rt` has one
//!   part read of the source ([`FileBytes`], `file_bytes.rt`), and [`WorkerSums`] (`worker.rt`) holds what was read and
//!   not hashed (`room.rt`; less for a few pieces, `few_pieces.rt`), and the hashes of what came before.
//! - [`ContentHasher`] (`hasher.rt`): what a content hashes to, while its bytes come ([`Hashed`]).
//! - [`EngineError`] (`errors.rt`): why files are not hashed. [`How`] (`how.rt`): by how many workers they are.
//! - [`laws`] (`laws.rt`): the limits of workers and of their buffers.
#![tactic(auto)]

mod errors;
mod few_pieces;
mod file_bytes;
mod hasher;
mod how;
mod joined;
pub mod laws;
mod owing;
mod owing_pieces;
mod paying;
mod places;
mod reading;
mod room;
mod sums;
mod trees;
mod unit_sums;
mod unit_tree;
mod worker;

pub use errors::EngineError;
pub use file_bytes::FileBytes;
pub use hasher::{ContentHasher, Hashed, feed_zeros};
pub use how::{How, MAX_WORKERS};
pub use joined::{append, pieces_of_units};
pub use owing::OwingSums;
pub use owing_pieces::OwingPieces;
pub use paying::{Owed, pay};
pub use places::put_in_order;
pub use sums::{Sums, sums_of_units, sums_with};
pub use trees::{FileTrees, Trees, trees_of};
pub use unit_sums::{UnitSums, node_over_pieces, sum_unit, unit_length};
pub use unit_tree::tree_of_unit;
pub use worker::WorkerSums;
