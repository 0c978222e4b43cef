//! Making torrents (BEP 3, BEP 52, BEP 47).
//!
//! - [`Head`] (`head.rt`): what a torrent is made with, beside its files. `before_lengths.rt` refuses heads and paths.
//! - [`make_contents`] (`contents.rt`): the torrent of files whose contents lie in memory.
//! - [`FedSums`] and [`make_fed`] (`fed.rt` and its folder): the torrent of one content that is fed in parts.
//! - [`make_from`], [`torrent_from`] (`from_input.rt`): the torrent of what a reader has, in a writer or as bytes, or
//!   the [`FromFault`] for which there is none. [`torrent_by_streams`]: the same by workers behind the reader.
//! - [`make_with`] (`from_source.rt`): the torrent of the files of a source with their letters, as an [`Order`]
//!   (`order.rt`) says, or the first [`MakeError`] (`make_error.rt`); [`make`]: of files without letters.
//!   `source_listing.rt` lists a source's files, `indexed_files.rt` puts them into the listing's order, and
//!   `listed_files.rt` makes the torrent of a listing whose bytes a source gives.
//! - [`make_streams_with`], [`make_streams`] (`from_streams.rt`): the torrent of readers that are read once, in the
//!   order of their paths, with letters and without.
//! - [`Listing`] (`listing.rt`): a head, the files of its torrent and how they are cut, judged, or the [`ListingError`]
//!   for which there is none. `from_rows.rt`: its torrent, of pieces that were hashed in lots.
//! - [`make_plan`], [`write_plan`], [`read_plan`], [`JudgedPlan`] (`plans.rt` and its folder): a listing as bytes, for
//!   many machines, or the [`PlanError`] (`listing_error.rt`) for which these are none. [`make_lot`], [`files_of_lot`]:
//!   one lot of a plan, and its files. [`join_lots`]: the torrent of a plan and its lots, or the [`JoinError`]
//!   (`join_error.rt`) for which there is none.
//! - [`ContentsError`] (`refusals.rt`): why there is no torrent of files in memory.
//! - `sums.rt`: the Merkle trees and the SHA-1 of the pieces, as far as a kind asks for them.
//! - `torrent.rt`: from files and sums to bytes; `fields.rt` and its folder: what its dictionaries have.
//! - [`Hashes`], [`info_hashes`], [`magnet`], [`write_out`]: those of `tor_spec`, info hashes and the magnet link, and
//!   all bytes into a writer.
//! - [`laws`] (`laws.rt`): what is made is valid, and the limit of a span.
//!
//! ```rust
//! use tor_meta::{Head, make_contents};
//! use tor_tree::{FilePath, Kind, Name};
//!
//! let alloc = rt.alloc();
//! let name = Name::new(alloc, b"a")?;
//! let path = FilePath::new(vec![in alloc; name.copy(alloc)?]?).ok_or("no name")?;
//! let files = vec![in alloc; (path, Vec::from_slice(alloc, b"abc")?)]?;
//! let head = Head {
//!     kind: Kind::V2, single: true, name, piece_length: 16384, announce: None, is_private: false, tail: false,
//! };
//! assert_eq!(rt; make_contents(alloc, files, &head)?.len(), 158);
//! ```
#![tactic(auto)]

mod before_lengths;
mod contents;
mod fed;
mod fields;
mod from_input;
mod from_rows;
mod from_source;
mod from_streams;
mod head;
mod indexed_files;
mod join_error;
pub mod laws;
mod listed_files;
mod listing;
mod listing_error;
mod make_error;
mod order;
mod piece_length;
mod plans;
mod refusals;
mod source_listing;
mod sums;
mod torrent;

pub use contents::make_contents;
pub use fed::making::make_fed;
pub use fed::{FedSums, refusal_of_one};
pub use from_input::{FromFault, make_from, torrent_by_streams, torrent_from};
pub use from_source::{make, make_with};
pub use from_streams::{make_streams, make_streams_with};
pub use head::Head;
pub use join_error::JoinError;
pub use listing::Listing;
pub use listing_error::{ListingError, PlanError};
pub use make_error::MakeError;
pub use order::{MAX_SPAN, Order};
pub use piece_length::auto_piece_length;
pub use plans::joined::join_lots;
pub use plans::lot_files::files_of_lot;
pub use plans::lots::make_lot;
pub use plans::planned::make_plan;
pub use plans::{JudgedPlan, read_plan, write_plan};
pub use refusals::ContentsError;
pub use tor_spec::{Hashes, WriteFault, info_hashes, magnet, write_out};
