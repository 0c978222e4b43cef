//! Which pieces of a torrent are there and right.
//!
//! - [`recheck`] (`rechecking.rt`): a bit for each piece of a torrent, or a [`RecheckError`] (`errors.rt`).
//!   `piece_bits.rt` judges the hashes of the pieces by those that the torrent gives, of which `merkle_hashes.rt` goes
//!   through the Merkle hashes.
//! - [`recheck_files`] (`rechecking_files.rt`): the same bits, and what is told of each file (`FileFound`,
//!   `FileState`), as `files_of` of `tor_view` tells it.
//! - [`recheck_readable`] (`rechecking_readable.rt`): the same of a source of which places cannot be read, and these
//!   places ([`ReadableFindings`]).
//! - [`recheck_lot`] (`rechecking_lot.rt`): the bits of the pieces of one of many machines, which asks and reads its own
//!   files alone (`own_files.rt`). [`pieces_of_lot`]: which pieces these are.
//! - [`Bits`] are those of `tor_view`: one a piece, and as the bitfield of BEP 3.
//! - [`laws`]: what follows from the definitions alone.
#![tactic(auto)]

mod errors;
pub mod laws;
mod merkle_hashes;
mod own_files;
mod piece_bits;
mod rechecking;
mod rechecking_files;
mod rechecking_lot;
mod rechecking_readable;

pub use errors::RecheckError;
pub use rechecking::recheck;
pub use rechecking_files::{Findings, recheck_files};
pub use rechecking_lot::{pieces_of_lot, recheck_lot};
pub use rechecking_readable::{ReadableFindings, recheck_readable};
pub use tor_view::Bits;
