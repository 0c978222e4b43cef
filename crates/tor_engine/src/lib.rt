//! The files of a source hashed as a plan says, by one worker or by several at once.
//!
//! - [`hash_all`] (`engine.rt`): the lengths, roots, layers and pieces of all files, or the first fault; [`hash_told`]
//!   if the lengths were asked before.
//! - [`How`]: by how many workers; [`Sums`]: what comes of it; [`EngineError`]: why nothing does.
//! - [`ask_lengths`] (`lengths.rt`): the lengths of files.
//! - `workers.rt` and its folder: units shared among workers, by halves or at a board; `sum_work.rt` hashes a unit for
//!   the sums of files, by `sum_unit` of `tor_sums`. [`work`]: one worker at a board, for callers with threads of their
//!   own.
//! - [`hash_pieces`] (`pieces.rt` and its folder): what each piece hashes to ([`PieceHash`]), of files that may be cut
//!   short or missing; [`find_pieces`] tells their lengths too, and [`find_pieces_between`] does so for a run of
//!   pieces, both with the hashes held unit by unit ([`PieceHashes`]). [`find_readable`]: the same as far as the pieces
//!   can be read ([`ReadablePieces`]), and what could not be ([`ReadFault`]).
//! - [`hash_lot`] (`lot.rt`): the hashes of the pieces of some units ([`PieceRow`]), of which several machines each
//!   hash others.
//! - [`laws`] (`laws.rt`): laws over the definition of the first fault and over the hashes of units, and the limits of
//!   workers, buffers and units.
//!
//! What callers need of the crates below is given out again: [`Sums`], [`UnitSums`], [`unit_length`], [`EngineError`],
//! [`How`] and [`ContentHasher`] with its [`Hashed`] are those of `tor_sums`; [`hash_streams`], [`hash_input`] and
//! [`Gate`] are those of `tor_streams`; [`lane`], [`Feeder`], [`Taker`] and [`Chunk`] are those of `tor_lane`.
//!
//! ```rust
//! use tor_engine::{How, hash_all};
//!
//! let plan = Plan::new(rt.alloc(), &list, Kind::V2, 16384, 16)?;
//! let sums = hash_all(&rt, rt.alloc(), &source, &plan, How::Halves(4))?;
//! assert_eq!(rt; sums.roots.len(), list.files().len());
//! ```
#![tactic(auto)]

mod engine;
pub mod laws;
mod lengths;
mod lot;
mod pieces;
mod sum_work;
mod workers;

pub use engine::{hash_all, hash_told};
pub use lengths::ask_lengths;
pub use lot::{PieceRow, hash_lot};
pub use pieces::piece_hash::PieceHash;
pub use pieces::piece_hashes::{HashesLeft, PieceHashes};
pub use pieces::read_fault::ReadFault;
pub use pieces::readable::{ReadablePieces, find_readable};
pub use pieces::{FoundPieces, find_pieces, find_pieces_between, hash_pieces};
pub use tor_lane::{Chunk, Feeder, Taker, lane, lane_law};
pub use tor_streams::{Gate, MAX_UNIT_LENGTH, hash_input, hash_streams, hash_streams_with};
pub use tor_sums::{
    ContentHasher, EngineError, Hashed, How, MAX_WORKERS, Sums, UnitSums, unit_length,
};
pub use workers::worker_share::{Share, work};
