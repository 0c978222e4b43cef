//! The library for programs in other languages, `libplovercasket`, whose exports a C program calls as
//! `dist/library/plovercasket.h` declares them. It has no state, starts no thread and calls nothing back, and there is
//! nothing to free: what is told is written where the caller has room for it.
//!
//! - `check.rt`, `magnet.rt`: what a torrent describes, and its magnet link, as texts. `hashes.rt`: its info hashes.
//! - `verify.rt`: whether a proof of a piece holds; `claim.rt`: of which piece.
//! - `sinks.rt`: where the object of a torrent goes, first counted, then into the caller's room. `report.rt`: a link
//!   there. `outcome.rt`: what is told beside an answer.
//! - `numbers.rt`: the numbers of refusals. The other answers are the constants below; [`laws`] (`laws.rt`) has what
//!   they are.
#![tactic(auto)]

mod check;
mod claim;
mod hashes;
pub mod laws;
mod magnet;
mod numbers;
mod outcome;
mod report;
mod sinks;
mod verify;

/// The bytes are a torrent, or the proof holds. The numbers from 1 to 25 are those of refusals, 1 of `V1`.
pub const ACCEPTED: u32 = 0;

/// Memory was refused: the number of `V24`.
pub const MEMORY: u32 = 24;

/// The bytes are a torrent, and the text that is told of it is longer than the room for it.
pub const NO_ROOM: u32 = 100;

/// The proof does not hold.
pub const NOT_PROVED: u32 = 101;

/// No file of a tree has this length.
pub const BAD_LENGTH: u32 = 102;

/// No torrent with a tree has this piece length.
pub const BAD_PIECE_LENGTH: u32 = 103;
