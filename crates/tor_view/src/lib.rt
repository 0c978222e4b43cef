//! What a torrent that was judged has beside what it describes: which pieces have bytes of each file, how files stand by
//! the pieces that hold, and what one piece hashes to. Nothing here reads a source.
//!
//! ```rust
//! use tor_view::Bits;
//!
//! let mut bits = Bits::with_capacity(alloc, 2)?;
//! bits.push(true)?;
//! bits.push(false)?;
//! assert!(rt; bits.len() == 2 && bits.count_set() == 1);
//! assert!(rt; bits.to_bytes(alloc)?.as_slice() == &[0x80]);
//! ```
//!
//! - [`files_in_pieces`] (`file_pieces.rt`): for each file its pieces ([`FilePieces`]), and which bytes of it are in
//!   pieces whose bits are not set ([`ByteRange`]). `spans.rt` has which pieces have bytes of a file.
//! - [`files_of`] (`files.rt`): what is told of each file ([`FileFound`], [`FileState`]), by the pieces that hold and by
//!   the lengths that are there.
//! - [`Bits`] (`bits.rt`): one bit a piece, piece 0 first, and as the bitfield of BEP 3 ("peer messages").
//! - [`is_piece`] (`piece.rt`): whether bytes are those of a piece of a file with a tree; [`hash_of_piece`]
//!   (`piece_hash.rt`): their hash; [`piece_size`] (`size.rt`): how many there are.
//! - [`laws`] (`laws.rt`): what follows from the definitions alone.
#![tactic(auto)]

mod bits;
mod file_pieces;
mod files;
pub mod laws;
mod piece;
mod piece_hash;
mod size;
mod spans;

pub use bits::Bits;
pub use file_pieces::{ByteRange, FilePieces, files_in_pieces};
pub use files::{FileFound, FileState, files_of};
pub use piece::is_piece;
pub use piece_hash::hash_of_piece;
pub use size::piece_size;
