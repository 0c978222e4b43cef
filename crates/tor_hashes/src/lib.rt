//! SHA-256 and SHA-1 (FIPS 180-4) of eight messages of one length, side by side: each instruction does the same to
//! a word of each message.
//!
//! ```rust
//! use sha2::{Digest, Sha256};
//! use tor_hashes::node_hashes;
//!
//! let mut nodes = [0; 512];
//! nodes[200] = 7;
//! let hashes = node_hashes(&nodes);
//! assert!(rt; hashes[3] == Sha256::digest(&nodes[192..256]));
//! ```
//!
//! - [`block_hashes`] (`blocks.rt`): the SHA-256 of blocks of 16,384 bytes.
//! - [`last_block_hashes`] (`last_blocks.rt`): the same of the last blocks of a content, of which the last may be
//!   shorter: its end, with the padding, is hashed in a place of its own (`message_end.rt`).
//! - [`node_hashes`] (`nodes.rt`): the SHA-256 of messages of 64 bytes. Their padding is always the same, so
//!   `node_padding.rt` has its words ready.
//! - [`piece_hashes`] (`pieces.rt`): the SHA-1 of pieces of any number of bytes that is a multiple of 64, at most 2^28.
//!
//! Below them, named after the standard's parts: `words.rt` has words side by side, `block_words.rt` reads them message
//! by message, `transposed.rt` turns these to word by word, `functions.rt` has what both hashes do with them. Each hash
//! has its constants, its rounds, its hash value block after block, and its digests: `sha256_constants.rt`,
//! `sha256_functions.rt`, `sha256_rounds.rt`, `sha256_block.rt`, `sha256_digest.rt`; `sha1_constants.rt`,
//! `sha1_functions.rt`, `sha1_rounds.rt`, `sha1_block.rt`, `sha1_digest.rt`.
//!
//! Small steps are `#[inline(always)]`, and sixteen rounds at a time are generic in the number of the first, so that
//! the indices in the schedule are known when it is compiled.
#![tactic(auto)]

mod block_words;
mod blocks;
mod functions;
mod last_blocks;
mod message_end;
mod node_padding;
mod nodes;
mod pieces;
mod sha1_block;
mod sha1_constants;
mod sha1_digest;
mod sha1_functions;
mod sha1_rounds;
mod sha256_block;
mod sha256_constants;
mod sha256_digest;
mod sha256_functions;
mod sha256_rounds;
mod transposed;
mod words;

pub use blocks::block_hashes;
pub use last_blocks::last_block_hashes;
pub use nodes::node_hashes;
pub use pieces::piece_hashes;
