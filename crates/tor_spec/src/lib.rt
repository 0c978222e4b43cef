//! The definitions of whole torrents, in `specs/`, which the crates above cite, their info hashes and links, and bytes
//! into a writer.
//!
//! - `Settings`: what a torrent is made with, beside its files. `Facts`: what it says of each file.
//! - `FilesList`, `PieceLayers`, `InfoDictionary`, `Metainfo`: the bytes of a metainfo file (BEP 3, BEP 52).
//!   `Dictionary`: dictionaries made key by key. `Makeable`: what a torrent can be made of.
//! - `valid/`: which bytes are a torrent, condition by condition (`Conditions`), and what it describes (`View`).
//! - `Verified`: which pieces are verified when a torrent is rechecked against contents. `Present`: the bytes of its
//!   files in contents that may lack some.
//!
//! - [`Hashes`], [`info_hashes`], [`magnet`] (`hashes.rt`), [`magnet_with`] (`link_words.rt`): of a torrent's bytes.
//! - [`write_out`] (`output.rt`): all bytes into a writer, or the [`WriteFault`].
//! - [`laws`] (`laws.rt`): functions without a body, each of which carries a law.
#![tactic(auto)]

mod hashes;
pub mod laws;
mod link_words;
mod output;

pub use hashes::{Hashes, info_hashes, magnet};
pub use link_words::magnet_with;
pub use output::{WriteFault, write_out};
