//! The tests of `tor_bencode`, `tor_merkle`, `tor_tree`, `tor_v1`, `tor_plan`, `tor_board`, `tor_lane`, `tor_source`,
//! `tor_streams` and `tor_engine`, in a crate of their own: a crate with tests is proved twice, and these libraries are
//! large. Here is what no word of the program brings about; what it shows of these libraries, and of `tor_hashes`, is
//! tested on the program. Each module but `shared` is named after the crate that it tests.
//!
//! - `bencode.rt`: trees spelled and read back, and values found in them.
//! - `merkle`: contents that are fed in parts, stacks, how many hashes a file has.
//! - `tree`: names and paths, lists of files and of paths, the `file tree`.
//! - `v1`: the list of many files, and the SHA-1 of pieces that are fed in parts.
//! - `plan`: units of work for lists of files and for entries, and their pieces.
//! - `board`: boards and the seats of their workers; `lane`: chunks that one feeder puts and several takers take.
//! - `source`: where bytes come from; `streams`: how many workers hash at once what is read once and in order.
//! - `engine`: files of a source hashed by workers.
//!
//! `shared.rt` has contents, lists of files and hexadecimal digits.
#![tactic(auto)]

#[cfg(test)]
mod bencode;
#[cfg(test)]
mod board;
#[cfg(test)]
mod engine;
#[cfg(test)]
mod lane;
#[cfg(test)]
mod merkle;
#[cfg(test)]
mod plan;
#[cfg(test)]
mod shared;
#[cfg(test)]
mod source;
#[cfg(test)]
mod streams;
#[cfg(test)]
mod tree;
#[cfg(test)]
mod v1;
