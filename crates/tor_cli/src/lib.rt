//! The program `tor` over any reader and writers: it makes BitTorrent metainfo files, and tells what foreign ones
//! describe. The crate `tor` has no more than `main`.
//!
//! - `program.rt`: the words of the command line and the real streams. `execute.rt`: what is done with them;
//!   `ending.rt`: the status that comes back. `command.rt`: what the words ask for, of the commands that `tor_words`
//!   has; `workers.rt`: by how many workers.
//! - `make.rt`: the command `make`; `scan.rt`: `scan`; `check.rt`: `check` and `magnet`; `recheck.rt`: `recheck`;
//!   `proof.rt`: `prove` and `verify`. Each has a folder of its name, and tells what stands there.
//! - `edit.rt`: `edit`; `lots.rt`: `plan`, `join`, and `make --plan`.
//! - `foreign.rt`: the bytes of a file; `whole_file.rt`: a file that appears whole or not at all; `out_before.rt`: what
//!   stood at FILE before. `answer.rt`: yes and no.
//! - `progress.rt`: how far the reading is, shown on a terminal.
//! - `text.rt`: numbers, hashes, JSON and the user's text as texts. `terminal.rt`: what a terminal is shown of names.
//! - `fault.rt`: what stops the program, its line and its status; `fault_of.rt`: which step's fault it is;
//!   `unwritten.rt`: that not all went out. `laws.rt`: that such a line has no control byte.
//! - `explain.rt`: why the program stopped, in words.
//! - [`read_limited`], [`make_from`] are those of `tor_source` and `tor_meta`: what a reader has, and its torrent.
#![tactic(auto)]

mod answer;
mod check;
mod command;
mod edit;
mod ending;
pub mod execute;
mod explain;
pub mod fault;
mod fault_of;
mod foreign;
pub mod laws;
mod lots;
pub mod make;
mod out_before;
pub mod program;
pub mod progress;
pub mod proof;
pub mod recheck;
pub mod scan;
pub mod terminal;
mod text;
pub mod unwritten;
mod whole_file;
mod workers;

pub use tor_meta::{FromFault, make_from};
pub use tor_source::{InputFault, read_limited};
