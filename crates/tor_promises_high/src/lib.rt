//! What the libraries of workers and rechecks promise, each on one call: a function here says what that of a library
//! says, and only calls it. A wrong body that the promise has to refuse is planted here, since the library would be
//! proved once more for it.
//!
//! - `streams.rt`: what readers sum up to.
//! - `hashing.rt`: what the files of a source sum up to, and what their pieces hash to.
//! - `working.rt`: what one worker does at a board.
//! - `rechecking.rt`: which pieces of a torrent are there and right.
//!
//! No other crate calls them. If a library comes to say less, its function here is not proved any more. `tor_merkle`
//! and `sha1` are there for wrong bodies alone. What the libraries below promise is in `tor_promises`.
#![tactic(auto)]

mod hashing;
mod rechecking;
mod streams;
mod working;

pub use hashing::{hashes_of_pieces, sums_of_files};
pub use rechecking::pieces_that_hold;
pub use streams::sums_of_readers;
pub use working::share_of;
