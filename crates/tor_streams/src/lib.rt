//! What readers sum up to that are read once and in order, while workers hash what was read.
//!
//! - [`hash_streams`] (`streams.rt`): readers, one a file; [`hash_input`] (`input.rt`): one reader, within the limit of
//!   an input.
//! - `feeding.rt` reads in the calling thread: `read_streams.rt` goes to the end of each reader, and `cutter.rt` puts
//!   chunks into a lane, by `filling.rt` and `pairs.rt`. `chunking.rt` says how contents are cut, and `lane_span.rt`
//!   how many pieces a chunk has.
//! - Its workers (`stream_worker.rt`) take and hash them (`chunk_sums.rt`), and give their buffers back (`spares.rt`):
//!   while too much is held, the thread that reads waits for those. Pieces of small chunks wait until eight are there;
//!   their SHA-1s are owed till the end (`owed_chunks.rt`).
//! - `fed_sums.rt` and `stream_sums.rt` put together what these sum up to.
//! - [`Gate`] (`gate.rt`): what tests have workers pass.
//! - [`laws`] (`laws.rt`): the most bytes of a unit.
#![tactic(auto)]

mod chunk_sums;
mod chunking;
mod cutter;
mod fed_sums;
mod feeding;
mod filling;
mod gate;
mod input;
mod lane_span;
pub mod laws;
mod owed_chunks;
mod pairs;
mod read_streams;
mod spares;
mod stream_sums;
mod stream_worker;
mod streams;

pub use gate::Gate;
pub use input::hash_input;
pub use streams::{MAX_UNIT_LENGTH, hash_streams, hash_streams_with};
