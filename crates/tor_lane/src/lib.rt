//! A lane: chunks of bytes that one feeder puts and several takers take, each chunk by one of them. The feeder waits
//! while the channel between them is full, a taker while it is empty.
//!
//! ```rust
//! use tor_lane::{Chunk, lane};
//!
//! let (mut feeder, mut takers) = lane(alloc, workers)?;
//! // The calling thread puts, and ends the lane.
//! feeder.put(rt, Chunk { unit, bytes, zeros });
//! feeder.end(rt);
//! // The thread of each taker takes until its mark.
//! 'chunks: while let Some(chunk) = taker.take(rt) {
//!     hash(&chunk);
//! }
//! // At the end the takers are together again.
//! feeder.settle(takers);
//! ```
//!
//! - [`lane`] (`open.rt`): a feeder and its takers. [`Chunk`] (`chunk.rt`): what goes from one to the others.
//! - [`Feeder`] (`feeder.rt`) puts chunks, ends the lane, and shows what its takers took together.
//! - [`Taker`] (`taker.rt`) takes chunks until its mark.
//! - [`lane_law`] (`laws.rt`): what holds of a lane between any two steps. [`rule_law`]: that a lane's channel keeps
//!   the rule of which it speaks, and that its steps are those. What the two name stands in [`rule`], [`view`] and
//!   [`Message`].
//!
//! A lane stands on a channel of the kit. `view.rt` says what each end knows, and `rule.rt` what every step keeps.
#![tactic(auto)]

mod chunk;
mod feeder;
mod laws;
mod open;
pub mod rule;
mod taker;
pub mod view;

pub use chunk::{Chunk, Message};
pub use feeder::Feeder;
pub use laws::{lane_law, rule_law};
pub use open::lane;
pub use taker::Taker;
