//! The board that hashing workers share: units, each claimed once, and the Merkle trees over their hashes. No worker
//! waits for another: the last to come to a node of a tree joins the two hashes there.
//!
//! ```rust
//! use tor_board::Board;
//!
//! let (board, mut seat) = Board::open(alloc, plan.forest(), units)?;
//! 'units: while let Some(job) = board.claim(&mut seat) {
//!     let hash = hash_unit(job.number());
//!     let given = board.give(&mut seat, job, hash);
//! }
//! let closed = board.close(seat);
//! ```
//!
//! - [`Board`] (`board.rt`): made by `open` (`open.rt`); `split`, `join` and `room` (`share.rt`) cut a [`Seat`]
//!   (`seat.rt`) in two, put two together, and tell how many can be made of one.
//! - `claim` and `fail` (`claim.rt`) take a unit as a [`Job`], and give it up.
//! - `give` (`give.rt`) hands in a unit's hash, which climbs its tree (`climb.rt`), and tells what it did ([`Given`]).
//! - `close` (`close.rt`) tells the least unit that failed, and the roots ([`Closed`]).
//! - [`board_law`] (`laws.rt`): what holds of a board between any two steps, and of the machine of events that it is.
//!   [`rule_law`]: that a board's table keeps the rule of which it speaks, and that its steps are those events. What
//!   the two name stands in [`rule`], [`view`] and [`Shape`]. [`runs_are_apart`]: over which forests a board opens.
//!
//! A board stands on a table of words and slots of the kit. `tree.rt` says which word and which slots a node has,
//! `view.rt` what a seat knows, and `rule.rt` what every step keeps. `specs/Machine.antt` is the machine.
#![tactic(auto)]

mod board;
mod claim;
mod climb;
mod close;
mod give;
mod laws;
mod open;
pub mod rule;
mod seat;
mod share;
mod tree;
pub mod view;

pub use board::{Board, SplitError};
pub use close::Closed;
pub use give::Given;
pub use laws::{board_law, rule_law, runs_are_apart};
pub use seat::{Job, Seat};
pub use tree::Shape;
