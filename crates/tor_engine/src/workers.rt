//! Units shared among workers, whatever is done with them.
//!
//! - `units.rt`: the units of a plan hashed by one worker or by several. `unit_work.rt`: what a worker does with one.
//! - `halves.rt`: work halved among threads. `turn.rt` deals the units out beforehand, and each worker takes its own
//!   one after the other.
//! - `shared_seat.rt`: a seat at a board for each worker, from which it claims one unit after the other (`taking.rt`);
//!   `on_board.rt` puts what they took in the order of the units. `worker_share.rt`: one worker at a board, for callers
//!   with threads of their own.
//! - `failure.rt`: which of two faults is answered. `roots.rt`: the roots of trees if no board has them.

pub(crate) mod failure;
pub(crate) mod halves;
pub(crate) mod on_board;
pub(crate) mod roots;
pub(crate) mod shared_seat;
pub(crate) mod taking;
pub(crate) mod turn;
pub(crate) mod unit_work;
pub(crate) mod units;
pub(crate) mod worker_share;
