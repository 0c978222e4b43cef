//! How files are cut into units of work for hashing workers.
//!
//! A unit is so many pieces: of one file if the torrent has trees (BEP 52, "pieces root"), else of the joined files
//! (BEP 3, "info dictionary"). Units are numbered in the order of the list.
//!
//! - [`Plan`] (`plans.rt`): the units of a list of files, of lengths, or of a torrent's entries, padding among them.
//!   `whole.rt` makes one unit of all bytes. `unit_cut.rt` cuts a unit every so many bytes: the whole, or by
//!   `separate.rt` each file.
//! - [`PlanUnit`], [`Parts`], [`Part`] (`units.rt`): which bytes a unit has.
//! - [`Forest`], [`Run`] (`forests.rt`): which units are of one file's tree.
//! - [`laws`]: what follows from the definitions alone.
//!
//! ```rust
//! use tor_plan::Plan;
//!
//! let plan = Plan::new(rt.alloc(), &list, Kind::V2, 16384, 16)?;
//! for unit in plan.units() {
//!     assert!(rt; unit.parts.as_slice().len() == 1);
//! }
//! ```
#![tactic(auto)]

mod forests;
pub mod laws;
mod plans;
mod separate;
mod unit_cut;
mod units;
mod whole;

pub use forests::{Forest, Run};
pub use plans::Plan;
pub use units::{Part, Parts, PlanUnit};
