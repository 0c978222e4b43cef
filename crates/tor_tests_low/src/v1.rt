//! The tests of `tor_v1`.
//!
//! - `layouts.rt`: the list of files of version 1.
//! - `sums.rt`: the SHA-1 of its pieces.

mod layouts;
mod sums;
