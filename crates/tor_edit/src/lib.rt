//! Torrents that are changed outside of `info`, so that their info hashes stay what they were.
//!
//! ```rust
//! use tor_edit::with_tracker;
//!
//! let public = with_tracker(alloc, &torrent, Some(b"https://tracker.example/announce"))?;
//! let bare = with_tracker(alloc, &torrent, None)?;
//! ```
//!
//! - [`with_tracker`] (`tracker.rt`): a torrent with another tracker, or with none.
//! - [`laws`] (`laws.rt`): what stays the same.
//!
//! `splice.rt` writes the changed root, whose other pairs are copied as they are spelled; `places.rt` says where in the
//! bytes they are.
#![tactic(auto)]

pub mod laws;
mod places;
mod splice;
mod tracker;

pub use tracker::with_tracker;
