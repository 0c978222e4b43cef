//! Where bytes come from: the files of a source, and an input that is read once.
//!
//! ```rust
//! use tor_source::{FolderSource, Source};
//!
//! let (source, paths) = FolderSource::scan(&rt, rt.alloc(), "folder")?;
//! let known = FolderSource::at(&rt, rt.alloc(), "folder", paths)?;
//! assert_eq!(rt; known.count(), source.count());
//! let mut buffer = [0; 512];
//! if let Some(length) = source.length(0)? {
//!     let count = source.read_at(0, 0, &mut buffer)?;
//!     println!(rt; "{count} of {length} bytes")?;
//! }
//! ```
//!
//! - [`Source`] (`source.rt`): files by their numbers; what a steady source answers.
//! - [`FolderSource`] (`folder.rt` and its folder): the files below a folder, or a file by itself, as the system has
//!   them. [`Survey`]: those that can be taken, and each [`Refused`] one with its [`Refusal`] (`refused.rt`).
//!   [`extra_paths`]: what of these is none of given files.
//! - [`MemSource`] (`memory.rt`), [`FailSource`] (`failing.rt`), [`ShortSource`] (`short.rt`): files in memory, with
//!   faults at chosen offsets, or read in small steps.
//! - [`LazyFile`] (`lazy.rt`): a file of the system that is read once and in order.
//! - [`ScanFault`] (`faults.rt`): why a folder's files are no list. [`is_absence`]: which faults of the system say that
//!   nothing is there.
//! - [`read_parts`], [`read_limited`], [`drop_input`] (`input.rt`): what a reader has, handed on, kept, or dropped, or
//!   the [`InputFault`] that ended it. [`Intake`] (`intake.rt`): what takes the parts. [`fill`] (`filling.rt`): a
//!   buffer filled from a reader, or the [`FillFault`]; [`zeros`] (`buffer.rt`): room to read into.
//! - [`laws`] (`laws.rt`): laws over the sources in memory, and the limits of an input.
#![tactic(auto)]

mod buffer;
mod failing;
mod faults;
mod filling;
mod folder;
mod input;
mod intake;
pub mod laws;
mod lazy;
mod memory;
mod refused;
mod short;
mod source;

pub use buffer::zeros;
pub use failing::FailSource;
pub use faults::{ScanFault, is_absence};
pub use filling::{FillFault, fill};
pub use folder::extra::extra_paths;
pub use folder::listed_file::FileNumber;
pub use folder::{FolderSource, Survey};
pub use input::{InputFault, MAX_INPUT_LENGTH, drop_input, read_limited, read_parts};
pub use intake::{Dropped, Intake};
pub use lazy::LazyFile;
pub use memory::MemSource;
pub use refused::{OtherKind, Refusal, Refused};
pub use short::ShortSource;
pub use source::Source;
