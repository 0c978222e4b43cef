//! Texts that tell of torrents, written as they are made: they go out through a buffer of fixed size, and no text is
//! held.
//!
//! - [`Buffer`] (`buffer.rt`): a text on its way to a [`Sink`] (`sink.rt`), which any writer is. All memory for it is
//!   taken when it is made.
//! - What it takes: numbers (`numbers.rt`), hashes (`digits.rt`), the user's text (`spelled.rt`) in a [`Spelling`]
//!   (`spelling.rt`), paths (`path.rt`), JSON (`json_text.rt`), and several of these at once ([`Segment`],
//!   `segment.rt`).
//! - What a torrent describes: as lines (`lines.rt`), and as an object of JSON (`record.rt`; `servers.rt` has the
//!   trackers and web seeds in it).
//! - [`write_lines`], [`write_rooted_lines`], [`write_paths`], [`write_record`] (`report.rt`): the same into a writer,
//!   from the first byte to the last, or the [`ReportFault`] (`fault.rt`) that ended it; [`send_object`]: the object
//!   into any sink.
//! - [`torrent_with_hashes`] (`judged.rt`): the torrent that bytes are, as [`Judged`]; [`torrent_tree`]: its tree.
#![tactic(auto)]

mod buffer;
mod digits;
mod fault;
mod json_text;
mod judged;
mod lines;
mod numbers;
mod path;
mod record;
mod report;
mod segment;
mod servers;
mod sink;
mod spelled;
mod spelling;

pub use buffer::Buffer;
pub use fault::ReportFault;
pub use judged::{Judged, torrent_tree, torrent_with_hashes};
pub use lines::{v1_of, v2_of, word_of};
pub use report::{send_object, write_lines, write_paths, write_record, write_rooted_lines};
pub use segment::Segment;
pub use sink::Sink;
pub use spelling::Spelling;
