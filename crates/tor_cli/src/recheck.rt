//! The command `recheck`.
//!
//! - `command.rt`: the command; `words.rt`: what its words ask for; `listing.rt`: which files it lists.
//! - `whereabouts.rt`: where the files of the torrent are looked for; `source.rt`: what stands there.
//! - `text.rt` has the pieces and the files looked for, and gives a `Report`; `report.rt` writes what is printed of it,
//!   `found_text.rt` the lines of the files; `record.rt`: both as JSON, with the files that are listed
//!   (`listed_records.rt`, `found_record.rt`) and their bytes that do not hold (`bytes_found.rt`).
//! - `extra.rt`: the files that the torrent does not have, and `extra_text.rt` what is printed of them;
//!   `extra_words.rt`: what the words for them ask for.
//! - `counts.rt`: how many pieces are there and right. `lot.rt`, `lot_words.rt`: those of one lot.

mod bytes_found;
pub(crate) mod command;
pub mod counts;
pub(crate) mod extra;
mod extra_text;
pub(crate) mod extra_words;
mod found_record;
mod found_text;
mod listed_records;
pub(crate) mod listing;
pub(crate) mod lot;
pub(crate) mod lot_words;
mod record;
mod report;
pub(crate) mod source;
mod text;
mod whereabouts;
pub(crate) mod words;
