//! The command `make`.
//!
//! - `command.rt`: the command; `options.rt`: what its words ask for; `way.rt`: who hashes.
//! - `piece_length.rt`: how long pieces are to be.
//! - `from_place.rt`: the torrent of a file or a folder. `attrs_file.rt`: the letters of its files; `attrs_text.rt`:
//!   the text that has them, read.
//! - `chosen_files.rt`: the files that a list chooses; `paths_text.rt`: the text that lists them, read, `path_text.rt`
//!   each path of it.
//! - `check_after.rt`: whether its files have each piece of it afterwards. `out_file.rt`: the file that a torrent goes
//!   to.

mod attrs_file;
pub mod attrs_text;
mod check_after;
pub(crate) mod chosen_files;
pub(crate) mod command;
pub(crate) mod from_place;
pub(crate) mod options;
pub(crate) mod out_file;
mod path_text;
pub mod paths_text;
pub(crate) mod piece_length;
pub(crate) mod way;
