//! The tests of `tor_tree`.
//!
//! - `names.rt`: names and paths; `lists.rt`: lists of files, with their letters, and of paths.
//! - `trees.rt`: the `file tree`.

mod lists;
mod names;
mod trees;
