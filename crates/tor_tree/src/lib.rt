//! Names, paths, lists of files and the `file tree` of BitTorrent v2 (BEP 52, "file tree").
//!
//! ```rust
//! use tor_tree::{FileList, FilePath, Name, from_item, to_item};
//!
//! let names = vec![in alloc; Name::new(alloc, b"a")?]?;
//! let files = vec![in alloc; (FilePath::new(names).ok_or("a path")?, 0)]?;
//! let list = FileList::build(alloc, files)?;
//! let tree = to_item(alloc, &list, &[None])?;
//! assert_eq!(rt; from_item(alloc, &tree)?.len(), 1);
//! ```
//!
//! - [`Name`] (`names.rt`): the name of a file or a folder.
//! - [`FilePath`] (`paths.rt`): the names that lead to a file, in the order of paths.
//! - [`FileList`] (`lists.rt`; `lettered_lists.rt` takes letters): files in order, each once, with their letters.
//! - [`Attr`] (`attr.rt`): the letters of a file that a torrent is made with.
//! - [`PathList`] (`path_lists.rt`): paths in order, each with its index among those
//!   that were handed in, if lengths are still to be asked.
//! - [`from_item`] (`read_item.rt`), [`from_item_ref`] (`read_tree.rt`): the files that a tree describes, each a
//!   [`TreeFile`] (`tree_file.rt`); they are in order.
//! - [`has_attr`], [`letters_of`] (`properties.rt`): whether a file has `attr`, and its letters.
//! - [`to_item`] (`write_tree.rt`): the tidy tree of a list, its letters among it; there is one at most.
//! - [`Kind`] (`kinds.rt`): which sides a torrent has.
//! - [`laws`] (`laws.rt`): laws over the definitions of `specs/`.
//!
//! `path_faults.rt` judges sorted paths. `entries.rt`, `properties.rt` and `mixed.rt` read the parts of a tree.
#![tactic(auto)]

mod attr;
mod entries;
mod kinds;
pub mod laws;
mod lettered_lists;
mod lists;
mod mixed;
mod names;
mod path_faults;
mod path_lists;
mod paths;
mod properties;
mod read_item;
mod read_tree;
mod tree_file;
mod write_tree;

pub use attr::Attr;
pub use kinds::Kind;
pub use lists::{FileList, ListError, MAX_TOTAL, ROUNDING};
pub use names::{Name, NameError, copy_names};
pub use path_lists::PathList;
pub use paths::{FilePath, MAX_NAMES, copy_paths};
pub use properties::{has_attr, letters_of};
pub use read_item::from_item;
pub use read_tree::from_item_ref;
pub use tree_file::{TreeFault, TreeFile};
pub use write_tree::to_item;
