//! Bencode (BEP 3, "bencoding"): trees, and the one spelling that each lawful tree has.
//!
//! ```rust
//! use tor_bencode::{Item, decode, encode, find, span};
//!
//! let tree = decode(alloc, b"d1:ai7e1:blee")?;
//! assert!(rt; matches!(find(tree.item(), b"a"), Some(Item::Int(7))));
//! assert_eq!(rt; span(b"d1:ai7e1:blee", b"b"), Some((10, 12)));
//! assert_eq!(rt; encode(alloc, &tree)?.as_slice(), b"d1:ai7e1:blee".as_slice());
//! ```
//!
//! - [`Item`] (`item.rt`): a bencode value, which owns its bytes.
//! - [`ItemRef`] (`item_ref.rt`): one whose bytes are those that were read, and the values of its keys; [`lend`]
//!   (`owned.rt`): that of an item.
//! - [`Tree`] (`tree.rt`): an item that may stand in a torrent: keys rise, nesting has an end.
//! - [`encode`] (`write.rt`): the spelling of a tree.
//! - [`decode`] and [`decode_ref`] (`read.rt`): the tree of a spelling, or the first fault of the bytes.
//! - [`find`] (`lookup.rt`): the value of a key.
//! - `span` (`value_span.rt`) and [`span_of_key`] (`spelled_span.rt`): where the value of a key is spelled.
//! - [`BenError`] (`error.rt`), [`Fault`] (`fault.rt`): what these refuse.
//! - [`laws`] (`laws.rt`): laws over the definitions of `specs/`.
//!
//! `token.rt` reads integers and strings; `order.rt` compares keys; `stop.rt` says where reading stops.
#![tactic(auto)]

mod error;
mod fault;
mod item;
mod item_ref;
pub mod laws;
mod lookup;
mod order;
mod owned;
mod read;
mod spelled_span;
mod stop;
mod token;
mod tree;
mod value_span;
mod write;

/// How many lists and dictionaries may be open at once: a limit of this profile.
pub const MAX_NESTING: usize = 100;

pub use error::BenError;
pub use fault::Fault;
pub use item::Item;
pub use item_ref::ItemRef;
pub use lookup::find;
pub use owned::lend;
pub use read::{decode, decode_ref};
pub use spelled_span::span_of_key;
pub use tree::Tree;
pub use value_span::span;
pub use write::encode;
