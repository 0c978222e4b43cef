//! Why something is refused, in words: a second line after a code.
//!
//! ```rust
//! use tor_check::validate;
//! use tor_explain::refusal_text;
//!
//! if let Err(refusal) = validate(alloc, &bytes) {
//!     let text = refusal_text(alloc, &bytes, &refusal)?;
//!     eprintln!(rt; "{refusal}\n{text}")?;
//! }
//! ```
//!
//! Each text is one line: it has no control byte, and from 1 to [`MAX_TEXT`] bytes.
//!
//! - [`refusal_text`] (`refusal.rt`): where in bytes that are no torrent the fault is, in the torrent's own words.
//! - [`name_text`] (`names.rt`): why a name is none.
//! - [`list_text`], [`tree_text`], [`layout_text`], [`proof_text`], [`scan_text`], [`sums_text`] (`codes.rt`): what a
//!   code means, and what can be done; [`plain_text`]: words that say it.
//! - [`file_text`], [`place_text`], [`line_text`], [`entry_text`], [`refused_text`] (`places.rt`): which file or place
//!   a fault is of.
//!
//! `line.rt` keeps a text to one line, and `cite.rt` cites a torrent's names and bytes in it. By subject: `bencode.rt`,
//! `head.rt`, `list.rt` and `properties.rt`, `clashes.rt`, `sums.rt`, `tree.rt`, `layers.rt`, `sides.rt`. `shape.rt`
//! says what a value is. A function `tell_..` answers whether there was something to tell; if not, it wrote nothing.
#![tactic(auto)]

mod bencode;
mod cite;
mod clashes;
mod codes;
mod head;
mod layers;
mod line;
mod list;
mod names;
mod places;
mod properties;
mod refusal;
mod shape;
mod sides;
mod sums;
mod tree;

pub use codes::{
    code_text, layout_text, list_text, plain_text, proof_text, scan_text, sums_text, tree_text,
};
pub use line::MAX_TEXT;
pub use names::name_text;
pub use places::{entry_text, file_text, line_text, place_text, refused_text};
pub use refusal::refusal_text;
