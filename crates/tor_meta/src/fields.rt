//! What a torrent's dictionaries have.
//!
//! - `info.rt`: the dictionary `info`, with the entries that `entries.rt` lays out.
//! - `layers.rt`: the piece layers. `items.rt`: the values of which all are made.

pub(crate) mod entries;
pub(crate) mod info;
pub(crate) mod items;
pub(crate) mod layers;
