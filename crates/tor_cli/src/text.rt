//! Texts that several commands read or print.
//!
//! - `numbers.rt`, `digits.rt`: numbers and hashes. `fronts.rt`: beginnings of texts. `escape.rt`: the user's text in a
//!   line. `json_line.rt`: JSON on one line.

pub(crate) mod digits;
pub(crate) mod escape;
pub(crate) mod fronts;
pub(crate) mod json_line;
pub(crate) mod numbers;
