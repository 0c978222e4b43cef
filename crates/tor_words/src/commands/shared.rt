//! What several commands have.
use crate::word::{Takes, Word};

/// The file with the torrent, which is the first argument.
pub const TORRENT: Word<'static> = Word {
    name: "file",
    takes: Takes::Argument {
        number: 1,
        shown: "FILE",
    },
    beside: &[],
    without: &[],
    help: "Torrent file",
};

/// All in JSON, and so no paths that are ended by zero bytes.
pub const JSON: Word<'static> = Word {
    name: "json",
    takes: Takes::Nothing,
    beside: &[],
    without: &["null"],
    help: "Print one JSON object instead of lines",
};

/// The file that is written.
pub const OUT: Word<'static> = Word {
    name: "out",
    takes: Takes::Value { shown: "FILE" },
    beside: &[],
    without: &[],
    help: "Write to FILE instead of standard output",
};
