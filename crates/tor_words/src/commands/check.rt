//! `check`.
ghost use Rattle.std.specs.Prelude.{◌≡◌};
ghost use Rattle.tor_words.specs.Bounds.{bounds_of, check_bounds};
ghost use Rattle.tor_words.specs.CommandLine.{check_app};
ghost use Rattle.tor_words.specs.Rules.{app_of_table};

use crate::command_table::CommandTable;
use crate::commands::shared::{JSON, TORRENT};
use crate::word::{Takes, Word};

/// The command `check`.
pub fn check_table() -> CommandTable<'static>
    ensures rules { app_of_table result ≡ check_app }
    ensures bounds { bounds_of result.words.now ≡ check_bounds }
{
    CommandTable {
        name: "check",
        about: "Validate a torrent and show what it contains",
        more: None,
        words: WORDS,
    }
}

const WORDS: &[Word<'static>] = &[
    Word {
        name: "null",
        takes: Takes::Nothing,
        beside: &[],
        without: &[],
        help: "Print only the paths of the files, each ended by a zero byte",
    },
    JSON,
    Word {
        name: "roots",
        takes: Takes::Nothing,
        beside: &[],
        without: &["null", "json"],
        help: "Also print the root of each file, the hash of its Merkle tree",
    },
    TORRENT,
];
