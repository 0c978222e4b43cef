//! `scan`.
ghost use Rattle.std.specs.Prelude.{◌≡◌};
ghost use Rattle.tor_words.specs.Bounds.{bounds_of, scan_bounds};
ghost use Rattle.tor_words.specs.CommandLine.{scan_app};
ghost use Rattle.tor_words.specs.Rules.{app_of_table};

use crate::command_table::CommandTable;
use crate::commands::shared::JSON;
use crate::word::{Takes, Word};

/// The command `scan`.
pub fn scan_table() -> CommandTable<'static>
    ensures rules { app_of_table result ≡ scan_app }
    ensures bounds { bounds_of result.words.now ≡ scan_bounds }
{
    CommandTable {
        name: "scan",
        about: "List the files that make would take, and what it would refuse",
        more: None,
        words: WORDS,
    }
}

const WORDS: &[Word<'static>] = &[
    Word {
        name: "files-from",
        takes: Takes::Value { shown: "FILE" },
        beside: &[],
        without: &[],
        help: LISTS,
    },
    Word {
        name: "null",
        takes: Takes::Nothing,
        beside: &[],
        without: &[],
        help: "Print only the paths of the files to take, each ended by a zero byte",
    },
    JSON,
    Word {
        name: "path",
        takes: Takes::Argument {
            number: 1,
            shown: "PATH",
        },
        beside: &[],
        without: &[],
        help: "File or folder to look at",
    },
];

const LISTS: &str =
    "Look only for the files that FILE lists (-: standard input): paths below PATH, each ended by a zero byte";
