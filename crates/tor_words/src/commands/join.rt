//! `join`.
ghost use Rattle.std.specs.Prelude.{◌≡◌};
ghost use Rattle.tor_words.specs.Bounds.{bounds_of, join_bounds};
ghost use Rattle.tor_words.specs.CommandLine.{join_app};
ghost use Rattle.tor_words.specs.Rules.{app_of_table};

use crate::command_table::CommandTable;
use crate::commands::shared::OUT;
use crate::word::{Takes, Word};

/// The command `join`.
pub fn join_table() -> CommandTable<'static>
    ensures rules { app_of_table result ≡ join_app }
    ensures bounds { bounds_of result.words.now ≡ join_bounds }
{
    CommandTable {
        name: "join",
        about: "Write the torrent of a plan and all its parts",
        more: None,
        words: WORDS,
    }
}

const WORDS: &[Word<'static>] = &[
    OUT,
    Word {
        name: "plan",
        takes: Takes::Argument {
            number: 1,
            shown: "PLAN",
        },
        beside: &[],
        without: &[],
        help: "File with the plan",
    },
    Word {
        name: "part",
        takes: Takes::Arguments {
            number: 2,
            shown: "PART",
        },
        beside: &[],
        without: &[],
        help: "Files with the parts, in any order",
    },
];
