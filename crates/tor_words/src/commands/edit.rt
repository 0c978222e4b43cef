//! `edit`.
ghost use Rattle.std.specs.Prelude.{◌≡◌};
ghost use Rattle.tor_words.specs.Bounds.{bounds_of, edit_bounds};
ghost use Rattle.tor_words.specs.CommandLine.{edit_app};
ghost use Rattle.tor_words.specs.Rules.{app_of_table};

use crate::command_table::CommandTable;
use crate::commands::shared::{OUT, TORRENT};
use crate::word::{Takes, Word};

/// The command `edit`.
pub fn edit_table() -> CommandTable<'static>
    ensures rules { app_of_table result ≡ edit_app }
    ensures bounds { bounds_of result.words.now ≡ edit_bounds }
{
    CommandTable {
        name: "edit",
        about: "Write a torrent with another tracker, or with none",
        more: None,
        words: WORDS,
    }
}

const WORDS: &[Word<'static>] = &[
    Word {
        name: "announce",
        takes: Takes::WantedUnless {
            shown: "URL",
            other: "no-announce",
        },
        beside: &[],
        without: &[],
        help: "URL of the tracker, in place of all that the torrent has",
    },
    Word {
        name: "no-announce",
        takes: Takes::Nothing,
        beside: &[],
        without: &["announce"],
        help: "Remove all trackers",
    },
    OUT,
    TORRENT,
];
