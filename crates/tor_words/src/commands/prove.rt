//! `prove`.
ghost use Rattle.std.specs.Prelude.{◌≡◌};
ghost use Rattle.tor_words.specs.Bounds.{bounds_of, prove_bounds};
ghost use Rattle.tor_words.specs.CommandLine.{prove_app};
ghost use Rattle.tor_words.specs.Rules.{app_of_table};

use crate::command_table::CommandTable;
use crate::commands::shared::TORRENT;
use crate::word::{Takes, Word};

/// The command `prove`.
pub fn prove_table() -> CommandTable<'static>
    ensures rules { app_of_table result ≡ prove_app }
    ensures bounds { bounds_of result.words.now ≡ prove_bounds }
{
    CommandTable {
        name: "prove",
        about: "Prove that a piece belongs to a file of a torrent",
        more: None,
        words: WORDS,
    }
}

const WORDS: &[Word<'static>] = &[
    TORRENT,
    Word {
        name: "file-number",
        takes: Takes::NumberArgument {
            number: 2,
            shown: "FILENUMBER",
        },
        beside: &[],
        without: &[],
        help: "Number of the file in the torrent (0-based), as check lists them",
    },
    Word {
        name: "index",
        takes: Takes::NumberArgument {
            number: 3,
            shown: "INDEX",
        },
        beside: &[],
        without: &[],
        help: "Number of the piece in the file (0-based)",
    },
];
