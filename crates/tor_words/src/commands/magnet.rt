//! `magnet`.
ghost use Rattle.std.specs.Prelude.{◌≡◌};
ghost use Rattle.tor_words.specs.Bounds.{bounds_of, magnet_bounds};
ghost use Rattle.tor_words.specs.CommandLine.{magnet_app};
ghost use Rattle.tor_words.specs.Rules.{app_of_table};

use crate::command_table::CommandTable;
use crate::commands::shared::TORRENT;
use crate::word::{Takes, Word};

/// The command `magnet`.
pub fn magnet_table() -> CommandTable<'static>
    ensures rules { app_of_table result ≡ magnet_app }
    ensures bounds { bounds_of result.words.now ≡ magnet_bounds }
{
    CommandTable {
        name: "magnet",
        about: "Print the magnet link of a torrent",
        more: None,
        words: WORDS,
    }
}

const WORDS: &[Word<'static>] = &[
    Word {
        name: "name",
        takes: Takes::Nothing,
        beside: &[],
        without: &[],
        help: "Add the torrent's name, which clients show until they know its files",
    },
    Word {
        name: "trackers",
        takes: Takes::Nothing,
        beside: &[],
        without: &[],
        help: "Add the URL of the torrent's tracker, if it has one",
    },
    TORRENT,
];
