//! `recheck`.
ghost use Rattle.std.specs.Prelude.{◌≡◌};
ghost use Rattle.tor_words.specs.Bounds.{bounds_of, recheck_bounds};
ghost use Rattle.tor_words.specs.CommandLine.{recheck_app};
ghost use Rattle.tor_words.specs.Rules.{app_of_table};

use crate::command_table::CommandTable;
use crate::commands::shared::{JSON, TORRENT};
use crate::word::{Takes, Word};

/// The command `recheck`.
pub fn recheck_table() -> CommandTable<'static>
    ensures rules { app_of_table result ≡ recheck_app }
    ensures bounds { bounds_of result.words.now ≡ recheck_bounds }
{
    CommandTable {
        name: "recheck",
        about: "Check files on disk against a torrent",
        more: None,
        words: WORDS,
    }
}

const WORDS: &[Word<'static>] = &[
    Word {
        name: "files",
        takes: Takes::Nothing,
        beside: &[],
        without: &[],
        help: "Also print a line for each file: whole, bad, short or missing",
    },
    Word {
        name: "bad",
        takes: Takes::Nothing,
        beside: &[],
        without: &[],
        help: "Also print a line for each file that is not whole",
    },
    Word {
        name: "null",
        takes: Takes::Nothing,
        beside: &[],
        without: &[],
        help: "Print only the paths of these files, each ended by a zero byte; needs --bad or --extra",
    },
    JSON,
    Word {
        name: "workers",
        takes: Takes::ValueOr {
            shown: "N",
            default: "4",
        },
        beside: &[],
        without: &[],
        help: "Number of workers: 1 to 64, or auto for one per processor",
    },
    Word {
        name: "keep-going",
        takes: Takes::Nothing,
        beside: &[],
        without: &[],
        help: "Go on past what cannot be read, as if it were missing",
    },
    Word {
        name: "no-links",
        takes: Takes::Nothing,
        beside: &[],
        without: &[],
        help: "Do not follow links below PATH; files behind them count as missing",
    },
    Word {
        name: "brief",
        takes: Takes::Nothing,
        beside: &[],
        without: &["json"],
        help: "Do not print the line of bits",
    },
    Word {
        name: "part",
        takes: Takes::Value { shown: "K/N" },
        beside: &[],
        without: &["files", "bad", "keep-going"],
        help: "Check only part K of N (0-based), such as 0/16",
    },
    Word {
        name: "extra",
        takes: Takes::Nothing,
        beside: &[],
        without: &[
            "files",
            "bad",
            "keep-going",
            "no-links",
            "brief",
            "part",
            "workers",
        ],
        help: "List the files in PATH that are not in the torrent, and check no piece",
    },
    TORRENT,
    Word {
        name: "path",
        takes: Takes::Argument {
            number: 2,
            shown: "PATH",
        },
        beside: &[],
        without: &[],
        help: "Folder with the torrent's files, or its only file",
    },
];
