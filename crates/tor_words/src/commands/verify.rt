//! `verify`.
ghost use Rattle.std.specs.Prelude.{◌≡◌};
ghost use Rattle.tor_words.specs.Bounds.{bounds_of, verify_bounds};
ghost use Rattle.tor_words.specs.CommandLine.{verify_app};
ghost use Rattle.tor_words.specs.Rules.{app_of_table};

use crate::command_table::CommandTable;
use crate::word::{Takes, Word};

/// The command `verify`.
pub fn verify_table() -> CommandTable<'static>
    ensures rules { app_of_table result ≡ verify_app }
    ensures bounds { bounds_of result.words.now ≡ verify_bounds }
{
    CommandTable {
        name: "verify",
        about: "Verify a proof of a piece",
        more: None,
        words: WORDS,
    }
}

const WORDS: &[Word<'static>] = &[
    Word {
        name: "root",
        takes: Takes::Argument {
            number: 1,
            shown: "ROOT",
        },
        beside: &[],
        without: &[],
        help: "Root of the file in the torrent: 64 hexadecimal digits (see check --roots)",
    },
    Word {
        name: "length",
        takes: Takes::Argument {
            number: 2,
            shown: "LENGTH",
        },
        beside: &[],
        without: &[],
        help: "Bytes in the file: from 1 to 1125899906842624",
    },
    Word {
        name: "piece-length",
        takes: Takes::Argument {
            number: 3,
            shown: "PIECELENGTH",
        },
        beside: &[],
        without: &[],
        help: "Bytes in a piece: a power of two from 16384 to 1073741824",
    },
    Word {
        name: "proof",
        takes: Takes::Argument {
            number: 4,
            shown: "PROOF",
        },
        beside: &[],
        without: &[],
        help: "File with the proof",
    },
    Word {
        name: "bytes",
        takes: Takes::MayArgument {
            number: 5,
            shown: "BYTES",
        },
        beside: &[],
        without: &[],
        help: "File with the bytes of the piece, to check them too",
    },
];
