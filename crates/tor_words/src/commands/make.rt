//! `make` and `plan`, which both say what a torrent is to have.
ghost use Rattle.clap.specs.declared.builder.value_parser.ValueParser.{ValueParser};
ghost use Rattle.std.specs.Prelude.{◌≡◌};
ghost use Rattle.tor_words.specs.Bounds.{bounds_of, make_bounds, plan_bounds};
ghost use Rattle.tor_words.specs.CommandLine.{AreHows, AreKinds, make_app, plan_app};
ghost use Rattle.tor_words.specs.Rules.{app_of_table};

use crate::command_table::CommandTable;
use crate::commands::shared::OUT;
use crate::word::{Takes, Word};

/// The command `make`.
pub fn make_table() -> CommandTable<'static>
    ensures rules { (kinds hows : ValueParser) × AreKinds kinds × AreHows hows
        × (app_of_table result ≡ make_app kinds hows) }
    ensures bounds { bounds_of result.words.now ≡ make_bounds }
{
    CommandTable {
        name: "make",
        about: "Make a torrent of a file, a folder or standard input",
        more: Some(
            "Fastest for a file or folder: --how board --workers auto. The torrent is the same for each HOW.",
        ),
        words: MAKE,
    }
}

/// The command `plan`.
pub fn plan_table() -> CommandTable<'static>
    ensures rules { (kinds : ValueParser) × AreKinds kinds × (app_of_table result ≡ plan_app kinds) }
    ensures bounds { bounds_of result.words.now ≡ plan_bounds }
{
    CommandTable {
        name: "plan",
        about: "Write a plan by which many machines hash one torrent",
        more: None,
        words: PLAN,
    }
}

const MAKE: &[Word<'static>] = &[
    Word {
        name: "name",
        takes: Takes::WantedUnless {
            shown: "NAME",
            other: "plan",
        },
        beside: &[],
        without: &[],
        help: NAME,
    },
    PIECE_LENGTH,
    KIND,
    ANNOUNCE,
    PRIVATE,
    TAIL,
    ATTRS,
    FILES_FROM,
    Word {
        name: "how",
        takes: Takes::NameOr {
            shown: "HOW",
            names: &["one", "halves", "board", "streams"],
            default: "one",
        },
        beside: &[],
        without: &[],
        help: "Who hashes: one worker, or several that split the files (halves), share a queue (board) or follow one reader (streams)",
    },
    Word {
        name: "workers",
        takes: Takes::ValueOr {
            shown: "N",
            default: "1",
        },
        beside: &[],
        without: &[],
        help: "Number of workers for halves, board and streams: 1 to 64, or auto for one per processor",
    },
    SPAN,
    Word {
        name: "check-after",
        takes: Takes::Nothing,
        beside: &["path"],
        without: &[],
        help: "Read PATH again, and write the torrent only if every piece still matches",
    },
    OUT,
    Word {
        name: "path",
        takes: Takes::MayArgument {
            number: 1,
            shown: "PATH",
        },
        beside: &[],
        without: &[],
        help: "File or folder to make a torrent of (default: standard input)",
    },
    Word {
        name: "plan",
        takes: Takes::Value { shown: "PLAN" },
        beside: &["part", "path"],
        without: &SAID,
        help: "Hash a part of the plan in PLAN; the plan has the torrent's settings",
    },
    Word {
        name: "part",
        takes: Takes::Value { shown: "K/N" },
        beside: &["plan"],
        without: &[],
        help: "Hash part K of N (0-based), such as 0/16; needs --plan",
    },
];

const PLAN: &[Word<'static>] = &[
    Word {
        name: "name",
        takes: Takes::Wanted { shown: "NAME" },
        beside: &[],
        without: &[],
        help: NAME,
    },
    PIECE_LENGTH,
    KIND,
    ANNOUNCE,
    PRIVATE,
    TAIL,
    ATTRS,
    FILES_FROM,
    SPAN,
    OUT,
    Word {
        name: "path",
        takes: Takes::Argument {
            number: 1,
            shown: "PATH",
        },
        beside: &[],
        without: &[],
        help: "File or folder to make a torrent of",
    },
];

// What a plan says itself.
const SAID: [&str; 10] = [
    "name",
    "piece-length",
    "kind",
    "announce",
    "private",
    "tail",
    "attrs",
    "files-from",
    "span",
    "check-after",
];

const NAME: &str = "Name of the torrent, and of a single file";

const PIECE_LENGTH: Word<'static> = Word {
    name: "piece-length",
    takes: Takes::ValueOr {
        shown: "N",
        default: "262144",
    },
    beside: &[],
    without: &[],
    help: "Bytes in a piece: a power of two from 16384 to 1073741824, or auto to suit the size of PATH",
};

const KIND: Word<'static> = Word {
    name: "kind",
    takes: Takes::NameOr {
        shown: "KIND",
        names: &["v1", "v2", "hybrid"],
        default: "v2",
    },
    beside: &[],
    without: &[],
    help: "Which clients can use the torrent: BitTorrent v1, v2, or both (hybrid)",
};

const ANNOUNCE: Word<'static> = Word {
    name: "announce",
    takes: Takes::Value { shown: "URL" },
    beside: &[],
    without: &[],
    help: "URL of the tracker",
};

const PRIVATE: Word<'static> = Word {
    name: "private",
    takes: Takes::Nothing,
    beside: &[],
    without: &[],
    help: "Allow peers from the tracker only",
};

const TAIL: Word<'static> = Word {
    name: "tail",
    takes: Takes::Nothing,
    beside: &[],
    without: &[],
    help: "Pad the last file too, in a hybrid of a folder",
};

const ATTRS: Word<'static> = Word {
    name: "attrs",
    takes: Takes::Value { shown: "FILE" },
    beside: &[],
    without: &[],
    help: "Mark files as executable or hidden: FILE has a line for each, with x, h or hx, a space, the path",
};

const LISTS: &str =
    "Take only the files that FILE lists (-: standard input): paths below PATH, each ended by a zero byte";

const FILES_FROM: Word<'static> = Word {
    name: "files-from",
    takes: Takes::Value { shown: "FILE" },
    beside: &["path"],
    without: &[],
    help: LISTS,
};

const SPAN: Word<'static> = Word {
    name: "span",
    takes: Takes::NumberOr {
        shown: "N",
        default: "16",
    },
    beside: &[],
    without: &[],
    help: "Pieces that a worker takes at a time: a power of two from 1 to 1024",
};
