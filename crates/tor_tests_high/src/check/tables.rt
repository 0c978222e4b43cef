//! Torrents with the entries of their v1 side, padding among them: worked out from BEP 3, BEP 47 and BEP 52. Hashes are
//! any bytes. What else is told of these torrents is in `tests/verdicts.py` and `tests/sides.py`.

/// Whether an entry is padding, executable, hidden.
pub(crate) type Letters = (bool, bool, bool);

const PLAIN: Letters = (false, false, false);

const PAD: Letters = (true, false, false);

const EXEC: Letters = (false, true, false);

const BOTH: Letters = (false, true, true);

/// The path, the length and the letters of an entry.
pub(crate) type Told = (&'static str, u64, Letters);

const A: Told = ("a", 2, PLAIN);

const AA_0: Told = ("aa", 0, PLAIN);

const A_0: Told = ("a", 0, PLAIN);

const A_0_EXEC: Told = ("a", 0, EXEC);

const A_BOTH: Told = ("a", 2, BOTH);

const B: Told = ("b", 1, PLAIN);

const B_0: Told = ("b", 0, PLAIN);

const B_BOTH: Told = ("b", 1, BOTH);

const B_EXEC: Told = ("b", 1, EXEC);

const PADDING_0: Told = (".pad/0", 0, PAD);

const PADDING_5: Told = (".pad/5", 5, PAD);

const PADDING_7: Told = (".pad/7", 7, PAD);

const PADDING_382: Told = (".pad/382", 382, PAD);

const PADDING_383: Told = (".pad/383", 383, PAD);

const PADDING_16000: Told = (".pad/16000", 16000, PAD);

const PADDING_16382: Told = (".pad/16382", 16382, PAD);

const PADDING_16383: Told = (".pad/16383", 16383, PAD);

/// What a torrent begins and ends with.
#[derive(Clone, Copy)]
pub(crate) enum Of {
    List,
    Two,
    Full,
    Empty,
    Folder,
    File,
    Dated,
    Lettered,
    Alone,
    Whole,
}

/// What a torrent begins and ends with, its middle in parts, and each entry.
pub(crate) type Row = (Of, &'static [&'static [u8]], &'static [Told]);

// What stands before and after the entries of a torrent of version 1, the folder `f`, one piece in all.
const LIST: &[u8] = b"d4:infod5:filesl";

const LIST_END: &[u8] = b"e4:name1:f12:piece lengthi16384e6:pieces20:0123456789abcdef0123ee";

// What stands before the entries of a hybrid, the folder `f`: its tree, of the files a of two bytes and b of one.
const TWO: &[u8] =
    b"d4:infod9:file treed1:ad0:d6:lengthi2e11:pieces root32:0123456789abcdef0123456789abcdefee\
1:bd0:d6:lengthi1e11:pieces root32:0123456789abcdef0123456789abcdefeee5:filesl";

// The tree of a of two bytes and the empty files aa and b; of the empty file b; that of TWO with an empty folder d.
const ONE_FULL: &[u8] =
    b"d4:infod9:file treed1:ad0:d6:lengthi2e11:pieces root32:0123456789abcdef0123456789abcdefee\
2:aad0:d6:lengthi0eee1:bd0:d6:lengthi0eeee5:filesl";

const EMPTY: &[u8] = b"d4:infod9:file treed1:bd0:d6:lengthi0eeee5:filesl";

const WITH_FOLDER: &[u8] = b"d4:infod9:file treed1:ad0:d6:lengthi2e\
11:pieces root32:0123456789abcdef0123456789abcdefee\
1:bd0:d6:lengthi1e11:pieces root32:0123456789abcdef0123456789abcdefee1:ddee5:filesl";

// The tree of TWO, the empty file aa between its files, and b with a letter; TWO with other keys before `info`.
const WITH_FILE: &[u8] = b"d4:infod9:file treed1:ad0:d6:lengthi2e\
11:pieces root32:0123456789abcdef0123456789abcdefee2:aad0:d6:lengthi0eee\
1:bd0:d4:attr1:x6:lengthi1e11:pieces root32:0123456789abcdef0123456789abcdefeee5:filesl";

const DATED: &[u8] =
    b"d10:created by3:any13:creation datei1700000000e4:infod9:file treed1:ad0:d6:lengthi2e\
11:pieces root32:0123456789abcdef0123456789abcdefee\
1:bd0:d6:lengthi1e11:pieces root32:0123456789abcdef0123456789abcdefeee5:filesl";

// TWO up to the properties of b in the tree, and from their `length` on; what follows the letters of the empty file a
// alone, in the tree with an x.
const B_BEGINS: &[u8] = b"d4:infod9:file treed1:ad0:d6:lengthi2e\
11:pieces root32:0123456789abcdef0123456789abcdefee1:bd0:d";

const B_ENDS: &[u8] = b"6:lengthi1e11:pieces root32:0123456789abcdef0123456789abcdefeee5:filesl";

const ALONE: &[u8] = b"9:file treed1:ad0:d4:attr1:x6:lengthi0eeee\
6:lengthi0e12:meta versioni2e4:name1:a12:piece lengthi16384e6:pieces0:ee";

// What stands after the entries, with no piece, one and two.
const END_0: &[u8] =
    b"e12:meta versioni2e4:name1:f12:piece lengthi16384e6:pieces0:e12:piece layersdee";

const END_1: &[u8] = b"e12:meta versioni2e4:name1:f12:piece lengthi16384e\
6:pieces20:0123456789abcdef0123e12:piece layersdee";

const END_2: &[u8] = b"e12:meta versioni2e4:name1:f12:piece lengthi16384e\
6:pieces40:0123456789abcdef01230123456789abcdef0123e12:piece layersdee";

/// What it begins with, and what it ends with.
pub(crate) fn ends_of(of: Of) -> (&'static [u8], &'static [u8]) {
    match of {
        Of::List => (LIST, LIST_END),
        Of::Two => (TWO, END_2),
        Of::Full => (ONE_FULL, END_1),
        Of::Empty => (EMPTY, END_0),
        Of::Folder => (WITH_FOLDER, END_2),
        Of::File => (WITH_FILE, END_2),
        Of::Dated => (DATED, END_2),
        Of::Lettered => (B_BEGINS, END_2),
        Of::Alone => (b"d4:infod", ALONE),
        Of::Whole => (b"", b""),
    }
}

// Entries: the files a and b, the padding between them, and empty files.
const FILE_A: &[u8] = b"d6:lengthi2e4:pathl1:aee";

const PADDING: &[u8] = b"d4:attr1:p6:lengthi16382e4:pathl4:.pad5:16382ee";

const FILE_B: &[u8] = b"d6:lengthi1e4:pathl1:bee";

const EMPTY_AA: &[u8] = b"d6:lengthi0e4:pathl2:aaee";

const EMPTY_B: &[u8] = b"d6:lengthi0e4:pathl1:bee";

pub(crate) const PADDED: &[Row] = &[
    (
        Of::List,
        &[FILE_A, b"d4:attr1:p6:lengthi5ee"],
        &[A, PADDING_5],
    ),
    (
        Of::List,
        &[FILE_A, b"d4:attr1:p6:lengthi5e4:pathi7ee"],
        &[A, PADDING_5],
    ),
    (
        Of::List,
        &[FILE_A, b"d4:attr1:p6:lengthi5e4:pathlee"],
        &[A, PADDING_5],
    ),
    (
        Of::List,
        &[FILE_A, b"d4:attr1:p6:lengthi5e4:pathl2:..i3eee"],
        &[A, PADDING_5],
    ),
    (
        Of::List,
        &[FILE_A, b"d4:attr1:p6:lengthi5e4:pathl1:aee"],
        &[A, PADDING_5],
    ),
    (
        Of::List,
        &[FILE_A, b"d4:attr1:p6:lengthi0e4:pathl4:.pad1:0ee"],
        &[A, PADDING_0],
    ),
    (
        Of::List,
        &[b"d4:attr1:p6:lengthi5ee", FILE_A],
        &[PADDING_5, A],
    ),
    (
        Of::List,
        &[b"d4:attr1:p6:lengthi5eed4:attr3:zph6:lengthi7ee", FILE_A],
        &[PADDING_5, PADDING_7, A],
    ),
    (
        Of::List,
        &[b"d6:lengthi0e4:pathl1:aeed4:attr1:p6:lengthi5eed6:lengthi0e4:pathl1:bee"],
        &[A_0, PADDING_5, B_0],
    ),
];

pub(crate) const ALIGNED: &[Row] = &[
    (Of::Two, &[FILE_A, PADDING, FILE_B], &[A, PADDING_16382, B]),
    (
        Of::Two,
        &[FILE_A, b"d4:attr1:p6:lengthi16382ee", FILE_B],
        &[A, PADDING_16382, B],
    ),
    (
        Of::Two,
        &[
            FILE_A,
            b"d4:attr1:p6:lengthi382eed4:attr1:p6:lengthi16000eed4:attr1:p6:lengthi0ee",
            FILE_B,
        ],
        &[A, PADDING_382, PADDING_16000, PADDING_0, B],
    ),
    (
        Of::Two,
        &[FILE_A, PADDING, FILE_B, b"d4:attr1:p6:lengthi16383ee"],
        &[A, PADDING_16382, B, PADDING_16383],
    ),
    (
        Of::Two,
        &[
            FILE_A,
            PADDING,
            FILE_B,
            b"d4:attr1:p6:lengthi383eed4:attr1:p6:lengthi16000ee",
        ],
        &[A, PADDING_16382, B, PADDING_383, PADDING_16000],
    ),
    (
        Of::Two,
        &[
            b"d4:attr1:p6:lengthi0ee",
            FILE_A,
            PADDING,
            FILE_B,
            b"d4:attr1:p6:lengthi0ee",
        ],
        &[PADDING_0, A, PADDING_16382, B, PADDING_0],
    ),
    (
        Of::Two,
        &[b"d4:attr2:xh6:lengthi2e4:pathl1:aee", PADDING, FILE_B],
        &[A_BOTH, PADDING_16382, B],
    ),
];

pub(crate) const AMONG_EMPTY: &[Row] = &[
    (Of::Full, &[FILE_A, EMPTY_AA, EMPTY_B], &[A, AA_0, B_0]),
    (
        Of::Full,
        &[FILE_A, PADDING, EMPTY_AA, EMPTY_B],
        &[A, PADDING_16382, AA_0, B_0],
    ),
    (
        Of::Full,
        &[FILE_A, EMPTY_AA, PADDING, EMPTY_B],
        &[A, AA_0, PADDING_16382, B_0],
    ),
    (
        Of::Full,
        &[FILE_A, EMPTY_AA, EMPTY_B, PADDING],
        &[A, AA_0, B_0, PADDING_16382],
    ),
    (Of::Empty, &[EMPTY_B], &[B_0]),
    (
        Of::Empty,
        &[
            b"d4:attr1:p6:lengthi0ee",
            EMPTY_B,
            b"d4:attr1:p6:lengthi0ee",
        ],
        &[PADDING_0, B_0, PADDING_0],
    ),
    (
        Of::Whole,
        &[
            b"d4:infod9:file treed1:ad0:d6:lengthi0eeee6:lengthi0e12:meta versioni2e4:name1:a12:piece lengthi16384e6:pieces0:e12:piece layersdee",
        ],
        &[A_0],
    ),
    (
        Of::Whole,
        &[
            b"d4:infod4:attr1:p9:file treed1:ad0:d6:lengthi2e11:pieces root32:0123456789abcdef0123456789abcdefeee6:lengthi2e12:meta versioni2e4:name1:a12:piece lengthi16384e6:pieces20:0123456789abcdef0123ee",
        ],
        &[A],
    ),
];

pub(crate) const BETWEEN: &[Row] = &[
    (
        Of::Folder,
        &[FILE_A, PADDING, FILE_B],
        &[A, PADDING_16382, B],
    ),
    (
        Of::File,
        &[FILE_A, PADDING, EMPTY_AA, FILE_B],
        &[A, PADDING_16382, AA_0, B],
    ),
    (
        Of::File,
        &[FILE_A, EMPTY_AA, PADDING, FILE_B],
        &[A, AA_0, PADDING_16382, B],
    ),
    (
        Of::Dated,
        &[FILE_A, PADDING, FILE_B],
        &[A, PADDING_16382, B],
    ),
    (
        Of::Dated,
        &[FILE_A, b"d4:attr1:p6:lengthi16382ee", FILE_B],
        &[A, PADDING_16382, B],
    ),
    (
        Of::Dated,
        &[
            FILE_A,
            PADDING,
            FILE_B,
            b"d4:attr1:p6:lengthi16383e4:pathl4:.pad5:16383ee",
        ],
        &[A, PADDING_16382, B, PADDING_16383],
    ),
];

// The entry of b with letters; letters of b in the tree.
const ENTRY_EXEC: &[u8] = b"d4:attr1:x6:lengthi1e4:pathl1:bee";

const ENTRY_BOTH: &[u8] = b"d4:attr2:xh6:lengthi1e4:pathl1:bee";

const ENTRY_NEITHER: &[u8] = b"d4:attr0:6:lengthi1e4:pathl1:bee";

const X: &[u8] = b"4:attr1:x";

const HX: &[u8] = b"4:attr2:hx";

pub(crate) const LETTERED: &[Row] = &[
    (
        Of::Lettered,
        &[HX, B_ENDS, FILE_A, PADDING, ENTRY_BOTH],
        &[A, PADDING_16382, B_BOTH],
    ),
    (
        Of::Lettered,
        &[X, B_ENDS, FILE_A, PADDING, FILE_B],
        &[A, PADDING_16382, B],
    ),
    (
        Of::Lettered,
        &[B_ENDS, FILE_A, PADDING, ENTRY_EXEC],
        &[A, PADDING_16382, B_EXEC],
    ),
    (
        Of::Lettered,
        &[B_ENDS, FILE_A, PADDING, ENTRY_BOTH],
        &[A, PADDING_16382, B_BOTH],
    ),
    (
        Of::Lettered,
        &[B_ENDS, FILE_A, b"d4:attr3:hpx6:lengthi16382ee", FILE_B],
        &[A, PADDING_16382, B],
    ),
    (
        Of::Lettered,
        &[b"4:attr1:z", B_ENDS, FILE_A, PADDING, ENTRY_NEITHER],
        &[A, PADDING_16382, B],
    ),
    (Of::Alone, &[b"4:attr2:xp"], &[A_0_EXEC]),
    (Of::Alone, &[b""], &[A_0]),
];
