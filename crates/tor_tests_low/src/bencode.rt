//! Rows after BEP 3, "bencoding", each written out by hand. The first faults of texts are those that `tor check` tells
//! (tests/reading.py).

use crate::shared::{add, are, is_shown};
use std::alloc::{AllocError, Global};
use tor_bencode::laws::{
    lawful_one_by_one, lawful_values, lawful_within_more, no_spelling_begins_another,
    no_value_before_the_first_key, one_tree_or_one_fault, pairs_by_their_values, span_of_a_value,
};
use tor_bencode::{BenError, Item, Tree, decode, encode, find, span};

fn bytes(alloc: Global, text: &[u8]) -> Result<Item, AllocError> {
    Ok(Item::Bytes(Vec::from_slice(alloc, text)?))
}

type Keys = &'static [&'static [u8]];

fn keyed(alloc: Global, keys: &[&[u8]]) -> Result<Item, AllocError> {
    let mut pairs = Vec::new(alloc);
    add_keys(alloc, keys, &mut pairs)?;
    Ok(Item::Dict(pairs))
}

fn add_keys(
    alloc: Global,
    keys: &[&[u8]],
    pairs: &mut Vec<(Vec<u8>, Item)>,
) -> Result<(), AllocError> {
    let mut index = 0i64;
    for key in keys {
        pairs.push((Vec::from_slice(alloc, key)?, Item::Int(index)))?;
        index = index.wrapping_add(1);
    }
    Ok(())
}

fn nested(alloc: Global, count: usize) -> Result<Item, AllocError> {
    let mut item = Item::List(Vec::new(alloc));
    for _ in 1..count {
        let mut items = Vec::new(alloc);
        items.push(item)?;
        item = Item::List(items);
    }
    Ok(item)
}

/// Whether a tree has this spelling.
fn is_spelling(alloc: Global, tree: &Tree, text: &[u8]) -> bool {
    are(encode(alloc, tree), text)
}

/// An item that a test makes.
enum Made {
    Int(i64),
    Bytes(&'static [u8]),
    /// A dictionary with these keys, each with its index as its value.
    Keyed(Keys),
    /// So many lists, each in the one before.
    Nested(usize),
    /// A list of a string and a dictionary.
    Mixed,
}

fn make(alloc: Global, item: &Made) -> Result<Item, AllocError> {
    match item {
        Made::Int(n) => Ok(Item::Int(*n)),
        Made::Bytes(text) => bytes(alloc, text),
        Made::Keyed(keys) => keyed(alloc, keys),
        Made::Nested(count) => nested(alloc, *count),
        Made::Mixed => mixed_list(alloc),
    }
}

fn add_mixed(alloc: Global, items: &mut Vec<Item>) -> Result<(), AllocError> {
    add(items, bytes(alloc, b"spam"))?;
    add(items, keyed(alloc, &[b"a"]))
}

fn mixed_list(alloc: Global) -> Result<Item, AllocError> {
    let mut items = Vec::new(alloc);
    add_mixed(alloc, &mut items)?;
    Ok(Item::List(items))
}

/// Whether an item that is handed back has so many entries.
fn is_handed_back(item: &Item, wanted: &Judged) -> bool {
    match (item, wanted) {
        (Item::Dict(pairs), Err(count)) => pairs.len() == *count,
        (Item::List(items), Err(count)) => items.len() == *count,
        _ => false,
    }
}

fn is_tree(alloc: Global, tree: &Tree, wanted: &Judged) -> bool {
    match wanted {
        Ok(text) => is_spelling(alloc, tree, text),
        Err(_) => false,
    }
}

fn is_judged(alloc: Global, item: Item, wanted: &Judged) -> bool {
    match Tree::of(item) {
        Ok(tree) => is_tree(alloc, &tree, wanted),
        Err(item) => is_handed_back(&item, wanted),
    }
}

/// Whether a key has this number, or no value.
fn finds(item: &Item, key: &[u8], wanted: Option<i64>) -> bool {
    match (find(item, key), wanted) {
        (Some(Item::Int(found)), Some(wanted)) => *found == wanted,
        (None, None) => true,
        _ => false,
    }
}

/// A dictionary that has a key twice.
const TWICE: Made = Made::Keyed(&[b"ab", b"a", b"a"]);

/// An item, a key of it, and its number, or that it has no value.
type Found = (Made, &'static [u8], Option<i64>);

fn is_found(alloc: Global, row: &Found) -> bool {
    match make(alloc, &row.0) {
        Ok(item) => finds(&item, row.1, row.2),
        Err(_) => false,
    }
}

/// Whether the tree of 7 holds it.
fn holds_seven() -> bool {
    match Tree::of(Item::Int(7)).ok() {
        Some(tree) => matches!(tree.item(), Item::Int(7)),
        None => false,
    }
}

fn is_want_of_memory_shown(alloc: Global) -> bool {
    is_shown(alloc, &BenError::Memory, "B10 Memory")
}

/// What is to come of an item: its spelling, or how many entries it has if it is handed back.
type Judged = Result<&'static [u8], usize>;

/// A hundred lists, each in the one before.
const HUNDRED: &[u8] = b"\
llllllllllllllllllllllllllllllllllllllllllllllllll\
llllllllllllllllllllllllllllllllllllllllllllllllll\
eeeeeeeeeeeeeeeeeeeeeeeeeeeeeeeeeeeeeeeeeeeeeeeeee\
eeeeeeeeeeeeeeeeeeeeeeeeeeeeeeeeeeeeeeeeeeeeeeeeee";

const JUDGED: &[(Made, Judged)] = &[
    (Made::Int(0), Ok(b"i0e")),
    (Made::Int(42), Ok(b"i42e")),
    (Made::Int(-3), Ok(b"i-3e")),
    (Made::Int(i64::MAX), Ok(b"i9223372036854775807e")),
    (Made::Int(i64::MIN), Ok(b"i-9223372036854775808e")),
    (Made::Bytes(b""), Ok(b"0:")),
    (Made::Bytes(b"spam"), Ok(b"4:spam")),
    (Made::Keyed(&[]), Ok(b"de")),
    (
        Made::Keyed(&[b"", b"a", b"ab", b"b"]),
        Ok(b"d0:i0e1:ai1e2:abi2e1:bi3ee"),
    ),
    (Made::Nested(1), Ok(b"le")),
    (Made::Mixed, Ok(b"l4:spamd1:ai0eee")),
    (Made::Nested(100), Ok(HUNDRED)),
    (Made::Nested(101), Err(1)),
    (Made::Keyed(&[b"a", b"a"]), Err(2)),
    (Made::Keyed(&[b"ab", b"a"]), Err(2)),
    (Made::Keyed(&[b"b", b"aa"]), Err(2)),
    (Made::Keyed(&[b"aa", b"b"]), Ok(b"d2:aai0e1:bi1ee")),
    (Made::Keyed(&[b"b", b"a"]), Err(2)),
];

const FOUND: &[Found] = &[
    (TWICE, b"a", Some(1)),
    (TWICE, b"ab", Some(0)),
    (TWICE, b"b", None),
    (Made::Bytes(b"a"), b"a", None),
];

/// Whether it comes of an item that is made.
fn comes_of(alloc: Global, row: &(Made, Judged)) -> bool {
    match make(alloc, &row.0) {
        Ok(item) => is_judged(alloc, item, &row.1),
        Err(_) => false,
    }
}

fn are_judged(alloc: Global) -> bool {
    for row in JUDGED {
        if !comes_of(alloc, row) {
            return false;
        }
    }
    holds_seven() && is_want_of_memory_shown(alloc)
}

#[test]
fn spells_what_is_lawful_and_hands_back_what_is_not(rt: HostRuntime) {
    assert!(rt; are_judged(rt.alloc()));
}

#[test]
fn finds_the_value_of_a_key(rt: HostRuntime) {
    for row in FOUND {
        assert!(rt; is_found(rt.alloc(), row));
    }
}

/// Whether a text is the spelling of the tree that is read from it.
fn is_reread(alloc: Global, text: &[u8]) -> bool {
    match decode(alloc, text) {
        Ok(tree) => is_spelling(alloc, &tree, text),
        Err(_) => false,
    }
}

/// Whether a text spells a dictionary of so many pairs.
fn are_pairs_read(alloc: Global, text: &[u8], count: usize) -> bool {
    let Ok(tree) = decode(alloc, text) else {
        return false;
    };
    match tree.item() {
        Item::Dict(pairs) => pairs.len() == count,
        _ => false,
    }
}

/// A key of six digits.
fn number_key(alloc: Global, number: usize) -> Result<Vec<u8>, AllocError> {
    Ok(format!(in alloc; "{number:06}")?.into_bytes())
}

fn numbered(alloc: Global, count: usize) -> Result<Item, AllocError> {
    let mut pairs = Vec::new(alloc);
    add_numbers(alloc, count, &mut pairs)?;
    Ok(Item::Dict(pairs))
}

fn add_numbers(
    alloc: Global,
    count: usize,
    pairs: &mut Vec<(Vec<u8>, Item)>,
) -> Result<(), AllocError> {
    for number in 0..count {
        pairs.push((number_key(alloc, number)?, Item::Int(7)))?;
    }
    Ok(())
}

/// Whether a dictionary has the first and the last of ten thousand keys, and none after them.
fn has_ten_thousand(item: &Item) -> bool {
    finds(item, b"000000", Some(7))
        && finds(item, b"009999", Some(7))
        && finds(item, b"010000", None)
}

fn finds_ten_thousand(alloc: Global, text: &[u8]) -> bool {
    match decode(alloc, text) {
        Ok(tree) => has_ten_thousand(tree.item()),
        Err(_) => false,
    }
}

/// A text, a key, and where its value is spelled.
type Span<'a> = (&'a [u8], &'static [u8], Option<(usize, usize)>);

/// Whether a text spells a tree, and the value of a key there.
fn is_spanned(alloc: Global, row: &Span<'_>) -> bool {
    match decode(alloc, row.0) {
        Ok(_tree) => span(row.0, row.1) == row.2,
        Err(_) => false,
    }
}

/// Whether the text of ten thousand pairs is read. A pair is 6:000000i7e.
fn are_read(alloc: Global, text: &[u8]) -> bool {
    text.len() == 110_002
        && finds_ten_thousand(alloc, text)
        && is_spanned(alloc, &(text, b"009999", Some((109_998, 110_001))))
        && is_reread(alloc, text)
}

/// Whether the spelling of that tree is.
fn is_spelling_read(alloc: Global, tree: &Tree) -> bool {
    match encode(alloc, tree) {
        Ok(text) => are_read(alloc, &text),
        Err(_) => false,
    }
}

/// Whether an item is lawful, and the spelling of its tree is read.
fn is_item_read(alloc: Global, item: Item) -> bool {
    match Tree::of(item) {
        Ok(tree) => is_spelling_read(alloc, &tree),
        Err(_) => false,
    }
}

fn are_ten_thousand_read(alloc: Global) -> bool {
    match numbered(alloc, 10_000) {
        Ok(item) => is_item_read(alloc, item),
        Err(_) => false,
    }
}

/// The torrent of one file `a` that holds `abc` (BEP 52).
const TORRENT: &[u8] = b"d4:infod9:file treed1:ad0:d6:lengthi3e11:pieces root32:\
\xba\x78\x16\xbf\x8f\x01\xcf\xea\x41\x41\x40\xde\x5d\xae\x22\x23\
\xb0\x03\x61\xa3\x96\x17\x7a\x9c\xb4\x10\xff\x61\xf2\x00\x15\xad\
eee12:meta versioni2e4:name1:a12:piece lengthi16384ee12:piece layersdee";

/// Spellings of trees.
const SPELLINGS: &[&[u8]] = &[
    b"i9223372036854775807e",
    b"i-9223372036854775808e",
    b"i0e",
    b"0:",
    b"10:0123456789",
    b"le",
    b"de",
    b"d0:le1:ad1:bi-7ee2:aai0e1:b3:xyze",
    HUNDRED,
];

const SPANS: &[Span<'static>] = &[
    (TORRENT, b"info", Some((7, 140))),
    (TORRENT, b"piece layers", Some((155, 157))),
    (TORRENT, b"announce", None),
    (TORRENT, b"name", None),
    (b"d1:a1:x2:abi7ee", b"ab", Some((11, 14))),
    (b"d0:le2:ablee", b"ab", Some((9, 11))),
    (b"d2:abi7e3:abc0:e", b"ab", Some((5, 8))),
    (b"d3:abc0:e", b"ab", None),
    (b"l2:ab1:xe", b"ab", None),
    (b"2:ab", b"ab", None),
    (b"i3e", b"ab", None),
];

fn are_reread(alloc: Global) -> bool {
    for text in SPELLINGS {
        if !is_reread(alloc, text) {
            return false;
        }
    }
    are_pairs_read(alloc, b"d1:al4:spamee", 1) && are_ten_thousand_read(alloc)
}

#[test]
fn reads_what_it_writes(rt: HostRuntime) {
    assert!(rt; are_reread(rt.alloc()));
}

#[test]
fn spans_values_of_the_root(rt: HostRuntime) {
    for row in SPANS {
        assert!(rt; is_spanned(rt.alloc(), row));
    }
}

#[test]
fn calls_the_laws() {
    no_spelling_begins_another();
    one_tree_or_one_fault();
    pairs_by_their_values();
    no_value_before_the_first_key();
    span_of_a_value();
    lawful_within_more();
    lawful_values();
    lawful_one_by_one();
}
