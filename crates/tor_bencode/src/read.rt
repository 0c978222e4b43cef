//! The tree that bytes spell, or their first fault in reading order.

ghost use Rattle.std.specs.Prelude.{◌≡◌, ◌<◌, ◌++◌, ◌∷◌, [], length, true, None, Err, IfOk, IfErr, IsOkUnless, OnOk};
ghost use Rattle.std.specs.Prelude.{option_map};
ghost use Rattle.tor_bencode.specs.Data.{Data};
ghost use Rattle.tor_bencode.specs.Fault.{IsRefusalOf, may_take_memory};
ghost use Rattle.tor_bencode.specs.Lawful.{IsLawful};
ghost use Rattle.tor_bencode.specs.steps.Reading.{Gives, follows as follows_key, items_at, pairs_at, value_at};
ghost use Rattle.tor_bencode.specs.steps.Reading.{whole as whole_of};
ghost use Rattle.tor_bencode.specs.Spelling.{spelling};
ghost use Rattle.tor_bencode.specs.RefView.{view, items_view, pairs_view};
ghost use Rattle.tor_bencode.specs.View.{view as view_of_item};

use crate::MAX_NESTING;
use crate::error::BenError;
use crate::fault::Fault;
use crate::item_ref::ItemRef;
use crate::owned::own;
use crate::stop::Stop;
use crate::token::{integer, string};
use crate::tree::Tree;
use std::alloc::{AllocError, Global};

/// The one tree that the bytes spell. What is refused is the first fault in reading order (BEP 3,
/// "bencoding"), unless memory is.
pub fn decode(alloc: Global, bytes: &[u8]) -> Result<Tree, BenError>
    ensures tree { IfOk result (λ tree. IsLawful (view_of_item tree) × (bytes.now ≡ spelling (view_of_item tree))) }
    ensures only { (d : Data) → IsLawful d → bytes.now ≡ spelling d → IsOkUnless result BenError.Memory }
    ensures fault { IfErr result (λ refusal. IsRefusalOf bytes.now refusal) }
    ensures memory { result ≡ Err BenError.Memory → may_take_memory bytes.now ≡ true }
{
    match decode_ref(alloc, bytes) {
        Ok(item) => match own(alloc, &item) {
            Ok(item) => Ok(Tree::known(item)),
            Err(_) => Err(BenError::Memory),
        },
        Err(error) => Err(error),
    }
}

/// The one tree that the bytes spell, whose byte strings are theirs. It refuses what `decode` refuses.
pub fn decode_ref<'a>(alloc: Global, bytes: &'a [u8]) -> Result<ItemRef<'a>, BenError>
    ensures item { IfOk result (λ item. IsLawful (view item) × (bytes.now ≡ spelling (view item))) }
    ensures only { (d : Data) → IsLawful d → bytes.now ≡ spelling d → IsOkUnless result BenError.Memory }
    ensures fault { IfErr result (λ refusal. IsRefusalOf bytes.now refusal) }
    ensures memory { result ≡ Err BenError.Memory → may_take_memory bytes.now ≡ true }
{
    match whole(alloc, bytes) {
        Ok(item) => Ok(item),
        Err(Stop::Memory) => Err(BenError::Memory),
        Err(Stop::At(fault, rest)) => Err(BenError::Refused {
            fault,
            offset: bytes.len() - rest.len(),
        }),
    }
}

/// The tree that all of the bytes spell.
#[tactic(auto, unfolding(crate::specs::steps::Reading::whole))]
fn whole<'a>(alloc: Global, bytes: &'a [u8]) -> Result<ItemRef<'a>, Stop<'a>>
    ensures read { Gives (λ item. view item) result (whole_of bytes.now) }
    ensures memory { result ≡ Err Stop.Memory → may_take_memory bytes.now ≡ true }
{
    let (item, rest) = value(alloc, bytes, MAX_NESTING)?;
    if !rest.is_empty() {
        return Err(Stop::At(Fault::Trailing, rest));
    }
    Ok(item)
}

/// A value if `room` lists and dictionaries may still be opened, and the bytes after it.
#[cycle(read)]
#[tactic(auto, unfolding(crate::specs::steps::Reading::value_at))]
fn value<'a>(
    alloc: Global,
    bytes: &'a [u8],
    room: usize,
) -> Result<(ItemRef<'a>, &'a [u8]), Stop<'a>>
    ensures read { Gives (λ x. (view x.0, x.1.now)) result (value_at room bytes.now) }
    ensures shorter { IfOk result (λ x. length x.1.now < length bytes.now) }
    ensures memory { result ≡ Err Stop.Memory → may_take_memory bytes.now ≡ true }
{
    match bytes {
        [] => Err(Stop::At(Fault::Truncated, bytes)),
        [b'i', rest @ ..] => {
            let (n, rest) = integer(bytes, rest)?;
            Ok((ItemRef::Int(n), rest))
        }
        [b'0'..=b'9', ..] => {
            let (text, rest) = string(bytes)?;
            Ok((ItemRef::Bytes(text), rest))
        }
        [b'l', rest @ ..] => {
            if room == 0 {
                return Err(Stop::At(Fault::TooDeep, bytes));
            }
            let (items, rest) = list(alloc, rest, room - 1)?;
            Ok((ItemRef::List(items), rest))
        }
        [b'd', rest @ ..] => {
            if room == 0 {
                return Err(Stop::At(Fault::TooDeep, bytes));
            }
            let (pairs, rest) = dictionary(alloc, rest, room - 1)?;
            Ok((ItemRef::Dict(pairs), rest))
        }
        _ => Err(Stop::At(Fault::BadByte, bytes)),
    }
}

/// The items of a list that is open, up to its end.
#[cycle(read)]
fn list<'a>(
    alloc: Global,
    bytes: &'a [u8],
    room: usize,
) -> Result<(Vec<ItemRef<'a>>, &'a [u8]), Stop<'a>>
    ensures read { Gives (λ x. (items_view x.0.items, x.1.now)) result
        (items_at (value_at room) (length bytes.now) bytes.now) }
    ensures shorter { IfOk result (λ x. length x.1.now < length bytes.now) }
{
    let mut items = Vec::new(alloc);
    let mut rest = bytes;
    'items: loop {
        match rest {
            [] => return Err(Stop::At(Fault::Truncated, rest)),
            [b'e', after @ ..] => return Ok((items, after)),
            _ => {}
        }
        let (item, after) = value(alloc, rest, room)?;
        add(&mut items, item, after)?;
        rest = after;
    }
}

/// The pairs of a dictionary that is open, up to its end.
#[cycle(read)]
fn dictionary<'a>(
    alloc: Global,
    bytes: &'a [u8],
    room: usize,
) -> Result<(Vec<(&'a [u8], ItemRef<'a>)>, &'a [u8]), Stop<'a>>
    ensures read { Gives (λ x. (pairs_view x.0.items, x.1.now)) result
        (pairs_at (value_at room) (length bytes.now) None bytes.now) }
    ensures shorter { IfOk result (λ x. length x.1.now < length bytes.now) }
{
    let mut pairs = Vec::new(alloc);
    let mut last: Option<&[u8]> = None;
    let mut rest = bytes;
    'pairs: loop {
        match rest {
            [] => return Err(Stop::At(Fault::Truncated, rest)),
            [b'e', after @ ..] => return Ok((pairs, after)),
            [b'0'..=b'9', ..] => {}
            _ => return Err(Stop::At(Fault::KeyNotBytes, rest)),
        }
        let (key, after) = string(rest)?;
        if !follows(last, key) {
            return Err(Stop::At(Fault::KeyOrder, rest));
        }
        let (item, after) = value(alloc, after, room)?;
        add(&mut pairs, (key, item), after)?;
        last = Some(key);
        rest = after;
    }
}

/// Adds an item, after which these bytes come. The first takes room for itself if it is the last one, or else for two,
/// since most lists and dictionaries of a torrent have no more.
fn add<T: Drop>(items: &mut Vec<T>, item: T, after: &[u8]) -> Result<(), AllocError>
    ensures { OnOk result (items.new.items ≡ items.old.items ++ item ∷ []) }
{
    if items.is_empty() {
        items.reserve_exact(if after.starts_with(b"e") { 1 } else { 2 })?;
    }
    items.push(item)?;
    Ok(())
}

/// Whether a key comes after the one before it.
fn follows(last: Option<&[u8]>, key: &[u8]) -> bool
    ensures { result ≡ follows_key (option_map (λ before. before.now) last.entry) key.now }
{
    match last {
        Some(before) => before.cmp(key).is_lt(),
        None => true,
    }
}
