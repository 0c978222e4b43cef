//! What was hashed of a lot, as bytes.
ghost use Rattle.std.specs.Prelude.{◌≡◌, ◌<◌, ◌≤◌, ◌^◌, [], ℕ, IfOk, IfSome, IsSomeAnd, List, Ok, OnOk, Some, pos};
ghost use Rattle.std.specs.List.{AllByRecursion};
ghost use Rattle.std.specs.Option.{option_copied};
ghost use Rattle.tor_bencode.specs.Data.{dictionary, integer, string};
ghost use Rattle.tor_bencode.specs.Find.{value_of};
ghost use Rattle.tor_bencode.specs.View.{pairs_view, view};
ghost use Rattle.tor_tree.specs.Properties.{as_integer, as_string};
ghost use Rattle.tor_parts.specs.declared.lot_text.Lot.{Lot};
ghost use Rattle.tor_parts.specs.LotText.{Is32, IsLot, LotFacts, facts_of, joined, lot_bytes, lot_dictionary};
ghost use Rattle.tor_parts.specs.declared.lot_text.TheConstants.{MAX_LOTS};
ghost use Rattle.tor_parts.specs.steps.Pairs.{with_pair};

use std::alloc::{AllocError, Global};
use tor_bencode::{BenError, Item, Tree, decode, encode, find};
use tor_engine::PieceRow;
use tor_merkle::Hash;

/// The most lots that a plan may be dealt in.
pub const MAX_LOTS: u32 = 65536;

/// What one machine gives of a plan.
#[derive(Debug, Drop)]
pub struct Lot {
    /// Its number, from 0.
    pub number: u32,
    /// How many lots there are.
    pub lots: u32,
    /// The digest of its plan.
    pub plan: Hash,
    /// What its pieces hash to.
    pub row: PieceRow,
}

/// The bytes of a lot: the bencode of one dictionary (BEP 3, "bencoding"). It has the `hashes` of its pieces, 32 bytes
/// each, its number as `part` and how many there are as `parts`, the SHA-1 of its pieces as `pieces`, 20 bytes each,
/// and the digest of its `plan`.
pub fn write_lot(alloc: Global, lot: &Lot) -> Result<Vec<u8>, AllocError>
    ensures written { IfOk result (λ bytes. bytes.items ≡ lot_bytes (facts_of lot.now)) }
    ensures hashes { IfOk result (λ _. Is32 lot.now.plan × AllByRecursion Is32 lot.now.row.hashes.items) }
{
    let tree = tree_of(alloc, lot)?;
    match encode(alloc, &tree) {
        Ok(bytes) => Ok(bytes),
        Err(BenError::Memory) => Err(AllocError),
        Err(BenError::Refused { .. }) => unreachable!(),
    }
}

/// The tree of a lot.
fn tree_of(alloc: Global, lot: &Lot) -> Result<Tree, AllocError>
    ensures tree { IfOk result (λ tree. view tree ≡ lot_dictionary (facts_of lot.now)) }
    ensures hashes { IfOk result (λ _. Is32 lot.now.plan × AllByRecursion Is32 lot.now.row.hashes.items) }
{
    // So that the bounds of their types are known.
    let (_number, _lots) = (lot.number, lot.lots);
    let mut pairs = Vec::with_capacity(alloc, 5)?;
    push_pairs(alloc, &mut pairs, lot)?;
    match Tree::of(Item::Dict(pairs)) {
        Ok(tree) => Ok(tree),
        Err(_) => unreachable!(),
    }
}

/// Puts the pairs of a lot into an empty vector.
fn push_pairs(alloc: Global, pairs: &mut Vec<(Vec<u8>, Item)>, lot: &Lot) -> Result<(), AllocError>
    requires { pairs.old.items ≡ [] }
    ensures pairs { OnOk result (dictionary (pairs_view pairs.new.items) ≡ lot_dictionary (facts_of lot.now)) }
    ensures hashes { OnOk result (Is32 lot.now.plan × AllByRecursion Is32 lot.now.row.hashes.items) }
{
    let hashes = joined_hashes(alloc, &lot.row.hashes)?;
    push_pair(alloc, pairs, b"hashes", Item::Bytes(hashes))?;
    push_pair(alloc, pairs, b"part", number(lot.number))?;
    push_pair(alloc, pairs, b"parts", number(lot.lots))?;
    push_text(alloc, pairs, b"pieces", lot.row.pieces.as_slice())?;
    push_text(alloc, pairs, b"plan", &lot.plan)
}

/// Puts a key and a byte string of these bytes behind the others.
fn push_text(
    alloc: Global,
    pairs: &mut Vec<(Vec<u8>, Item)>,
    key: &[u8],
    bytes: &[u8],
) -> Result<(), AllocError>
    ensures { OnOk result
        (pairs_view pairs.new.items ≡ with_pair (pairs_view pairs.old.items) key.now (string bytes.now)) }
{
    push_pair(alloc, pairs, key, text(alloc, bytes)?)
}

/// Puts a key and its value behind the others.
fn push_pair(
    alloc: Global,
    pairs: &mut Vec<(Vec<u8>, Item)>,
    key: &[u8],
    value: Item,
) -> Result<(), AllocError>
    ensures { OnOk result
        (pairs_view pairs.new.items ≡ with_pair (pairs_view pairs.old.items) key.now (view value)) }
{
    let key = Vec::from_slice(alloc, key)?;
    pairs.push((key, value))?;
    Ok(())
}

/// Hashes one after another.
fn joined_hashes(alloc: Global, hashes: &[Hash]) -> Result<Vec<u8>, AllocError>
    ensures joined { IfOk result (λ bytes. bytes.items ≡ joined hashes.now) }
    ensures each { IfOk result (λ _. AllByRecursion Is32 hashes.now) }
{
    let mut bytes = Vec::new(alloc);
    'hashes: for hash in hashes {
        bytes.extend_from_slice(hash)?;
    }
    Ok(bytes)
}

/// The number as an integer.
fn number(n: u32) -> Item
    ensures { view result ≡ integer (pos n) }
{
    Item::Int(i64::from(n))
}

/// A byte string of these bytes.
fn text(alloc: Global, bytes: &[u8]) -> Result<Item, AllocError>
    ensures { IfOk result (λ item. view item ≡ string bytes.now) }
{
    Ok(Item::Bytes(Vec::from_slice(alloc, bytes)?))
}

/// The lot whose bytes these are, as [`write_lot`] gives them; None if they are those of no lot. The number of a lot is
/// below how many there are, these are at most [`MAX_LOTS`], and its hashes and SHA-1s have 32 and 20 bytes each.
pub fn read_lot(alloc: Global, bytes: &[u8]) -> Result<Option<Lot>, AllocError>
    ensures read { (lot : Lot) → result ≡ Ok (Some lot) →
        (bytes.now ≡ lot_bytes (facts_of lot)) × IsLot (facts_of lot) }
    ensures all { (facts : LotFacts) → IsLot facts → bytes.now ≡ lot_bytes facts →
        IfOk result (λ lot. IsSomeAnd lot (λ lot. facts_of lot ≡ facts)) }
{
    let tree = match decode(alloc, bytes) {
        Ok(tree) => tree,
        Err(BenError::Memory) => return Err(AllocError),
        Err(BenError::Refused { .. }) => return Ok(None),
    };
    let Some(lot) = lot_in(alloc, tree.item())? else {
        return Ok(None);
    };
    let again = write_lot(alloc, &lot)?;
    if again.as_slice() == bytes {
        Ok(Some(lot))
    } else {
        Ok(None)
    }
}

/// The lot that the keys of a tree tell of; other keys may be there too.
fn lot_in(alloc: Global, root: &Item) -> Result<Option<Lot>, AllocError>
    ensures is { IfOk result (λ lot. IfSome lot (λ lot. IsLot (facts_of lot))) }
    ensures all { (facts : LotFacts) → IsLot facts → view root.now ≡ lot_dictionary facts →
        IfOk result (λ lot. IsSomeAnd lot (λ lot. facts_of lot ≡ facts)) }
{
    let Some((number, lots)) = numbers_in(root) else {
        return Ok(None);
    };
    let (Some(plan), Some(hashes), Some(pieces)) = (
        hash_at(root, b"plan"),
        bytes_at(root, b"hashes"),
        bytes_at(root, b"pieces"),
    ) else {
        return Ok(None);
    };
    if pieces.len() % 20 != 0 {
        return Ok(None);
    }
    let row = row_of(alloc, hashes, pieces)?;
    Ok(Some(Lot {
        number,
        lots,
        plan,
        row,
    }))
}

/// The number of the lot, and how many there are.
fn numbers_in(root: &Item) -> Option<(u32, u32)>
    ensures is { IfSome result (λ r. (r.0 < r.1) × (r.1 ≤ MAX_LOTS)) }
    ensures all { (facts : LotFacts) → IsLot facts → view root.now ≡ lot_dictionary facts →
        result ≡ Some (facts.number, facts.lots) }
{
    let number = number_at(root, b"part")?;
    let lots = number_at(root, b"parts")?;
    if number < lots && lots <= MAX_LOTS {
        Some((number, lots))
    } else {
        None
    }
}

/// The hashes that these bytes are, 32 bytes each, and the pieces. What is left below 32 bytes is dropped.
fn row_of(alloc: Global, hashes: &[u8], pieces: &[u8]) -> Result<PieceRow, AllocError>
    ensures is { IfOk result (λ row. AllByRecursion Is32 row.hashes.items) }
    ensures hashes { (all : List (List ℕ)) → AllByRecursion Is32 all → hashes.now ≡ joined all →
        IfOk result (λ row. row.hashes.items ≡ all) }
    ensures pieces { IfOk result (λ row. row.pieces.items ≡ pieces.now) }
{
    let (hashes, _) = hashes.as_chunks::<32>();
    Ok(PieceRow {
        hashes: Vec::from_slice(alloc, hashes)?,
        pieces: Vec::from_slice(alloc, pieces)?,
    })
}

/// The byte string of a key.
fn bytes_at<'a>(root: &'a Item, key: &[u8]) -> Option<&'a [u8]>
    ensures { option_copied result ≡ as_string (value_of key.now (view root.now)) }
{
    match find(root, key)? {
        Item::Bytes(bytes) => Some(bytes.as_slice()),
        _ => None,
    }
}

/// The byte string of a key, if it has 32 bytes.
fn hash_at(root: &Item, key: &[u8]) -> Option<Hash>
    ensures is { IfSome result Is32 }
    ensures all { (hash : List ℕ) → Is32 hash → as_string (value_of key.now (view root.now)) ≡ Some hash →
        result ≡ Some hash }
{
    let bytes = bytes_at(root, key)?;
    Hash::try_from(bytes).ok()
}

/// The number of a key, if it has 32 bits.
fn number_at(root: &Item, key: &[u8]) -> Option<u32>
    ensures { (n : ℕ) → n < 2 ^ 32 → as_integer (value_of key.now (view root.now)) ≡ Some (pos n) → result ≡ Some n }
{
    let number = integer_at(root, key)?;
    u32::try_from(number).ok()
}

/// The integer of a key.
fn integer_at(root: &Item, key: &[u8]) -> Option<i64>
    ensures { result ≡ as_integer (value_of key.now (view root.now)) }
{
    match find(root, key)? {
        Item::Int(number) => Some(*number),
        _ => None,
    }
}
