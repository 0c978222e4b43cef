//! The lots of a plan, read and judged, and their rows in the order of their numbers.
ghost use Rattle.std.specs.Prelude.{◌≡◌, ◌≢◌, ◌⊎◌, ◌<◌, ◌≤◌, ◌+◌, [], ℕ, IfErr, IfOk, List, None, Option, length};
ghost use Rattle.std.specs.Prelude.{replicate};
ghost use Rattle.std.specs.Prelude.{slice_index, slice_index_or};
ghost use Rattle.std.specs.List.{flat_map};
ghost use Rattle.tor_engine.specs.declared.lot.PieceRow.{PieceRow};
ghost use Rattle.tor_meta.specs.Lots.{AreAllLots, AreNotAll, IsCount, IsNextLot, IsTextFault};
ghost use Rattle.tor_meta.specs.declared.join_error.JoinError.{JoinError};
ghost use Rattle.tor_meta.specs.steps.Join.{AreRowsOfLots, AreSlots, HavePieces, IsGathered, empty_from, rows_in};
ghost use Rattle.tor_meta.specs.steps.Join.{texts_of};
ghost use Rattle.tor_parts.specs.Dealing.{first_unit};
ghost use Rattle.tor_parts.specs.LotText.{IsLot, LotFacts, facts_of, lot_bytes};
ghost use Rattle.tor_parts.specs.declared.lot_text.TheConstants.{MAX_LOTS};

use crate::join_error::JoinError;
use std::alloc::{AllocError, Global};
use tor_engine::PieceRow;
use tor_merkle::Hash;
use tor_parts::{Lot, deal_all, has_own_pieces, read_lot};
use tor_plan::Plan;

/// The rows of all lots of a plan, in the order of their numbers, of texts in any order.
pub(crate) fn rows_of_lots(
    alloc: Global,
    plan: &Plan,
    digest: &Hash,
    texts: &[Vec<u8>],
) -> Result<Vec<PieceRow>, JoinError>
    ensures rows { IfOk result (λ rows. (lots : List LotFacts)
        × AreAllLots plan.now digest.now (texts_of texts.now) (length rows.items) lots
        × AreRowsOfLots plan.now rows.items lots) }
    ensures refused { IfErr result (AreNotAll plan.now digest.now (texts_of texts.now)) }
{
    let count = match count_in(alloc, texts) {
        Ok(count) => count,
        Err(error) => return Err(error),
    };
    let firsts = deal_all(alloc, plan, count)?;
    let slots = match gather(alloc, plan, digest, count, &firsts, texts) {
        Ok(slots) => slots,
        Err(error) => return Err(error),
    };
    let lots = empty_slots(alloc, &slots)?;
    if !lots.is_empty() {
        return Err(JoinError::Missing { lots });
    }
    let rows = all_rows(alloc, slots)?;
    Ok(rows)
}

/// How many lots there are to be: as the first text says, or one.
fn count_in(alloc: Global, texts: &[Vec<u8>]) -> Result<u32, JoinError>
    ensures count { IfOk result (IsCount (texts_of texts.now)) }
    ensures some { IfOk result (λ count. (0 < count) × (count ≤ MAX_LOTS)) }
    ensures refused { IfErr result (λ error. (error ≡ JoinError.Memory) ⊎ ((error ≡ JoinError.NoPart 0)
        × (0 < length texts.now) × ((lot : LotFacts) → IsLot lot →
        slice_index_or (texts_of texts.now) 0 [] ≢ lot_bytes lot))) }
{
    match texts {
        [] => Ok(1),
        [first, ..] => match read_lot(alloc, first)? {
            Some(lot) => Ok(lot.lots),
            None => Err(JoinError::NoPart { word: 0 }),
        },
    }
}

/// The rows of the lots of these texts, each at its number.
fn gather(
    alloc: Global,
    plan: &Plan,
    digest: &Hash,
    count: u32,
    firsts: &[usize],
    texts: &[Vec<u8>],
) -> Result<Vec<Option<PieceRow>>, JoinError>
    requires counted { length firsts.now ≡ count + 1 }
    requires firsts { (lot : ℕ) → lot ≤ count → slice_index firsts.now lot ≡ first_unit count lot plan.now.units }
    requires is_count { IsCount (texts_of texts.now) count }
    ensures gathered { IfOk result (λ slots.
        IsGathered plan.now digest.now count (length texts.now) (texts_of texts.now) slots.items) }
    ensures refused { IfErr result (AreNotAll plan.now digest.now (texts_of texts.now)) }
{
    let mut slots = no_rows(alloc, count)?;
    'texts: for (word, text) in texts.iter().enumerate() {
        match next_lot(alloc, plan, digest, count, firsts, &slots, text, word) {
            Ok(lot) => slots[lot.number as usize] = Some(lot.row),
            Err(error) => return Err(error),
        }
    }
    Ok(slots)
}

/// So many empty slots.
fn no_rows(alloc: Global, count: u32) -> Result<Vec<Option<PieceRow>>, AllocError>
    ensures { IfOk result (λ slots. slots.items ≡ replicate count None) }
{
    let mut slots = Vec::with_capacity(alloc, count as usize)?;
    'slots: for _ in 0..count {
        slots.push(None)?;
    }
    Ok(slots)
}

/// The lot that a text is, if it fits behind those in the slots.
fn next_lot(
    alloc: Global,
    plan: &Plan,
    digest: &Hash,
    count: u32,
    firsts: &[usize],
    slots: &[Option<PieceRow>],
    text: &[u8],
    word: usize,
) -> Result<Lot, JoinError>
    requires counted { length firsts.now ≡ count + 1 }
    requires firsts { (lot : ℕ) → lot ≤ count → slice_index firsts.now lot ≡ first_unit count lot plan.now.units }
    requires slots { length slots.now ≡ count }
    ensures is { IfOk result (λ lot. (text.now ≡ lot_bytes (facts_of lot)) × IsLot (facts_of lot)) }
    ensures next { (earlier : List LotFacts) → AreSlots slots.now earlier →
        IfOk result (λ lot. IsNextLot plan.now digest.now count earlier (facts_of lot)) }
    ensures refused { (earlier : List LotFacts) → AreSlots slots.now earlier → length earlier ≡ word →
        IfErr result (λ error. (error ≡ JoinError.Memory)
        ⊎ IsTextFault plan.now digest.now count earlier text.now error) }
{
    let Some(lot) = read_lot(alloc, text)? else {
        return Err(JoinError::NoPart { word });
    };
    if lot.plan != *digest {
        return Err(JoinError::OtherPlan { word });
    }
    if lot.lots != count {
        return Err(JoinError::OtherParts { word });
    }
    let number = lot.number as usize;
    if slots[number].is_some() {
        return Err(JoinError::Twice { word });
    }
    if !has_own_pieces(plan, firsts[number], firsts[number + 1], &lot.row) {
        return Err(JoinError::Length { word });
    }
    Ok(lot)
}

/// The numbers of the empty slots.
fn empty_slots(alloc: Global, slots: &[Option<PieceRow>]) -> Result<Vec<u32>, AllocError>
    requires { length slots.now ≤ MAX_LOTS }
    ensures { IfOk result (λ numbers. numbers.items ≡ empty_from 0 slots.now) }
{
    let mut numbers = Vec::new(alloc);
    'slots: for (number, slot) in slots.iter().enumerate() {
        if slot.is_none() {
            numbers.push(number as u32)?;
        }
    }
    Ok(numbers)
}

/// The rows that are in slots.
fn all_rows(alloc: Global, slots: Vec<Option<PieceRow>>) -> Result<Vec<PieceRow>, AllocError>
    ensures { IfOk result (λ rows. rows.items ≡ flat_map rows_in slots.items) }
{
    let mut rows = Vec::with_capacity(alloc, slots.len())?;
    'slots: for slot in slots {
        if let Some(row) = slot {
            rows.push(row)?;
        }
    }
    Ok(rows)
}
