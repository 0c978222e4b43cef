//! The word for one part of so many.
ghost use Rattle.std.specs.Prelude.{◌≡◌, ◌++◌, ◌<◌, ◌^◌, ℕ, IfSome, IsSomeAnd, Some, codes};
ghost use Rattle.tor_bencode.specs.Spelling.{base_ten};
ghost use Rattle.tor_cli.specs.lots.PartWord.{IsPartWord};

use crate::lots::lot_number::LotNumber;
use crate::text::fronts::cut;
use crate::text::numbers::{count_digits, read_number};
use tor_parts::MAX_LOTS;

/// The lot that the word asks for: its number, a slash, and how many there are.
pub fn lot_of(word: &str) -> Option<LotNumber>
    ensures value { IfSome result (λ lot. IsPartWord word.now lot.number lot.lots) }
    ensures each { (number lots : ℕ) → IsPartWord word.now number lots →
        IsSomeAnd result (λ lot. (lot.number ≡ number) × (lot.lots ≡ lots)) }
{
    let (number, lots) = numbers_of(word.as_bytes())?;
    if number < lots && lots <= u64::from(MAX_LOTS) {
        Some(LotNumber {
            number: number as u32,
            lots: lots as u32,
        })
    } else {
        None
    }
}

/// Two numbers, with a slash between them.
fn numbers_of(text: &[u8]) -> Option<(u64, u64)>
    ensures written { IfSome result (λ r. text.now ≡ base_ten r.0 ++ (codes "/" ++ base_ten r.1)) }
    ensures read { (k n : ℕ) → k < 2 ^ 64 → n < 2 ^ 64 → text.now ≡ base_ten k ++ (codes "/" ++ base_ten n) →
        result ≡ Some (k, n) }
{
    let (number, lots) = cut(text, count_digits(text), b"/")?;
    Some((read_number(number)?, read_number(lots)?))
}
