//! Numbers in base ten.

ghost use Rattle.std.specs.Prelude.{◌≡◌, ◌^◌, ◌<◌, ◌↔◌, ℕ, IsTrue, IfSome, Some};
ghost use Rattle.std.specs.Char.{is_ascii_digit};
ghost use Rattle.std.specs.List.{prefix_len};
ghost use Rattle.tor_bencode.specs.Spelling.{base_ten};

use itoa::Buffer;
use std::str;

/// The number below 2^64 of which these are the shortest digits.
pub fn read_number(text: &[u8]) -> Option<u64>
    ensures written { IfSome result (λ n. base_ten n ≡ text.now) }
    ensures read { (n : ℕ) → n < 2 ^ 64 → base_ten n ≡ text.now → result ≡ Some n }
{
    match number_of_digits(text) {
        Some(n) if is_written(n, text) => Some(n),
        _ => None,
    }
}

/// The number of these digits, before which a plus sign and zeros may stand.
fn number_of_digits(text: &[u8]) -> Option<u64>
    ensures { (n : ℕ) → n < 2 ^ 64 → base_ten n ≡ text.now → result ≡ Some n }
{
    match str::from_utf8(text) {
        Ok(text) => text.parse().ok(),
        Err(_) => None,
    }
}

/// Whether these are the shortest digits of a number.
fn is_written(n: u64, text: &[u8]) -> bool
    ensures { IsTrue result ↔ (base_ten n ≡ text.now) }
{
    Buffer::new().format(n).as_bytes() == text
}

/// How many digits come first.
pub fn count_digits(bytes: &[u8]) -> usize
    ensures { result ≡ prefix_len is_ascii_digit bytes.now }
{
    bytes
        .iter()
        .take_while(|byte| byte.is_ascii_digit())
        .count()
}
