//! Byte strings and integers, read from the front of bytes.

ghost use Rattle.std.specs.Prelude.{◌≡◌, ◌≢◌, ◌<◌, ◌^◌, length, IfOk, IfErr, SomeIff};
ghost use Rattle.std.specs.Char.{is_ascii_digit};
ghost use Rattle.std.specs.List.{prefix_len, list_all};
ghost use Rattle.tor_bencode.specs.Fault.{is_integer_byte as is_integer_byte_code};
ghost use Rattle.tor_bencode.specs.steps.Reading.{Gives, number as number_of_digits, is_shortest as is_shortest_run};
ghost use Rattle.tor_bencode.specs.steps.Reading.{is_integer as is_integer_run, is_positive as is_positive_run};
ghost use Rattle.tor_bencode.specs.steps.Reading.{integer_of as integer_of_run, string_at, integer_at};

use crate::fault::Fault;
use crate::stop::Stop;

/// A byte string and the bytes after it.
#[tactic(auto, unfolding(crate::specs::steps::Reading::string_at))]
pub(crate) fn string<'a>(bytes: &'a [u8]) -> Result<(&'a [u8], &'a [u8]), Stop<'a>>
    ensures read { Gives (λ x. (x.0.now, x.1.now)) result (string_at bytes.now) }
    ensures shorter { IfOk result (λ x. length x.1.now < length bytes.now) }
    ensures no_memory { IfErr result (λ stop. stop ≢ Stop.Memory) }
{
    let (run, after) = bytes.split_at(digits(bytes));
    match after {
        [] => Err(Stop::At(Fault::Truncated, after)),
        [b':', more @ ..] if is_shortest(run) => match number(run) {
            Some(length) if length <= more.len() as u64 => Ok(more.split_at(length as usize)),
            _ => Err(Stop::At(Fault::Truncated, &[])),
        },
        _ => Err(Stop::At(Fault::BadLength, bytes)),
    }
}

/// The integer after an `i`, with which `bytes` begins, and the bytes after it.
#[tactic(auto, unfolding(crate::specs::steps::Reading::integer_at))]
pub(crate) fn integer<'a>(bytes: &'a [u8], rest: &'a [u8]) -> Result<(i64, &'a [u8]), Stop<'a>>
    ensures read { Gives (λ x. (x.0, x.1.now)) result (integer_at bytes.now rest.now) }
    ensures shorter { IfOk result (λ x. length x.1.now < length rest.now) }
    ensures no_memory { IfErr result (λ stop. stop ≢ Stop.Memory) }
{
    let (run, after) = rest.split_at(integer_bytes(rest));
    match after {
        [] => Err(Stop::At(Fault::Truncated, after)),
        [b'e', more @ ..] if is_integer(run) => match integer_of(run) {
            Some(n) => Ok((n, more)),
            None => Err(Stop::At(Fault::IntegerRange, bytes)),
        },
        _ => Err(Stop::At(Fault::BadInteger, bytes)),
    }
}

/// How many digits come first.
fn digits(bytes: &[u8]) -> usize
    ensures { result ≡ prefix_len is_ascii_digit bytes.now }
{
    bytes
        .iter()
        .take_while(|byte| byte.is_ascii_digit())
        .count()
}

/// How many digits and minus signs come first.
fn integer_bytes(bytes: &[u8]) -> usize
    ensures { result ≡ prefix_len is_integer_byte_code bytes.now }
{
    bytes
        .iter()
        .take_while(|byte| **byte == b'-' || byte.is_ascii_digit())
        .count()
}

/// Whether digits have no zero in front.
fn is_shortest(digits: &[u8]) -> bool
    ensures { result ≡ is_shortest_run digits.now }
{
    match digits {
        [] => false,
        [_] => true,
        [first, _, ..] => *first != b'0',
    }
}

/// Whether digits and minus signs are an integer in its one form.
#[tactic(auto, unfolding(crate::specs::steps::Reading::is_integer))]
fn is_integer(run: &[u8]) -> bool
    ensures { result ≡ is_integer_run run.now }
{
    match run {
        [] => false,
        [b'-', digits @ ..] => is_positive(digits),
        _ => are_digits(run) && is_shortest(run),
    }
}

/// Whether these are the digits of a number above zero in its one form.
fn is_positive(digits: &[u8]) -> bool
    ensures { result ≡ is_positive_run digits.now }
{
    match digits {
        [] | [b'0', ..] => false,
        _ => are_digits(digits),
    }
}

fn are_digits(bytes: &[u8]) -> bool
    ensures { result ≡ list_all is_ascii_digit bytes.now }
{
    bytes.iter().all(|byte| byte.is_ascii_digit())
}

/// The number that digits stand for, if 64 bits hold it.
#[tactic(auto, unfolding(crate::specs::steps::Reading::number))]
fn number(digits: &[u8]) -> Option<u64>
    ensures { SomeIff result (number_of_digits digits.now < 2 ^ 64) (number_of_digits digits.now) }
{
    let mut n = 0u64;
    for digit in digits {
        n = n
            .checked_mul(10)?
            .checked_add(u64::from(digit.saturating_sub(b'0')))?;
    }
    Some(n)
}

/// The integer that a sign and digits stand for, if 64 bits hold it.
#[tactic(auto, unfolding(crate::specs::steps::Reading::integer_of))]
fn integer_of(run: &[u8]) -> Option<i64>
    ensures { result ≡ integer_of_run run.now }
{
    match run {
        [] => None,
        [b'-', digits @ ..] => i64::try_from(-i128::from(number(digits)?)).ok(),
        _ => i64::try_from(i128::from(number(run)?)).ok(),
    }
}
