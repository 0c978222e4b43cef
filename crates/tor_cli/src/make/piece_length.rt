//! How long the pieces are to be: what a word of `tor make` asks for, and what is wrong with one that asks for nothing.
ghost use Rattle.std.specs.Prelude.{◌≡◌, ◌<◌, ◌^◌, ℕ, IfOk, IfSome, Some, codes};
ghost use Rattle.tor_source.specs.Source.{SourceFacts, told_length};
ghost use Rattle.tor_cli.specs.make.FileSizes.{size_of_files, told_bytes};
ghost use Rattle.tor_cli.specs.Words.{IsLengthWord, IsNumber, IsUsage, length_for};
ghost use Rattle.tor_cli.specs.declared.make.piece_length.PieceLength.TheVariants.{Auto, Bytes};

use crate::fault::Fault;
use crate::text::escape::escaped;
use std::alloc::{AllocError, Global};
use tor_meta::auto_piece_length;
use tor_source::Source;

/// How many bytes a piece is to have.
#[derive(Clone, Copy)]
pub enum PieceLength {
    Bytes(u64),
    /// As many as suit the bytes of the files.
    Auto,
}

impl PieceLength {
    /// The bytes of a piece of contents of so many bytes.
    pub(crate) fn for_size(self, size: u64) -> u64
        ensures { result ≡ length_for self size }
    {
        match self {
            PieceLength::Bytes(length) => length,
            PieceLength::Auto => auto_piece_length(size),
        }
    }

    /// The bytes of a piece of the files of a source, which are asked for their lengths if that counts.
    pub(crate) fn for_files<S: Source>(self, source: &S, count: usize) -> u64
        ensures some { (size : ℕ) × (result ≡ length_for self size) }
        ensures steady { (facts : SourceFacts S.Fault) → S.is_steady source.now facts →
            result ≡ length_for self (size_of_files facts count) }
    {
        match self {
            PieceLength::Auto => self.for_size(told_size(source, count)),
            PieceLength::Bytes(_) => self.for_size(0),
        }
    }
}

/// What the word asks for: `auto`, or a number of 64 bits; none if it is no such word.
pub(crate) fn piece_length_of(word: &str) -> Option<PieceLength>
    ensures value { IfSome result (IsLengthWord word.now) }
    ensures each { (number : ℕ) → IsNumber word.now (λ value. number ≡ value) → number < 2 ^ 64 →
        result ≡ Some (Bytes number) }
    ensures auto { word.now ≡ codes "auto" → result ≡ Some Auto }
{
    match word {
        "auto" => Some(PieceLength::Auto),
        _ => bytes_of(word),
    }
}

/// The number that the word is.
fn bytes_of(word: &str) -> Option<PieceLength>
    ensures value { IfSome result (IsLengthWord word.now) }
    ensures each { (number : ℕ) → IsNumber word.now (λ value. number ≡ value) → number < 2 ^ 64 →
        result ≡ Some (Bytes number) }
{
    match word.parse::<u64>() {
        Ok(length) => Some(PieceLength::Bytes(length)),
        Err(_) => None,
    }
}

/// The bytes that the first so many files of a source have together, as it tells their lengths, at most 2^64 - 1.
fn told_size<S: Source>(source: &S, count: usize) -> u64
    ensures { (facts : SourceFacts S.Fault) → S.is_steady source.now facts →
        result ≡ size_of_files facts count }
{
    let mut size = 0_u64;
    'files: for file in 0..count {
        size = size.saturating_add(told_bytes(source, file as u64));
    }
    size
}

/// The bytes of a file, as its source tells. One of which it tells none counts as empty: what is wrong with it is told
/// when it is read.
fn told_bytes<S: Source>(source: &S, file: u64) -> u64
    ensures { (facts : SourceFacts S.Fault) → S.is_steady source.now facts →
        result ≡ told_bytes (told_length facts file) }
{
    match source.length(file) {
        Ok(Some(length)) => length,
        _ => 0,
    }
}

/// What is wrong with a word that asks for no piece length, as `clap` says it of a number. Of a number with a unit the
/// line says how many bytes it is.
pub(crate) fn piece_length_fault(
    alloc: Global,
    word: &str,
    command: &str,
) -> Result<Fault, AllocError>
    ensures { IfOk result (IsUsage command.now) }
{
    let text = length_text(alloc, &escaped(alloc, word)?, word)?;
    Fault::usage(alloc, &text, command)
}

fn length_text(alloc: Global, printed: &str, word: &str) -> Result<String, AllocError> {
    let reason = reason_of(alloc, word)?;
    format!(in alloc; "invalid value '{printed}' for '--piece-length <N>': {reason}")
}

fn reason_of(alloc: Global, word: &str) -> Result<String, AllocError> {
    if word == "auto" {
        return String::from_str(alloc, "auto wants PATH");
    }
    if let Some(bytes) = bytes_with_unit(word) {
        return format!(in alloc; "in bytes that is {bytes}");
    }
    match word.parse::<u64>() {
        Ok(bytes) => format!(in alloc; "{bytes}"),
        Err(error) => format!(in alloc; "{error}"),
    }
}

/// How many bytes a number with a unit is, such as `256K` or `1MiB`.
fn bytes_with_unit(word: &str) -> Option<u64> {
    let short = word.strip_suffix("iB").unwrap_or(word);
    let (digits, unit) = if let Some(digits) = short.strip_suffix("K") {
        (digits, 1 << 10)
    } else if let Some(digits) = short.strip_suffix("M") {
        (digits, 1 << 20)
    } else {
        (short.strip_suffix("G")?, 1 << 30)
    };
    digits.parse::<u64>().ok()?.checked_mul(unit)
}
