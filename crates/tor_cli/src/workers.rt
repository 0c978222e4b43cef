//! How many workers a word asks for, and who they are.
ghost use Rattle.std.specs.Prelude.{◌≡◌, ◌≤◌, ◌<◌, ◌^◌, ℕ, IfOk, IfSome, IsSome, Some, codes, min};
ghost use Rattle.tor_cli.specs.Words.{AreWorkers, IsNumber, IsUsage};
ghost use Rattle.tor_sums.specs.declared.how.How.TheVariants.{Board};
ghost use Rattle.tor_sums.specs.declared.how.TheConstants.{MAX_WORKERS};

use crate::fault::Fault;
use crate::text::escape::escaped;
use std::alloc::{AllocError, Global};
use std::thread::{Threads, available_parallelism};
use tor_engine::{How, MAX_WORKERS};

/// How many workers the word asks for: for `auto` as many as there are processors, from 1 to 64; else its number, which
/// has 32 bits. None if it is no such word.
pub fn workers_of<T: Threads>(rt: &T, word: &str) -> Option<u32>
    ensures value { IfSome result (AreWorkers word.now) }
    ensures each { (number : ℕ) → IsNumber word.now (λ value. number ≡ value) → number < 2 ^ 32 →
        result ≡ Some number }
    ensures auto { word.now ≡ codes "auto" → IsSome result }
{
    match word {
        "auto" => Some(processors(rt)),
        _ => number_of(word),
    }
}

/// The number that the word is.
fn number_of(word: &str) -> Option<u32>
    ensures value { IfSome result (λ number. IsNumber word.now (λ value. number ≡ value)) }
    ensures each { (number : ℕ) → IsNumber word.now (λ value. number ≡ value) → number < 2 ^ 32 →
        result ≡ Some number }
{
    match word.parse::<u32>() {
        Ok(number) => Some(number),
        Err(_) => None,
    }
}

/// How many processors there are for this program, from 1 to 64; one if the system does not tell.
fn processors<T: Threads>(rt: &T) -> u32
    ensures { (1 ≤ result) × (result ≤ MAX_WORKERS) }
{
    match available_parallelism(rt) {
        Ok(count) => at_most_all(count.get()),
        Err(_) => 1,
    }
}

/// As many workers as processors, but no more than there may be.
fn at_most_all(processors: usize) -> u32
    ensures { result ≡ min processors MAX_WORKERS }
{
    processors.min(MAX_WORKERS as usize) as u32
}

/// So many workers, of whom each takes the next pieces that nobody has taken.
pub fn board_of(workers: u32) -> How
    ensures { result ≡ Board workers }
{
    How::Board(workers)
}

/// What is wrong with a word that asks for no number of workers, as `clap` says it of a number.
pub fn workers_fault(alloc: Global, word: &str, command: &str) -> Result<Fault, AllocError>
    ensures { IfOk result (IsUsage command.now) }
{
    let text = workers_text(alloc, &escaped(alloc, word)?, word)?;
    Fault::usage(alloc, &text, command)
}

fn workers_text(alloc: Global, printed: &str, word: &str) -> Result<String, AllocError> {
    let reason = reason_of(alloc, printed, word)?;
    format!(in alloc; "invalid value '{printed}' for '--workers <N>': {reason}")
}

fn reason_of(alloc: Global, printed: &str, word: &str) -> Result<String, AllocError> {
    match word.parse::<i64>() {
        Ok(_) => format!(in alloc; "{printed} is not in 0..=4294967295"),
        Err(error) => format!(in alloc; "{error}"),
    }
}
