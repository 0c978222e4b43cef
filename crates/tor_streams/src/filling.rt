//! A buffer filled from a reader (`fill` of `tor_source`), and why a reader is not read on.
ghost use Rattle.std.specs.Prelude.{◌≡◌, ◌+◌, ◌^◌, ◌<◌, ◌≤◌, ◌++◌, ℕ, List, IfErr, IfOk, length, take};
ghost use Rattle.std.specs.Io.KnownBytes.{Consumes, IsAtEnd};
ghost use Rattle.tor_source.specs.Filling.{EndsFill};
ghost use Rattle.tor_source.specs.Input.{ReadsSome};
ghost use Rattle.tor_streams.specs.declared.filling.Stop.TheVariants.{Refused};
ghost use Rattle.tor_streams.specs.steps.Cuts.{EndsReading};

use std::alloc::AllocError;
use std::io::{self, Read};
use tor_source::{FillFault, fill};

/// Why a reader was not read to its end.
#[derive(Drop)]
pub(crate) enum Stop {
    /// It had a fault, after so many bytes; an interrupted read is one.
    Read { start: u64, fault: io::Error },
    /// More bytes came than the limit allows.
    TooLong,
    /// Memory was refused.
    Refused,
}

/// Fills a buffer from an offset on, and tells how many bytes came; they stand from there on.
pub(crate) fn fill_from<R: Read>(
    filled: usize,
    buffer: &mut [u8],
    reader: &mut R,
    room: u64,
) -> Result<usize, FillFault>
    requires { filled ≤ length buffer.old }
    ensures buffer_stays { length buffer.new ≡ length buffer.old }
    ensures came { IfOk result (λ count. (bytes : List ℕ)
        × Consumes (R.remaining reader.old) (R.remaining reader.new) bytes
        × (length bytes ≡ count) × (count ≤ room) × (filled + count ≤ length buffer.old)
        × (take (filled + count) buffer.new ≡ take filled buffer.old ++ bytes)) }
    ensures end { IfOk result (λ count. filled + count < length buffer.old → IsAtEnd (R.remaining reader.new)) }
    ensures fault { IfErr result (λ fault.
        ReadsSome (R.remaining reader.old) (R.remaining reader.new) (EndsFill room fault)) }
{
    let (_, rest) = buffer.split_at_mut(filled);
    match fill(reader, rest, room) {
        Ok(count) => Ok(count),
        Err(fault) => Err(fault),
    }
}

/// Why a reader was not read on, of which so many bytes came before.
pub(crate) fn stop_after(before: u64, fault: FillFault) -> Stop
    requires { (left : ℕ) × (bytes : List ℕ) × (before + left < 2 ^ 64) × EndsFill left fault bytes }
    ensures { (left : ℕ) (earlier bytes : List ℕ) → length earlier ≡ before → EndsFill left fault bytes →
        EndsReading (before + left) result (earlier ++ bytes) }
{
    match fault {
        FillFault::Read { count, fault } => Stop::Read {
            start: before + count as u64,
            fault,
        },
        FillFault::TooLong => Stop::TooLong,
    }
}

impl From<AllocError> for Stop {
    ghost from_gives = { λ _ stop. stop ≡ Refused };

    fn from(_error: AllocError) -> Stop {
        Stop::Refused
    }
}
