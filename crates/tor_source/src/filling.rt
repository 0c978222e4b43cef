//! A buffer filled from a reader.
ghost use Rattle.std.specs.Prelude.{◌≡◌, ◌+◌, ◌^◌, ◌≤◌, ◌<◌, ◌++◌, ℕ, List, length, take, IfOk, IfErr};
ghost use Rattle.std.specs.Io.KnownBytes.{Consumes, IsAtEnd};
ghost use Rattle.tor_source.specs.Filling.{EndsFill};
ghost use Rattle.tor_source.specs.Input.{ReadsSome};

use std::io::{self, Read};

/// Why a buffer was not filled.
#[derive(Debug, Drop)]
pub enum FillFault {
    /// The reader had a fault, after so many bytes; an interrupted read is one.
    Read { count: usize, fault: io::Error },
    /// More bytes came than there is room for.
    TooLong,
}

/// Reads until the buffer is full or the reader is at its end, and tells how many bytes came; they stand at the front
/// of the buffer. No more than `room` may come.
pub fn fill<R: Read>(reader: &mut R, buffer: &mut [u8], room: u64) -> Result<usize, FillFault>
    ensures buffer_stays { length buffer.new ≡ length buffer.old }
    ensures within { IfOk result (λ count. (count ≤ length buffer.old) × (count ≤ room)) }
    ensures given { IfOk result (λ count.
        Consumes (R.remaining reader.old) (R.remaining reader.new) (take count buffer.new)) }
    ensures end { IfOk result (λ count. count < length buffer.old → IsAtEnd (R.remaining reader.new)) }
    ensures err { IfErr result (λ fault.
        ReadsSome (R.remaining reader.old) (R.remaining reader.new) (EndsFill room fault)) }
{
    let mut filled = 0;
    'reads: while filled < buffer.len() {
        let (_, rest) = buffer.split_at_mut(filled);
        let count = match read_once(reader, rest, room - filled as u64) {
            Ok(count) => count,
            Err(fault) => return Err(after(filled, fault)),
        };
        filled += count;
        if count == 0 {
            return Ok(filled);
        }
    }
    Ok(filled)
}

/// The fault with so many more bytes before it.
fn after(filled: usize, fault: FillFault) -> FillFault
    requires { (left : ℕ) × (bytes : List ℕ) × (filled + left < 2 ^ 64) × EndsFill left fault bytes }
    ensures { (left : ℕ) (before bytes : List ℕ) → length before ≡ filled → EndsFill left fault bytes →
        EndsFill (filled + left) result (before ++ bytes) }
{
    match fault {
        FillFault::Read { count, fault } => FillFault::Read {
            count: filled + count,
            fault,
        },
        FillFault::TooLong => FillFault::TooLong,
    }
}

/// Reads once, and tells how many bytes came; they stand at the front of the buffer.
fn read_once<R: Read>(reader: &mut R, buffer: &mut [u8], room: u64) -> Result<usize, FillFault>
    requires { 0 < length buffer.old }
    ensures buffer_stays { length buffer.new ≡ length buffer.old }
    ensures within { IfOk result (λ count. (count ≤ length buffer.old) × (count ≤ room)) }
    ensures given { IfOk result (λ count.
        Consumes (R.remaining reader.old) (R.remaining reader.new) (take count buffer.new)) }
    ensures end { IfOk result (λ count. count ≡ 0 → IsAtEnd (R.remaining reader.new)) }
    ensures err { IfErr result (λ fault.
        ReadsSome (R.remaining reader.old) (R.remaining reader.new) (EndsFill room fault)) }
{
    match reader.read(buffer) {
        Ok(count) if count as u64 > room => Err(FillFault::TooLong),
        Ok(count) => Ok(count),
        Err(fault) => Err(FillFault::Read { count: 0, fault }),
    }
}
