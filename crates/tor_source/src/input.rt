//! An input read to its end, part by part, within a limit.
ghost use Rattle.std.specs.Prelude.{◌≡◌, ◌≤◌, ◌<◌, List, ℕ, length, take, vec_len, OnOk, IfOk, IfErr};
ghost use Rattle.std.specs.Io.KnownBytes.{Consumes, IsAtEnd};
ghost use Rattle.tor_source.specs.Input.{ReadsWhole, ReadsAll, ReadsSome, EndsInput};
ghost use Rattle.tor_source.specs.declared.input.InputFault.TheVariants.{Memory};

use crate::buffer::zeros;
use crate::filling::{FillFault, fill};
use crate::intake::{Dropped, Intake};
use std::alloc::{AllocError, Global};
use std::io::{self, Read};

/// The most bytes that the program reads of an input.
pub const MAX_INPUT_LENGTH: u64 = 1 << 30;

/// A pipe gives less a read, and the hashes of several blocks and pieces are computed at a time.
const BUFFER_LENGTH: usize = 1 << 21;

/// Why an input was not read whole.
#[derive(Clone, Copy, Debug)]
pub enum InputFault {
    /// The reader had this fault; an interrupted read is one.
    Read(io::Error),
    /// More bytes came than the limit allows.
    TooLong,
    Memory,
}

/// All the bytes that the reader has, if they are at most `limit`.
pub fn read_limited<R: Read>(
    alloc: Global,
    reader: &mut R,
    limit: u64,
) -> Result<Vec<u8>, InputFault>
    ensures within { IfOk result (λ bytes. vec_len bytes ≤ limit) }
    ensures whole { IfOk result (λ bytes. ReadsWhole (R.remaining reader.old) (R.remaining reader.new) bytes.items) }
    ensures err { IfErr result (λ fault.
        ReadsSome (R.remaining reader.old) (R.remaining reader.new) (EndsInput limit fault)) }
{
    let mut bytes = Vec::new(alloc);
    read_parts(alloc, reader, limit, &mut bytes)?;
    Ok(bytes)
}

/// Reads all the bytes that the reader has, at most `MAX_INPUT_LENGTH`, and keeps none.
pub fn drop_input<R: Read>(alloc: Global, reader: &mut R) -> Result<(), InputFault>
    ensures whole { OnOk result ((bytes : List ℕ) × ReadsAll (R.remaining reader.old) (R.remaining reader.new) bytes) }
    ensures err { IfErr result (λ fault.
        ReadsSome (R.remaining reader.old) (R.remaining reader.new) (EndsInput MAX_INPUT_LENGTH fault)) }
{
    read_parts(alloc, reader, MAX_INPUT_LENGTH, &mut Dropped)
}

/// Hands on all the bytes that the reader has, if they are at most `limit`, part by part.
pub fn read_parts<R: Read, I: Intake>(
    alloc: Global,
    reader: &mut R,
    limit: u64,
    intake: &mut I,
) -> Result<(), InputFault>
    requires { I.may_take intake.old limit }
    ensures whole { OnOk result ((bytes : List ℕ) × (length bytes ≤ limit)
        × ReadsWhole (R.remaining reader.old) (R.remaining reader.new) bytes × I.takes intake.old bytes intake.new) }
    ensures err { IfErr result (λ fault.
        ReadsSome (R.remaining reader.old) (R.remaining reader.new) (EndsInput limit fault)) }
{
    let mut memory = zeros(alloc, BUFFER_LENGTH)?;
    let buffer = memory.as_mut_slice();
    let mut left = limit;
    'parts: loop {
        let count = match fill_part(reader, buffer, left) {
            Ok(count) => count,
            Err(fault) => return Err(fault),
        };
        let (part, _) = buffer.split_at(count);
        match intake.take(part) {
            Ok(()) => left -= count as u64,
            Err(_) => return Err(InputFault::Memory),
        }
        if count < BUFFER_LENGTH {
            return Ok(());
        }
    }
}

/// Fills the buffer, and tells how many bytes came; they stand at its front.
fn fill_part<R: Read>(reader: &mut R, buffer: &mut [u8], room: u64) -> Result<usize, InputFault>
    ensures buffer_stays { length buffer.new ≡ length buffer.old }
    ensures within { IfOk result (λ count. (count ≤ length buffer.old) × (count ≤ room)) }
    ensures given { IfOk result (λ count.
        Consumes (R.remaining reader.old) (R.remaining reader.new) (take count buffer.new)) }
    ensures end { IfOk result (λ count. count < length buffer.old → IsAtEnd (R.remaining reader.new)) }
    ensures err { IfErr result (λ fault.
        ReadsSome (R.remaining reader.old) (R.remaining reader.new) (EndsInput room fault)) }
{
    match fill(reader, buffer, room) {
        Ok(count) => Ok(count),
        Err(FillFault::Read { fault, .. }) => Err(InputFault::Read(fault)),
        Err(FillFault::TooLong) => Err(InputFault::TooLong),
    }
}

impl From<AllocError> for InputFault {
    ghost from_gives = { λ _ fault. fault ≡ Memory };

    fn from(_error: AllocError) -> InputFault {
        InputFault::Memory
    }
}
