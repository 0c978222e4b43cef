//! Readers and inputs that are read to their ends, and cut into chunks.
ghost use Rattle.std.specs.Prelude.{◌≡◌, ◌∷◌, [], ℕ, List, Option, IfErr, IfOk, map};
ghost use Rattle.tor_lane.specs.Lane.{put_by};
ghost use Rattle.tor_merkle.specs.declared.TheConstants.{MAX_LENGTH};
ghost use Rattle.tor_source.specs.Input.{EndsInput};
ghost use Rattle.tor_streams.specs.Streams.{GiveContents, IsFaultOfReaders, ReadsUpTo};
ghost use Rattle.tor_streams.specs.steps.Cuts.{EndsReading, IsChunking, IsReady, KeepsLane};
ghost use Rattle.tor_streams.specs.steps.Fed.{GivesInput, PutsGiven, StopsInput};

use crate::chunking::Chunking;
use crate::cutter::Cutter;
use crate::filling::Stop;
use std::alloc::{AllocError, Global};
use std::io::{self, Read};
use std::sync::Wait;
use tor_merkle::MAX_LENGTH;
use tor_source::{InputFault, MAX_INPUT_LENGTH};
use tor_sums::EngineError;

/// Reads each reader to its end, puts all chunks, and answers how long each content is.
pub(crate) fn read_each<R: Read + Drop, T: Wait>(
    rt: &T,
    alloc: Global,
    chunking: Chunking,
    readers: Vec<R>,
    cutter: &mut Cutter,
) -> Result<Vec<u64>, EngineError<io::Error>>
    requires cut { IsChunking chunking }
    requires ready { IsReady chunking [] cutter.old }
    ensures put { IfOk result (λ lengths. PutsGiven chunking (GiveContents (map R.remaining readers.items))
        lengths.items (put_by cutter.new.pairs.feeder)) }
    ensures lane { KeepsLane cutter.old cutter.new }
    ensures fault { IfErr result (IsFaultOfReaders (map R.remaining readers.items)) }
{
    let mut lengths = Vec::with_capacity(alloc, readers.len())?;
    'readers: for reader in readers {
        let mut reader = reader;
        let file = lengths.len() as u64;
        match cutter.read_whole(rt, alloc, chunking, MAX_LENGTH, &mut reader) {
            Ok(length) => lengths.push(length)?,
            Err(stop) => return Err(error_of(stop, file)),
        }
    }
    cutter.put_rest(rt, alloc, chunking)?;
    Ok(lengths)
}

/// What is answered if the reader of this number was not read to its end.
fn error_of(stop: Stop, file: u64) -> EngineError<io::Error>
    ensures { (known : List (Option (List ℕ))) (bytes : List ℕ) → ReadsUpTo known file bytes →
        EndsReading MAX_LENGTH stop bytes → IsFaultOfReaders known result }
{
    match stop {
        Stop::Read { start, fault } => EngineError::Read {
            file,
            start: Some(start),
            fault,
        },
        Stop::TooLong => EngineError::StreamTooLong { file },
        Stop::Refused => EngineError::Resources,
    }
}

/// Reads an input to its end, puts all chunks, and answers how long it is.
pub(crate) fn read_input<R: Read, T: Wait>(
    rt: &T,
    alloc: Global,
    chunking: Chunking,
    reader: &mut R,
    cutter: &mut Cutter,
) -> Result<Vec<u64>, InputFault>
    requires cut { IsChunking chunking }
    requires ready { IsReady chunking [] cutter.old }
    ensures put { IfOk result (λ lengths. PutsGiven chunking
        (GivesInput (R.remaining reader.old) (R.remaining reader.new)) lengths.items (put_by cutter.new.pairs.feeder)) }
    ensures lane { KeepsLane cutter.old cutter.new }
    ensures stopped { IfErr result (StopsInput (R.remaining reader.old) (R.remaining reader.new)) }
{
    match cutter.read_whole(rt, alloc, chunking, MAX_INPUT_LENGTH, reader) {
        Ok(length) => {
            cutter.put_rest(rt, alloc, chunking)?;
            Ok(only(alloc, length)?)
        }
        Err(stop) => Err(fault_of(stop)),
    }
}

/// A list of one number.
fn only(alloc: Global, number: u64) -> Result<Vec<u64>, AllocError>
    ensures { IfOk result (λ numbers. numbers.items ≡ number ∷ []) }
{
    Ok(vec![in alloc; number]?)
}

/// What is answered if an input was not read to its end.
fn fault_of(stop: Stop) -> InputFault
    ensures { (limit : ℕ) (bytes : List ℕ) → EndsReading limit stop bytes → EndsInput limit result bytes }
{
    match stop {
        Stop::Read { fault, .. } => InputFault::Read(fault),
        Stop::TooLong => InputFault::TooLong,
        Stop::Refused => InputFault::Memory,
    }
}
