//! Readers that are read once and in order, hashed by several workers.
ghost use Rattle.std.specs.Prelude.{◌≡◌, ◌≤◌, ℕ, List, Some, IfErr, IfOk, map};
ghost use Rattle.tor_streams.specs.Streams.{AreSumsOfContents, AreSumsOfReaders, IsFaultOfReaders, IsStreamCut};
ghost use Rattle.tor_sums.specs.declared.how.TheConstants.{MAX_WORKERS};

use crate::chunking::Chunking;
use crate::fed_sums::sums_of_fed;
use crate::feeding::feed_readers;
use crate::gate::{Gate, OpenGate};
use std::alloc::Global;
use std::io::{self, Read};
use std::sync::Wait;
use std::thread::Threads;
use tor_sums::{EngineError, Sums};
use tor_tree::Kind;

/// The most bytes of a unit that goes through a lane.
pub const MAX_UNIT_LENGTH: u64 = 1 << 30;

/// What the contents of readers sum up to, each of which is read once, to its end, one after the other. The calling
/// thread reads, and puts units of `span` pieces, or of fewer if those have more than 2 MiB, into a channel that holds
/// at most two for each worker; so many workers, from 1 to 64, take and hash them. In a hybrid zeros fill the last
/// piece of each content that a byte of a later one follows, and with a tail that of the last content with bytes too.
///
/// Such a unit has at most eight pieces, and of pieces of more than 1 MiB one, unless the kind has SHA-1, the span at
/// least eight pieces, and a piece at most 16 MiB: then it has eight. At most 192 MiB of units are held, or two if
/// those are longer.
///
/// # Errors
///
/// `Read` if a reader had a fault, an interrupted read among them, after so many bytes; `StreamTooLong` if one gave
/// more than 2^50; `Resources` if memory or the thread of the workers was refused, before all others.
pub fn hash_streams<R: Read + Drop, T: Threads + Wait + Sync>(
    rt: &T,
    alloc: Global,
    readers: Vec<R>,
    kind: Kind,
    piece_length: u64,
    span: u32,
    workers: u32,
    tail: bool,
) -> Result<Sums, EngineError<io::Error>>
    requires cut { IsStreamCut kind piece_length span }
    requires workers { (1 ≤ workers) × (workers ≤ MAX_WORKERS) }
    ensures summed { IfOk result (AreSumsOfReaders kind tail piece_length (map R.remaining readers.items)) }
    ensures told { (contents : List (List ℕ)) → map R.remaining readers.items ≡ map Some contents →
        IfOk result (AreSumsOfContents kind tail piece_length contents) }
    ensures fault { IfErr result (IsFaultOfReaders (map R.remaining readers.items)) }
{
    hash_streams_with(
        &OpenGate,
        rt,
        alloc,
        readers,
        kind,
        piece_length,
        span,
        workers,
        tail,
    )
}

/// What the contents of readers sum up to, as [`hash_streams`] tells, by workers that pass a gate: each once for each
/// unit, after it took it and before it hashes it.
pub fn hash_streams_with<G: Gate + Sync, R: Read + Drop, T: Threads + Wait + Sync>(
    gate: &G,
    rt: &T,
    alloc: Global,
    readers: Vec<R>,
    kind: Kind,
    piece_length: u64,
    span: u32,
    workers: u32,
    tail: bool,
) -> Result<Sums, EngineError<io::Error>>
    requires cut { IsStreamCut kind piece_length span }
    requires workers { (1 ≤ workers) × (workers ≤ MAX_WORKERS) }
    ensures summed { IfOk result (AreSumsOfReaders kind tail piece_length (map R.remaining readers.items)) }
    ensures told { (contents : List (List ℕ)) → map R.remaining readers.items ≡ map Some contents →
        IfOk result (AreSumsOfContents kind tail piece_length contents) }
    ensures fault { IfErr result (IsFaultOfReaders (map R.remaining readers.items)) }
{
    let chunking = Chunking::of(kind, piece_length, span, tail);
    let fed = feed_readers(gate, rt, alloc, chunking, workers, readers)?;
    let summed = sums_of_fed(alloc, chunking, fed)?;
    summed
}
