//! Readers that are read once and in order.
ghost use Rattle.std.specs.Prelude.{◌≡◌, ◌≤◌, ℕ, List, Some, IfErr, IfOk, map};
ghost use Rattle.tor_streams.specs.Streams.{AreSumsOfContents, AreSumsOfReaders, IsFaultOfReaders, IsStreamCut};
ghost use Rattle.tor_sums.specs.declared.how.TheConstants.{MAX_WORKERS};

use std::alloc::Global;
use std::io::{self, Read};
use std::sync::Wait;
use std::thread::Threads;
use tor_streams::hash_streams;
use tor_sums::{EngineError, Sums};
use tor_tree::Kind;

/// What the contents of readers sum up to, hashed by so many workers in units of `span` pieces.
pub fn sums_of_readers<R: Read + Drop, T: Threads + Wait + Sync>(
    rt: &T,
    alloc: Global,
    readers: Vec<R>,
    kind: Kind,
    piece_length: u64,
    span: u32,
    workers: u32,
    tail: bool,
) -> Result<Sums, EngineError<io::Error>>
    requires cut { IsStreamCut kind piece_length span }
    requires workers { (1 ≤ workers) × (workers ≤ MAX_WORKERS) }
    ensures summed { IfOk result (AreSumsOfReaders kind tail piece_length (map R.remaining readers.items)) }
    ensures told { (contents : List (List ℕ)) → map R.remaining readers.items ≡ map Some contents →
        IfOk result (AreSumsOfContents kind tail piece_length contents) }
    ensures fault { IfErr result (IsFaultOfReaders (map R.remaining readers.items)) }
{
    hash_streams(rt, alloc, readers, kind, piece_length, span, workers, tail)
}
