//! The workers of a lane: each hashes the chunks that it takes.
ghost use Rattle.std.specs.Prelude.{◌≡◌, [], IfOk, vec_len};
ghost use Rattle.std.specs.List.{AllByRecursion, list_any};
ghost use Rattle.std.specs.Thread.{IsSync};
ghost use Rattle.tor_lane.specs.Lane.{IsTakerOf, taken_by};
ghost use Rattle.tor_lane.specs.declared.feeder.Feeder.{Feeder};
ghost use Rattle.tor_streams.specs.declared.chunking.Chunking.{Chunking};
ghost use Rattle.tor_streams.specs.steps.Cuts.{IsChunking};
ghost use Rattle.tor_streams.specs.steps.StreamWorkers.{AreDone, AreParted, IsDoneOf, IsWorkerOf, TookAll};

use crate::chunking::Chunking;
use crate::gate::Gate;
use crate::owed_chunks::{ChunkSums, settle_chunks};
use crate::spares::GiveBack;
use std::alloc::{AllocError, Global};
use std::sync::Wait;
use std::thread::{Threads, join_mut};
use tor_lane::{Chunk, Taker};
use tor_sums::{OwingPieces, UnitSums};

/// A worker of a lane, and what it made of the chunks that it took.
#[derive(Drop)]
pub(crate) struct StreamWorker {
    taker: Taker,
    give_back: GiveBack,
    sums: Vec<ChunkSums>,
    // The SHA-1s that are owed to these.
    owing: Option<OwingPieces>,
    // Memory was refused: what it takes then is let go, so that the feeder does not wait for ever.
    is_refused: bool,
}

impl StreamWorker {
    ghost use Rattle.std.specs.Prelude.{◌≡◌, ◌++◌, ◌∷◌, [], List, false, true};
    ghost use Rattle.tor_lane.specs.declared.chunk.Chunk.{Chunk};
    ghost use Rattle.tor_streams.specs.steps.OwedChunks.{AreOwed};

    // Takes chunks until its mark, and hashes them.
    fn take_all<G: Gate, R: Wait>(&mut self, rt: &R, gate: &G, alloc: Global, chunking: Chunking)
        requires { IsChunking chunking }
        ensures { (feeder : Feeder) → IsWorkerOf chunking feeder self.old → IsDoneOf chunking feeder self.new }
    {
        'chunks: for _ in rt.forever() {
            match self.taker.take(rt) {
                Some(chunk) => {
                    gate.enter(chunk.unit);
                    self.add(alloc, chunking, &chunk);
                    self.give_back.give(rt, chunk.bytes);
                }
                None => return,
            }
        }
        unreachable!()
    }

    // Hashes a chunk, if no memory was refused before.
    fn add(&mut self, alloc: Global, chunking: Chunking, chunk: &Chunk)
        requires { IsChunking chunking }
        ensures taker { self.new.taker ≡ self.old.taker }
        ensures sums { self.new.is_refused ≡ false → (self.old.is_refused ≡ false)
            × ((chunks : List Chunk) → AreOwed chunking chunks self.old.sums.items self.old.owing →
            AreOwed chunking (chunks ++ chunk.now ∷ []) self.new.sums.items self.new.owing) }
    {
        if self.is_refused {
            return;
        }
        if let Ok(sums) = ChunkSums::of(alloc, chunking, chunk, &mut self.owing) {
            if let Ok(()) = self.sums.push(sums) {
                return;
            }
        }
        self.is_refused = true;
    }
}

/// A worker for each taker.
pub(crate) fn stream_workers(
    alloc: Global,
    takers: Vec<Taker>,
    give_back: &mut GiveBack,
) -> Result<Vec<StreamWorker>, AllocError>
    ensures workers { (chunking : Chunking) (feeder : Feeder) →
        AllByRecursion (λ taker. IsTakerOf feeder taker × (taken_by taker ≡ [])) takers.items →
        IfOk result (λ workers. AllByRecursion (IsWorkerOf chunking feeder) workers.items) }
    ensures all { IfOk result (λ workers. vec_len workers ≡ vec_len takers) }
{
    let mut workers = Vec::with_capacity(alloc, takers.len())?;
    'takers: for taker in takers {
        let give_back = give_back.again()?;
        workers.push(StreamWorker {
            taker,
            give_back,
            sums: Vec::new(alloc),
            owing: None,
            is_refused: false,
        })?;
    }
    Ok(workers)
}

/// Each worker takes until its mark, both halves of them at once, and each again in halves.
pub(crate) fn take_by_halves<G: Gate + Sync, R: Threads + Wait + Sync>(
    rt: &R,
    gate: &G,
    alloc: Global,
    chunking: Chunking,
    workers: &mut [StreamWorker],
)
    requires { IsChunking chunking }
    ensures { TookAll chunking workers.old workers.new }
{
    if workers.len() == 0 {
        return;
    }
    if workers.len() == 1 {
        workers[0].take_all(rt, gate, alloc, chunking);
        return;
    }
    let (front, back) = workers.split_at_mut(workers.len() / 2);
    join_mut(
        rt,
        &mut || -> ()
            requires { IsSync R.row × IsSync G.row × IsChunking chunking }
            ensures { TookAll chunking front.entry.now front.exit.now }
        { take_by_halves(rt, gate, alloc, chunking, front) },
        &mut || -> ()
            requires { IsSync R.row × IsSync G.row × IsChunking chunking }
            ensures { TookAll chunking back.entry.now back.exit.now }
        { take_by_halves(rt, gate, alloc, chunking, back) },
    );
}

/// Whether memory was refused to one of them.
pub(crate) fn any_refused(workers: &[StreamWorker]) -> bool
    ensures { result ≡ list_any (λ worker. worker.is_refused) workers.now }
{
    workers.iter().any(|worker| worker.is_refused)
}

/// The takers of workers, and what all of them made of what these took, once each chunk has the SHA-1s that are owed
/// to it; if memory was refused to a worker, it is here.
pub(crate) fn takers_and_sums(
    alloc: Global,
    workers: Vec<StreamWorker>,
) -> Result<(Vec<Taker>, Vec<UnitSums>), AllocError>
    requires { (chunking : Chunking) × (feeder : Feeder) × AreDone chunking feeder workers.items }
    ensures { (chunking : Chunking) (feeder : Feeder) → AreDone chunking feeder workers.items →
        IfOk result (λ parts. AreParted chunking feeder parts.0.items parts.1.items) }
{
    let mut takers = Vec::with_capacity(alloc, workers.len())?;
    let mut all = Vec::new(alloc);
    'workers: for worker in workers {
        let StreamWorker {
            taker,
            sums,
            owing,
            is_refused,
            ..
        } = worker;
        if is_refused {
            return Err(AllocError);
        }
        settle_chunks(alloc, sums, owing, &mut all)?;
        takers.push(taker)?;
    }
    Ok((takers, all))
}
