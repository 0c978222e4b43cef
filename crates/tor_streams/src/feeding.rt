//! A lane whose feeder reads in the calling thread, while its workers take and hash in others.
ghost use Rattle.std.specs.Prelude.{◌≡◌, ◌*◌, ◌+◌, ◌≤◌, [], Err, IfErr, IfOk, false, map, true};
ghost use Rattle.std.specs.List.{list_any};
ghost use Rattle.std.specs.Thread.{IsSync};
ghost use Rattle.tor_lane.specs.Lane.{FeedsLaneOf, IsEnded, IsOpen, put_by};
ghost use Rattle.tor_lane.specs.declared.feeder.Feeder.{Feeder};
ghost use Rattle.tor_sums.specs.declared.errors.EngineError.TheVariants.{Resources};
ghost use Rattle.tor_streams.specs.declared.chunking.Chunking.{Chunking};
ghost use Rattle.tor_streams.specs.steps.Cuts.{IsChunking, IsReady};
ghost use Rattle.tor_streams.specs.steps.Fed.{GivesInput, IsFed, IsFedByReaders, StopsInput};
ghost use Rattle.tor_streams.specs.steps.StreamWorkers.{AreDone, AreWorkers, TookAll};

use crate::chunking::Chunking;
use crate::cutter::Cutter;
use crate::gate::{Gate, OpenGate};
use crate::pairs::Pairs;
use crate::read_streams::{read_each, read_input};
use crate::spares::pool;
use crate::stream_worker::{StreamWorker, any_refused, stream_workers, take_by_halves};
use std::alloc::{AllocError, Global};
use std::io::{self, Read};
use std::snapshot::Snapshot;
use std::sync::Wait;
use std::thread;
use std::thread::{Promise, PromisedHandle, Threads};
use tor_lane::{Feeder, lane};
use tor_source::InputFault;
use tor_sums::EngineError;

/// What the two threads leave: the lengths of the contents, or why not all was read; the feeder of the lane; its
/// workers.
#[derive(Drop)]
pub(crate) struct Fed<F> {
    pub(crate) read: Result<Vec<u64>, F>,
    pub(crate) feeder: Feeder,
    pub(crate) workers: Vec<StreamWorker>,
}

/// A cutter over a new lane, and so many workers that take what it puts.
fn cutter_and_workers(
    alloc: Global,
    chunking: Chunking,
    workers: u32,
) -> Result<(Cutter, Vec<StreamWorker>), AllocError>
    requires cut { IsChunking chunking }
    requires workers { 1 ≤ workers }
    ensures ready { IfOk result (λ both. IsReady chunking [] both.0) }
    ensures workers { IfOk result (λ both. AreWorkers chunking both.0.pairs.feeder both.1.items) }
{
    let (feeder, takers) = lane(alloc, workers)?;
    let (spares, mut give_back) = pool(alloc, room_of_pool(workers), chunking.size as usize)?;
    let workers = stream_workers(alloc, takers, &mut give_back)?;
    let cutter = Cutter::new(alloc, feeder, spares, chunking)?;
    Ok((cutter, workers))
}

/// How many buffers are about at most: two for each worker in the lane, one that it hashes, two that are held back, and
/// one that is read into. Not one of them is lost then.
fn room_of_pool(workers: u32) -> usize
    ensures { result ≡ 3 * workers + 3 }
{
    3 * workers as usize + 3
}

/// What the workers' thread promises to answer: all workers of the feeder's lane, each at its mark. It has no worker:
/// only the prover reads it.
#[derive(Drop)]
struct Workers {
    feeder: Snapshot<Feeder>,
    chunking: Chunking,
}

impl Workers {
    fn of(cutter: &Cutter, chunking: Chunking) -> Workers
        ensures { let told : Chunking × Feeder = (result.chunking, result.feeder.value) in
            told ≡ (chunking, cutter.now.pairs.feeder) }
    {
        Workers {
            feeder: Snapshot::of(&cutter.pairs.feeder),
            chunking,
        }
    }
}

impl Promise<Vec<StreamWorker>> for Workers {
    ghost use Rattle.tor_streams.specs.steps.StreamWorkers.{AreDone};

    ghost kept_by = { λ p workers. AreDone p.chunking p.feeder.value workers.items };
}

/// Reads all readers in this thread, while another one has so many workers take what is put. If that thread is refused,
/// nothing is read; if memory was refused to a worker, that is told in place of what the readers did.
pub(crate) fn feed_readers<G: Gate + Sync, R: Read + Drop, T: Threads + Wait + Sync>(
    gate: &G,
    rt: &T,
    alloc: Global,
    chunking: Chunking,
    workers: u32,
    readers: Vec<R>,
) -> Result<Fed<EngineError<io::Error>>, AllocError>
    requires cut { IsChunking chunking }
    requires workers { 1 ≤ workers }
    ensures { IfOk result (IsFedByReaders chunking (map R.remaining readers.items)) }
{
    let (mut cutter, workers) = cutter_and_workers(alloc, chunking, workers)?;
    thread::scope(
        thread::scope_env(),
        rt,
        |scope| -> Result<Fed<EngineError<io::Error>>, AllocError>
            requires { IsSync T.row × IsSync G.row × IsChunking chunking × IsReady chunking [] cutter
                × AreWorkers chunking cutter.pairs.feeder workers.items }
            ensures { IfOk result (IsFedByReaders chunking (map R.remaining readers.items)) }
        {
            let promise = Workers::of(&cutter, chunking);
            match scope.spawn_with(
                promise,
                move || -> Vec<StreamWorker>
                    requires { IsSync T.row × IsSync G.row × IsChunking chunking }
                    ensures { TookAll chunking workers.items result.items }
                { workers_at_marks(rt, gate, alloc, chunking, workers) },
            ) {
                Ok(handle) => {
                    let read = read_each(rt, alloc, chunking, readers, &mut cutter);
                    Ok(refusals_first(end_and_wait(rt, read, cutter, handle)))
                }
                Err(_) => Err(AllocError),
            }
        },
    )
}

/// Reads in this thread an input that the caller lends, while another one has so many workers take what is put. That
/// one is none of a scope, since no clause can say what a scope's closure leaves behind a reference.
pub(crate) fn feed_input<R: Read, T: Threads + Wait + Sync + Send + Clone + Drop + 'static>(
    rt: &T,
    alloc: Global,
    chunking: Chunking,
    workers: u32,
    reader: &mut R,
) -> Result<Fed<InputFault>, AllocError>
    requires cut { IsChunking chunking }
    requires workers { 1 ≤ workers }
    ensures fed { IfOk result (IsFed chunking (GivesInput (R.remaining reader.old) (R.remaining reader.new))
        (StopsInput (R.remaining reader.old) (R.remaining reader.new))) }
    ensures untouched { IfErr result (λ _. reader.new ≡ reader.old) }
{
    let (mut cutter, workers) = cutter_and_workers(alloc, chunking, workers)?;
    let own = rt.clone()?;
    let promise = Workers::of(&cutter, chunking);
    match thread::spawn_with(
        rt,
        promise,
        move || -> Vec<StreamWorker>
            requires { IsSync T.row × IsChunking chunking }
            ensures { TookAll chunking workers.items result.items }
        { workers_at_marks(&own, &OpenGate, alloc, chunking, workers) },
    ) {
        Ok(handle) => {
            let read = read_input(rt, alloc, chunking, reader, &mut cutter);
            Ok(end_and_wait(rt, read, cutter, handle))
        }
        Err(_) => Err(AllocError),
    }
}

/// Puts the marks after what was read, and waits for the workers' thread.
fn end_and_wait<F, T: Threads + Wait>(
    rt: &T,
    read: Result<Vec<u64>, F>,
    cutter: Cutter,
    handle: PromisedHandle<Vec<StreamWorker>, Workers>,
) -> Fed<F>
    requires { IsOpen cutter.pairs.feeder }
    ensures read { result.read ≡ read }
    ensures ended { IsEnded result.feeder }
    ensures put { put_by result.feeder ≡ put_by cutter.pairs.feeder }
    ensures lane { FeedsLaneOf cutter.pairs.feeder result.feeder }
    ensures done { AreDone handle.promise.chunking handle.promise.feeder.value result.workers.items }
{
    let Cutter { pairs, .. } = cutter;
    let Pairs { mut feeder, .. } = pairs;
    feeder.end(rt);
    let workers = handle.join(rt);
    Fed {
        read,
        feeder,
        workers,
    }
}

/// What was fed, but want of memory of any worker comes before what the readers did.
fn refusals_first<F: Drop>(fed: Fed<EngineError<F>>) -> Fed<EngineError<F>>
    ensures refused { list_any (λ worker. worker.is_refused) fed.workers.items ≡ true →
        result.read ≡ Err Resources }
    ensures read { list_any (λ worker. worker.is_refused) fed.workers.items ≡ false → result.read ≡ fed.read }
    ensures lane { (result.feeder ≡ fed.feeder) × (result.workers ≡ fed.workers) }
{
    let Fed {
        read,
        feeder,
        workers,
    } = fed;
    let read = if any_refused(&workers) {
        Err(EngineError::Resources)
    } else {
        read
    };
    Fed {
        read,
        feeder,
        workers,
    }
}

/// Has all workers take until their marks, and gives them back.
fn workers_at_marks<G: Gate + Sync, T: Threads + Wait + Sync>(
    rt: &T,
    gate: &G,
    alloc: Global,
    chunking: Chunking,
    workers: Vec<StreamWorker>,
) -> Vec<StreamWorker>
    requires { IsChunking chunking }
    ensures { TookAll chunking workers.items result.items }
{
    let mut workers = workers;
    take_by_halves(rt, gate, alloc, chunking, workers.as_mut_slice());
    workers
}
