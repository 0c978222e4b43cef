//! What contents sum up to that went through a lane.
ghost use Rattle.std.specs.Prelude.{ℕ, List, IfErr, IfOk, IsOk};
ghost use Rattle.tor_lane.specs.Lane.{IsEnded, put_by};
ghost use Rattle.tor_streams.specs.Streams.{AreSumsOfContents};
ghost use Rattle.tor_streams.specs.steps.Cuts.{IsChunking, PutsContents};
ghost use Rattle.tor_streams.specs.steps.Fed.{AnswersFed, IsFedSome};
ghost use Rattle.tor_streams.specs.steps.StreamWorkers.{AreParted};

use crate::chunking::Chunking;
use crate::feeding::Fed;
use crate::stream_sums::sums_of_chunks;
use crate::stream_worker::takers_and_sums;
use std::alloc::{AllocError, Global};
use tor_lane::{Feeder, Taker};
use tor_sums::{Sums, UnitSums, put_in_order};

/// What the contents sum up to that were put, or why not all was read. Memory is asked for if all was read, and for
/// nothing else.
pub(crate) fn sums_of_fed<F: Drop>(
    alloc: Global,
    chunking: Chunking,
    fed: Fed<F>,
) -> Result<Result<Sums, F>, AllocError>
    requires cut { IsChunking chunking }
    requires fed { IsFedSome chunking fed }
    ensures summed { IfOk result (AnswersFed chunking fed) }
    ensures memory { IfErr result (λ _. IsOk fed.read) }
{
    let Fed {
        read,
        feeder,
        workers,
    } = fed;
    let lengths = match read {
        Ok(lengths) => lengths,
        Err(fault) => return Ok(Err(fault)),
    };
    let (takers, sums) = takers_and_sums(alloc, workers)?;
    let sums = sums_of_taken(alloc, chunking, lengths, feeder, takers, sums)?;
    Ok(Ok(sums))
}

/// What the contents that were put sum up to, from what was made of all that was taken.
fn sums_of_taken(
    alloc: Global,
    chunking: Chunking,
    lengths: Vec<u64>,
    feeder: Feeder,
    takers: Vec<Taker>,
    sums: Vec<UnitSums>,
) -> Result<Sums, AllocError>
    requires cut { IsChunking chunking }
    requires ended { IsEnded feeder }
    requires parted { AreParted chunking feeder takers.items sums.items }
    requires put { (contents : List (List ℕ)) × PutsContents chunking contents lengths.items (put_by feeder) }
    ensures { (contents : List (List ℕ)) → PutsContents chunking contents lengths.items (put_by feeder) →
        IfOk result (AreSumsOfContents chunking.kind chunking.tail chunking.piece_length contents) }
{
    feeder.settle(takers);
    let sums = put_in_order(sums, |one| one.unit);
    sums_of_chunks(alloc, chunking, lengths, &sums)
}
