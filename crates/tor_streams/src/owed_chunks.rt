//! Chunks of a worker to which the SHA-1s of their pieces are owed, until many can be hashed together.
ghost use Rattle.std.specs.Prelude.{◌≡◌, ◌++◌, ℕ, List, IfOk, OnOk, map};
ghost use Rattle.tor_lane.specs.declared.chunk.Chunk.{Chunk};
ghost use Rattle.tor_streams.specs.declared.chunking.Chunking.{Chunking};
ghost use Rattle.tor_streams.specs.steps.Cuts.{IsChunking, facts_of, facts_of_chunk};
ghost use Rattle.tor_streams.specs.steps.OwedChunks.{AreOwed, IsOwed, Owes, owed_to_chunk, paid_chunk, sums_in};

use crate::chunk_sums::{owe_chunk, sum_chunk, waits};
use crate::chunking::Chunking;
use std::alloc::{AllocError, Global};
use tor_lane::Chunk;
use tor_sums::{Owed, OwingPieces, UnitSums, pay};

/// What a chunk sums up to.
#[derive(Drop)]
pub(crate) enum ChunkSums {
    /// It has the SHA-1s of its pieces.
    Whole(UnitSums),
    /// It has room for them. They are owed to it, or were.
    Owed(UnitSums),
}

impl ChunkSums {
    /// What one more chunk sums up to; its pieces wait if that is of use.
    pub(crate) fn of(
        alloc: Global,
        chunking: Chunking,
        chunk: &Chunk,
        owing: &mut Option<OwingPieces>,
    ) -> Result<ChunkSums, AllocError>
        requires { IsChunking chunking }
        ensures { (owed : List ℕ) → Owes chunking.piece_length owed owing.old → IfOk result (λ one. (own : List ℕ)
            × IsOwed chunking chunk.now one own × Owes chunking.piece_length (owed ++ own) owing.new) }
    {
        if !waits(chunking, chunk) {
            let sums = sum_chunk(alloc, chunking, chunk)?;
            return Ok(ChunkSums::Whole(sums));
        }
        let mut pieces = begun(alloc, chunking, owing.take())?;
        let sums = owe_chunk(alloc, chunking, chunk, &mut pieces)?;
        *owing = Some(pieces);
        Ok(ChunkSums::Owed(sums))
    }

    // The sums alone.
    fn sums(self) -> UnitSums
        ensures { result ≡ sums_in self }
    {
        match self {
            ChunkSums::Whole(sums) => sums,
            ChunkSums::Owed(sums) => sums,
        }
    }
}

impl Owed for ChunkSums {
    ghost owed = { owed_to_chunk };

    ghost paid = { paid_chunk };

    fn take_own<'a>(&mut self, sums: &'a [u8]) -> &'a [u8] {
        match self {
            ChunkSums::Whole(_) => sums,
            ChunkSums::Owed(one) => one.take_own(sums),
        }
    }
}

// What owes the pieces of chunks: a worker begins with the first that waits.
fn begun(
    alloc: Global,
    chunking: Chunking,
    owing: Option<OwingPieces>,
) -> Result<OwingPieces, AllocError>
    requires { IsChunking chunking }
    ensures { (owed : List ℕ) → Owes chunking.piece_length owed owing →
        IfOk result (λ pieces. Owes chunking.piece_length owed (Some pieces)) }
{
    match owing {
        Some(pieces) => Ok(pieces),
        None => OwingPieces::new(alloc, chunking.piece_length),
    }
}

/// Gives each chunk of a worker the SHA-1s that are owed to it, and puts what they sum up to behind those before.
pub(crate) fn settle_chunks(
    alloc: Global,
    sums: Vec<ChunkSums>,
    owing: Option<OwingPieces>,
    all: &mut Vec<UnitSums>,
) -> Result<(), AllocError>
    requires { (chunking : Chunking) × (chunks : List Chunk) × AreOwed chunking chunks sums.items owing }
    ensures { (chunking : Chunking) (chunks : List Chunk) → AreOwed chunking chunks sums.items owing →
        OnOk result (map facts_of all.new.items
        ≡ map facts_of all.old.items ++ map (facts_of_chunk chunking) chunks) }
{
    let sums = paid_chunks(alloc, sums, owing);
    push_sums(sums, all)?;
    Ok(())
}

// Gives each chunk what is owed to it. It takes no memory.
fn paid_chunks(alloc: Global, sums: Vec<ChunkSums>, owing: Option<OwingPieces>) -> Vec<ChunkSums>
    requires { (chunking : Chunking) × (chunks : List Chunk) × AreOwed chunking chunks sums.items owing }
    ensures { (chunking : Chunking) (chunks : List Chunk) → AreOwed chunking chunks sums.items owing →
        map (λ one. facts_of (sums_in one)) result.items ≡ map (facts_of_chunk chunking) chunks }
{
    let mut sums = sums;
    let owed = all_owed(alloc, owing);
    pay(sums.as_mut_slice(), &owed);
    sums
}

// Hashes what waits, and gives all that is owed.
fn all_owed(alloc: Global, owing: Option<OwingPieces>) -> Vec<u8>
    requires { (piece_length : ℕ) × (owed : List ℕ) × Owes piece_length owed owing }
    ensures { (piece_length : ℕ) (owed : List ℕ) → Owes piece_length owed owing → result.items ≡ owed }
{
    match owing {
        Some(pieces) => pieces.finish(alloc),
        None => Vec::new(alloc),
    }
}

// Puts sums behind those before.
fn push_sums(sums: Vec<ChunkSums>, all: &mut Vec<UnitSums>) -> Result<(), AllocError>
    ensures { OnOk result (all.new.items ≡ all.old.items ++ map sums_in sums.items) }
{
    'sums: for one in sums {
        all.push(one.sums())?;
    }
    Ok(())
}
