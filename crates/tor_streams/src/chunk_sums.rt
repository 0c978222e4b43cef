//! What one chunk of a lane sums up to.
ghost use Rattle.std.specs.Prelude.{◌≡◌, ◌++◌, ℕ, List, IfOk, true};
ghost use Rattle.tor_sums.specs.steps.OwingPieces.{OwesPieces};
ghost use Rattle.tor_streams.specs.steps.Cuts.{IsChunking, cut_of, facts_of, facts_of_chunk, pieces_of_cut};
ghost use Rattle.tor_streams.specs.steps.OwedChunks.{IsToGet, MayWait};

use crate::chunking::Chunking;
use std::alloc::{AllocError, Global};
use tor_lane::Chunk;
use tor_merkle::MAX_LENGTH;
use tor_sums::{ContentHasher, Hashed, OwingPieces, UnitSums};

// So many pieces are hashed side by side.
const PIECES_AT_ONCE: u64 = 8;

// Longer pieces do not wait: at the end one thread hashes what waits of all workers.
const MAX_PIECE_THAT_WAITS: u64 = 1 << 20;

/// What a chunk sums up to, as it does if it is alone in its file: a chunk does not tell.
pub(crate) fn sum_chunk(
    alloc: Global,
    chunking: Chunking,
    chunk: &Chunk,
) -> Result<UnitSums, AllocError>
    requires { IsChunking chunking }
    ensures { IfOk result (λ sums. facts_of sums ≡ facts_of_chunk chunking chunk.now) }
{
    let bytes = chunk.bytes.as_slice();
    let length = bytes.len() as u64;
    // No unit is empty, or so long.
    if length == 0 {
        return Err(AllocError);
    }
    if length > MAX_LENGTH {
        return Err(AllocError);
    }
    let mut hasher = ContentHasher::new(alloc, chunking.kind, chunking.piece_length);
    hasher.feed_pieces(bytes)?;
    hasher.feed_zeros(chunk.zeros)?;
    // The tree gets all bytes here, so that its last blocks are hashed side by side too.
    let hashed = hasher.finish_tree(alloc, bytes)?;
    Ok(UnitSums::new(alloc, chunk.unit, hashed, None))
}

/// The same once it has the SHA-1s of its pieces, which are owed to it.
pub(crate) fn owe_chunk(
    alloc: Global,
    chunking: Chunking,
    chunk: &Chunk,
    owing: &mut OwingPieces,
) -> Result<UnitSums, AllocError>
    requires cut { IsChunking chunking }
    requires waits { MayWait chunking chunk.now }
    ensures get { IfOk result (λ sums. IsToGet chunking chunk.now sums (pieces_of_cut chunking (cut_of chunk.now))) }
    ensures owes { (owed : List ℕ) → OwesPieces chunking.piece_length owed owing.old → IfOk result (λ _.
        OwesPieces chunking.piece_length (owed ++ pieces_of_cut chunking (cut_of chunk.now)) owing.new) }
{
    let bytes = chunk.bytes.as_slice();
    // No unit is empty.
    if bytes.is_empty() {
        return Err(AllocError);
    }
    let pieces = owing.add_unit(alloc, chunking.piece_length, bytes, chunk.zeros)?;
    let hasher = ContentHasher::new(alloc, chunking.kind, chunking.piece_length);
    let Hashed { tree, .. } = hasher.finish_tree(alloc, bytes)?;
    Ok(UnitSums::new(alloc, chunk.unit, Hashed { tree, pieces }, None))
}

/// Whether the pieces of a chunk wait for those of others, until eight are there: all are whole, and not of eights
/// alone, which are hashed where they lie.
pub(crate) fn waits(chunking: Chunking, chunk: &Chunk) -> bool
    requires { IsChunking chunking }
    ensures { result ≡ true → MayWait chunking chunk.now }
{
    let piece_length = chunking.piece_length;
    let length = chunk.bytes.len() as u64;
    if !chunking.kind.has_v1() || piece_length > MAX_PIECE_THAT_WAITS {
        return false;
    }
    if length > MAX_LENGTH || chunk.zeros > piece_length {
        return false;
    }
    let count = length + chunk.zeros;
    count % piece_length == 0 && count / piece_length % PIECES_AT_ONCE != 0
}
