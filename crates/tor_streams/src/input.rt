//! An input that is read once, hashed by several workers.
ghost use Rattle.std.specs.Prelude.{◌≤◌, ◌∷◌, [], ℕ, List, IfErr, IfOk};
ghost use Rattle.tor_source.specs.Input.{EndsInput, ReadsAll, ReadsSome};
ghost use Rattle.tor_source.specs.declared.input.TheConstants.{MAX_INPUT_LENGTH};
ghost use Rattle.tor_streams.specs.Streams.{AreSumsOfContents, IsStreamCut};
ghost use Rattle.tor_sums.specs.declared.how.TheConstants.{MAX_WORKERS};

use crate::chunking::Chunking;
use crate::fed_sums::sums_of_fed;
use crate::feeding::feed_input;
use std::alloc::Global;
use std::io::Read;
use std::sync::Wait;
use std::thread::Threads;
use tor_source::InputFault;
use tor_sums::Sums;
use tor_tree::Kind;

/// What the content of a reader sums up to, which is read once, to its end, and has at most `MAX_INPUT_LENGTH` bytes.
/// The calling thread reads, as in [`hash_streams`](crate::hash_streams), and so many workers hash; nothing of the
/// content is kept.
///
/// # Errors
///
/// `Read` and `TooLong` of the reader come before `Memory`, which is also told if the thread of the workers was
/// refused, and nothing read.
pub fn hash_input<R: Read, T: Threads + Wait + Sync + Send + Clone + Drop + 'static>(
    rt: &T,
    alloc: Global,
    reader: &mut R,
    kind: Kind,
    piece_length: u64,
    span: u32,
    workers: u32,
    tail: bool,
) -> Result<Sums, InputFault>
    requires cut { IsStreamCut kind piece_length span }
    requires workers { (1 ≤ workers) × (workers ≤ MAX_WORKERS) }
    ensures summed { IfOk result (λ sums. (content : List ℕ)
        × ReadsAll (R.remaining reader.old) (R.remaining reader.new) content
        × AreSumsOfContents kind tail piece_length (content ∷ []) sums) }
    ensures stopped { IfErr result (λ fault.
        ReadsSome (R.remaining reader.old) (R.remaining reader.new) (EndsInput MAX_INPUT_LENGTH fault)) }
{
    let chunking = Chunking::of(kind, piece_length, span, tail);
    let fed = feed_input(rt, alloc, chunking, workers, reader)?;
    let summed = sums_of_fed(alloc, chunking, fed)?;
    summed
}
