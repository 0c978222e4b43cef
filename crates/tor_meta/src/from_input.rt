//! From a reader to the torrent of what it has, as bytes or in a writer.
ghost use Rattle.std.specs.Prelude.{◌≡◌, ◌⊎◌, ◌∷◌, [], List, ℕ, Option, None, Some, IfErr, IfOk, OnOk};
ghost use Rattle.std.specs.declared.io.Error.{Error};
ghost use Rattle.tor_meta.specs.FromInput.{MakesOf, MakesPart, MakesWhole, StopsReading, refusal_of};
ghost use Rattle.tor_meta.specs.FromInput.{stream_refusal_of};
ghost use Rattle.tor_meta.specs.Head.{settings_of};
ghost use Rattle.tor_meta.specs.Order.{settings_of_order};
ghost use Rattle.tor_meta.specs.Refusal.{paths_refusal};
ghost use Rattle.tor_meta.specs.steps.Sums.{AreSumsOfSettings};
ghost use Rattle.tor_meta.specs.declared.make_error.MakeError.{MakeError};
ghost use Rattle.tor_meta.specs.MakeError.{out_of_resources};
ghost use Rattle.tor_meta.specs.declared.from_input.FromFault.TheVariants.{Input, Make, Write};
ghost use Rattle.tor_source.specs.Input.{EndsInput, ReadsAll, ReadsSome};
ghost use Rattle.tor_source.specs.declared.input.TheConstants.{MAX_INPUT_LENGTH};

use crate::fed::FedSums;
use crate::fed::making::{make_fed, make_summed};
use crate::from_streams::refusal_of_stream_numbers;
use crate::head::Head;
use crate::make_error::MakeError;
use crate::order::Order;
use std::alloc::{AllocError, Global};
use std::io;
use std::sync::Wait;
use std::thread::Threads;
use tor_engine::{EngineError, Sums, hash_input};
use tor_merkle::laws::piece_length_bounds;
use tor_source::{InputFault, MAX_INPUT_LENGTH, drop_input, read_parts};
use tor_spec::{WriteFault, write_out};
use tor_tree::Attr;

/// Why no whole torrent was written.
#[derive(Debug, Drop)]
pub enum FromFault {
    Input(InputFault),
    /// A refusal, or want of memory; no file is read.
    Make(MakeError<io::Error>),
    Write(WriteFault),
}

/// Reads all of a content, at most `MAX_INPUT_LENGTH` bytes, and writes the torrent of it under the order's name,
/// without letters. Nothing of the content is kept.
pub fn make_from<R: io::Read, W: io::Write>(
    alloc: Global,
    reader: &mut R,
    writer: &mut W,
    order: &Order,
) -> Result<(), FromFault>
    ensures made { OnOk result ((content : List ℕ) × MakesWhole order.now
        (R.remaining reader.old) (R.remaining reader.new) (W.contents writer.old) (W.contents writer.new) content) }
    ensures part { IfErr result (MakesPart order.now
        (R.remaining reader.old) (R.remaining reader.new) (W.contents writer.old) (W.contents writer.new)) }
{
    let torrent = torrent_from(alloc, reader, order, Attr::NONE)?;
    write_out(writer, &torrent)?;
    Ok(())
}

/// Reads all of a content, at most `MAX_INPUT_LENGTH` bytes, and gives the torrent of it under the order's name, with
/// these letters. The caller's thread reads and hashes, whoever is to hash files.
pub fn torrent_from<R: io::Read>(
    alloc: Global,
    reader: &mut R,
    order: &Order,
    attr: Attr,
) -> Result<Vec<u8>, FromFault>
    ensures made { IfOk result (λ torrent. (content : List ℕ) × MakesOf (refusal_of order.now) order.now attr
        (R.remaining reader.old) (R.remaining reader.new) (λ bytes. torrent.items ≡ bytes) content) }
    ensures stopped { IfErr result
        (StopsReading (refusal_of order.now) (R.remaining reader.old) (R.remaining reader.new)) }
{
    let head = head_for(alloc, reader, order)?;
    let mut fed = FedSums::new(alloc, &head);
    read_parts(alloc, reader, MAX_INPUT_LENGTH, &mut fed)?;
    Ok(make_fed(alloc, &head, fed, attr)?)
}

/// Reads all of a content, and gives the torrent that [`torrent_from`] gives, while as many workers as the order's
/// `how` says hash what the caller's thread reads. A unit of more than 2^30 bytes is refused too, as `Span`.
pub fn torrent_by_streams<R: io::Read, T: Threads + Wait + Sync + Send + Clone + Drop + 'static>(
    rt: &T,
    alloc: Global,
    reader: &mut R,
    order: &Order,
    attr: Attr,
) -> Result<Vec<u8>, FromFault>
    ensures made { IfOk result (λ torrent. (content : List ℕ) × MakesOf (stream_refusal_of order.now) order.now attr
        (R.remaining reader.old) (R.remaining reader.new) (λ bytes. torrent.items ≡ bytes) content) }
    ensures stopped { IfErr result
        (StopsReading (stream_refusal_of order.now) (R.remaining reader.old) (R.remaining reader.new)) }
{
    let head = match head_of_stream(alloc, reader, order) {
        Ok(head) => head,
        Err(fault) => return Err(fault),
    };
    made_by_streams(rt, alloc, reader, order, &head, attr)
}

/// Reads all of a content, and gives the torrent of it by workers, for an order that is not refused.
fn made_by_streams<R: io::Read, T: Threads + Wait + Sync + Send + Clone + Drop + 'static>(
    rt: &T,
    alloc: Global,
    reader: &mut R,
    order: &Order,
    head: &Head,
    attr: Attr,
) -> Result<Vec<u8>, FromFault>
    requires settings { settings_of head.now ≡ settings_of_order order.now }
    requires lawful { paths_refusal (settings_of head.now) ((head.now.name ∷ []) ∷ []) ≡ None }
    requires accepted { stream_refusal_of order.now ≡ None }
    ensures made { IfOk result (λ torrent. (content : List ℕ) × MakesOf (stream_refusal_of order.now) order.now attr
        (R.remaining reader.old) (R.remaining reader.new) (λ bytes. torrent.items ≡ bytes) content) }
    ensures stopped { IfErr result
        (StopsReading (stream_refusal_of order.now) (R.remaining reader.old) (R.remaining reader.new)) }
{
    let sums = sums_by_streams(rt, alloc, reader, order)?;
    let count = sums.lengths[0];
    Ok(make_summed(alloc, head, count, &sums, attr)?)
}

/// What the content sums up to.
fn sums_by_streams<R: io::Read, T: Threads + Wait + Sync + Send + Clone + Drop + 'static>(
    rt: &T,
    alloc: Global,
    reader: &mut R,
    order: &Order,
) -> Result<Sums, InputFault>
    requires accepted { stream_refusal_of order.now ≡ None }
    ensures summed { IfOk result (λ sums. (content : List ℕ)
        × ReadsAll (R.remaining reader.old) (R.remaining reader.new) content
        × AreSumsOfSettings (settings_of_order order.now) (content ∷ []) sums) }
    ensures stopped { IfErr result (λ fault.
        ReadsSome (R.remaining reader.old) (R.remaining reader.new) (EndsInput MAX_INPUT_LENGTH fault)) }
{
    piece_length_bounds();
    let workers = order.how.workers();
    hash_input(
        rt,
        alloc,
        reader,
        order.kind,
        order.piece_length,
        order.span,
        workers,
        order.has_tail(),
    )
}

/// The head of the torrent of one content.
fn head_for<R: io::Read>(alloc: Global, reader: &mut R, order: &Order) -> Result<Head, FromFault>
    ensures settings { IfOk result (λ head. settings_of head ≡ settings_of_order order.now) }
    ensures lawful { IfOk result (λ head. paths_refusal (settings_of head) ((head.name ∷ []) ∷ []) ≡ None) }
    ensures accepted { OnOk result ((refusal_of order.now ≡ None) × (reader.new ≡ reader.old)) }
    ensures stopped { IfErr result
        (StopsReading (refusal_of order.now) (R.remaining reader.old) (R.remaining reader.new)) }
{
    match order.head_of_one(alloc) {
        Ok(head) => Ok(head),
        Err(refusal) => Err(refusal_after_reading(alloc, reader, refusal)),
    }
}

/// The head of the torrent of one content that is read as a stream.
fn head_of_stream<R: io::Read>(
    alloc: Global,
    reader: &mut R,
    order: &Order,
) -> Result<Head, FromFault>
    ensures settings { IfOk result (λ head. settings_of head ≡ settings_of_order order.now) }
    ensures lawful { IfOk result (λ head. paths_refusal (settings_of head) ((head.name ∷ []) ∷ []) ≡ None) }
    ensures accepted { OnOk result ((stream_refusal_of order.now ≡ None) × (reader.new ≡ reader.old)) }
    ensures stopped { IfErr result
        (StopsReading (stream_refusal_of order.now) (R.remaining reader.old) (R.remaining reader.new)) }
{
    if let Some(refusal) = refusal_of_stream_numbers(order) {
        return Err(refusal_after_reading(alloc, reader, refusal));
    }
    match order.head_of_one(alloc) {
        Ok(head) => Ok(head),
        Err(refusal) => Err(refusal_after_reading(alloc, reader, refusal)),
    }
}

/// A refusal, told once all of the content was read, so that a fault of the reader comes first.
fn refusal_after_reading<R: io::Read>(
    alloc: Global,
    reader: &mut R,
    refusal: MakeError<io::Error>,
) -> FromFault
    ensures { (first : Option (MakeError Error)) → (first ≡ Some refusal) ⊎ (refusal ≡ out_of_resources) →
        StopsReading first (R.remaining reader.old) (R.remaining reader.new) result }
{
    match drop_input(alloc, reader) {
        Ok(()) => FromFault::Make(refusal),
        Err(fault) => FromFault::Input(fault),
    }
}

impl From<AllocError> for FromFault {
    ghost from_gives = { λ _ e. e ≡ Make out_of_resources };

    fn from(_error: AllocError) -> FromFault {
        FromFault::Make(MakeError::Hashing(EngineError::Resources))
    }
}

impl From<InputFault> for FromFault {
    ghost from_gives = { λ fault e. e ≡ Input fault };

    fn from(fault: InputFault) -> FromFault {
        FromFault::Input(fault)
    }
}

impl From<WriteFault> for FromFault {
    ghost from_gives = { λ fault e. e ≡ Write fault };

    fn from(fault: WriteFault) -> FromFault {
        FromFault::Write(fault)
    }
}
