//! Readers read one after the other, and cut into chunks for a lane.
ghost use Rattle.std.specs.Prelude.{◌≡◌, ◌+◌, ◌<◌, ◌≤◌, ◌++◌, ◌∷◌, [], ℕ, List, None, IfErr, IfOk, OnOk};
ghost use Rattle.std.specs.Prelude.{length, take, vec_len};
ghost use Rattle.std.specs.Io.KnownBytes.{Consumes, IsAtEnd};
ghost use Rattle.tor_lane.specs.Lane.{IsOpen, put_by};
ghost use Rattle.tor_merkle.specs.declared.TheConstants.{MAX_LENGTH};
ghost use Rattle.tor_plan.specs.PlanFacts.{IsPlanPieceLength};
ghost use Rattle.tor_source.specs.Filling.{EndsFill};
ghost use Rattle.tor_source.specs.Input.{ReadsSome, ReadsWhole};
ghost use Rattle.tor_streams.specs.steps.Cuts.{EndsReading, IsChunking, zeros_between};

use crate::chunking::Chunking;
use crate::filling::{Stop, fill_from, stop_after};
use crate::pairs::Pairs;
use crate::spares::Spares;
use std::alloc::{AllocError, Global};
use std::io::Read;
use std::mem;
use std::sync::Wait;
use tor_lane::{Chunk, Feeder};
use tor_source::{FillFault, zeros};
use tor_tree::Kind;
use tor_v1::padding_length;

/// Cuts what is read into chunks, and puts them into a lane. The last chunk of a content is held back until it is known
/// whether a later content has a byte, since padding goes between two of them, and after the last only as a tail.
#[derive(Drop)]
pub(crate) struct Cutter {
    pub(crate) pairs: Pairs,
    spares: Spares,
    // As long as a unit; its front waits to be cut.
    buffer: Vec<u8>,
    filled: usize,
    // The last chunk that was cut, and the zeros that follow it if another one comes.
    held: Option<Chunk>,
    zeros: u64,
    // The number of the next chunk.
    next: u64,
}

impl Cutter {
    ghost use Rattle.tor_streams.specs.steps.Cuts.{CutsMore, HasCut, HasPut, IsCutOff, IsReady, KeepsLane, PutsHeld};
    ghost use Rattle.tor_streams.specs.declared.chunking.Chunking.{Chunking};

    /// A cutter that puts into a lane, to which nothing was put yet.
    pub(crate) fn new(
        alloc: Global,
        feeder: Feeder,
        spares: Spares,
        chunking: Chunking,
    ) -> Result<Cutter, AllocError>
        requires cut { IsChunking chunking }
        requires open { IsOpen feeder × (put_by feeder ≡ []) }
        ensures ready { IfOk result (IsReady chunking []) }
        ensures feeder { IfOk result (λ cutter. cutter.pairs.feeder ≡ feeder) }
        ensures unit { IfOk result (λ cutter. cutter.pairs.unit_length ≡ chunking.size) }
    {
        let buffer = zeros(alloc, chunking.size as usize)?;
        let pairs = Pairs::new(feeder, buffer.len());
        Ok(Cutter {
            pairs,
            spares,
            buffer,
            filled: 0,
            held: None,
            zeros: 0,
            next: 0,
        })
    }

    /// Reads a reader to its end, of which no more than `limit` bytes may come, and answers how long its content is.
    pub(crate) fn read_whole<R: Read, T: Wait>(
        &mut self,
        rt: &T,
        alloc: Global,
        chunking: Chunking,
        limit: u64,
        reader: &mut R,
    ) -> Result<u64, Stop>
        requires cut { IsChunking chunking }
        requires small { limit ≤ MAX_LENGTH }
        requires ready { (contents : List (List ℕ)) × IsReady chunking contents self.old }
        ensures read { IfOk result (λ count. (content : List ℕ)
            × ReadsWhole (R.remaining reader.old) (R.remaining reader.new) content
            × (length content ≡ count) × (count ≤ limit)
            × ((contents : List (List ℕ)) → IsReady chunking contents self.old →
            IsReady chunking (contents ++ content ∷ []) self.new)) }
        ensures lane { KeepsLane self.old self.new }
        ensures stopped { IfErr result (λ stop.
            ReadsSome (R.remaining reader.old) (R.remaining reader.new) (EndsReading limit stop)) }
    {
        let mut count = 0;
        'chunks: loop {
            match self.fill(reader, limit - count) {
                Ok(came) => count += came as u64,
                Err(fault) => return Err(stop_after(count, fault)),
            }
            // It is at its end.
            if self.filled < self.buffer.len() {
                self.end_content(rt, alloc, chunking, count)?;
                return Ok(count);
            }
            self.cut(rt, alloc)?;
        }
    }

    // Reads until the buffer is full or the reader is at its end, and tells how many bytes came.
    fn fill<R: Read>(&mut self, reader: &mut R, room: u64) -> Result<usize, FillFault>
        requires { self.old.filled ≤ vec_len self.old.buffer }
        ensures pairs { self.new.pairs ≡ self.old.pairs }
        ensures kept { (self.new.held ≡ self.old.held) × (self.new.zeros ≡ self.old.zeros)
            × (self.new.next ≡ self.old.next) × (vec_len self.new.buffer ≡ vec_len self.old.buffer) }
        ensures came { IfOk result (λ count. (bytes : List ℕ)
            × Consumes (R.remaining reader.old) (R.remaining reader.new) bytes
            × (length bytes ≡ count) × (count ≤ room) × (self.new.filled ≡ self.old.filled + count)
            × (self.new.filled ≤ vec_len self.new.buffer)
            × (take self.new.filled self.new.buffer.items ≡ take self.old.filled self.old.buffer.items ++ bytes)) }
        ensures end { IfOk result (λ _. self.new.filled < vec_len self.new.buffer →
            IsAtEnd (R.remaining reader.new)) }
        ensures fault { IfErr result (λ fault.
            ReadsSome (R.remaining reader.old) (R.remaining reader.new) (EndsFill room fault)) }
    {
        match fill_from(self.filled, &mut self.buffer, reader, room) {
            Ok(count) => {
                self.filled += count;
                Ok(count)
            }
            Err(fault) => Err(fault),
        }
    }

    // Puts what was held before, and cuts what is in the buffer; so not both are held beside it, but for a short chunk.
    fn cut<T: Wait>(&mut self, rt: &T, alloc: Global) -> Result<(), AllocError>
        requires within { self.old.filled ≤ vec_len self.old.buffer }
        requires open { IsOpen self.old.pairs.feeder }
        ensures cut { OnOk result (CutsMore self.old self.new) }
        ensures lane { KeepsLane self.old self.new }
    {
        let unit = self.next;
        // There is no room for the sums of so many units.
        let Some(next) = unit.checked_add(1) else {
            return Err(AllocError);
        };
        self.put_held(rt, self.zeros);
        let bytes = self.take_waiting(rt, alloc)?;
        let zeros = 0;
        self.held = Some(Chunk { unit, bytes, zeros });
        self.zeros = 0;
        self.filled = 0;
        self.next = next;
        Ok(())
    }

    // What waits. A buffer that is full is handed over as it is, in exchange for another; for what is copied instead,
    // one that was given back is let go, so that no more is held. Both may wait for what workers have. What was held
    // before was put, so that they have all of it but for the short chunk in `pairs`, with which alone there is room
    // (`Pairs.room`).
    fn take_waiting<T: Wait>(&mut self, rt: &T, alloc: Global) -> Result<Vec<u8>, AllocError>
        requires within { self.old.filled ≤ vec_len self.old.buffer }
        ensures bytes { IfOk result (λ bytes. bytes.items ≡ take self.old.filled self.old.buffer.items) }
        ensures length { vec_len self.new.buffer ≡ vec_len self.old.buffer }
        ensures kept { (self.new.pairs ≡ self.old.pairs) × (self.new.held ≡ self.old.held)
            × (self.new.zeros ≡ self.old.zeros) × (self.new.next ≡ self.old.next) }
    {
        if self.filled < self.buffer.len() {
            self.spares.let_one_go(rt, self.filled);
            let (waiting, _) = self.buffer.as_slice().split_at(self.filled);
            return Vec::from_slice(alloc, waiting);
        }
        let other = self.spares.another(rt, alloc, self.buffer.len())?;
        Ok(mem::replace(&mut self.buffer, other))
    }

    // Puts what is held, with so many zeros after it.
    fn put_held<T: Wait>(&mut self, rt: &T, zeros: u64)
        requires { IsOpen self.old.pairs.feeder }
        ensures put { PutsHeld zeros self.old self.new }
        ensures lane { KeepsLane self.old self.new }
    {
        if let Some(mut chunk) = self.held.take() {
            chunk.zeros = zeros;
            self.pairs.put(rt, chunk);
        }
    }

    // Ends a content of so many bytes: if each is cut by itself, what waits of it is its last chunk.
    fn end_content<T: Wait>(
        &mut self,
        rt: &T,
        alloc: Global,
        chunking: Chunking,
        count: u64,
    ) -> Result<(), AllocError>
        requires cut { IsChunking chunking }
        requires small { count ≤ MAX_LENGTH }
        requires room { self.old.filled < vec_len self.old.buffer }
        requires open { IsOpen self.old.pairs.feeder }
        ensures ended { (contents : List (List ℕ)) (content : List ℕ) → HasCut chunking contents content self.old →
            length content ≡ count → OnOk result (IsReady chunking (contents ++ content ∷ []) self.new) }
        ensures lane { KeepsLane self.old self.new }
    {
        if !chunking.kind.has_v2() {
            return Ok(());
        }
        if count == 0 {
            return Ok(());
        }
        self.cut_rest(rt, alloc)?;
        self.zeros = zeros_between(chunking.kind, chunking.piece_length, count);
        Ok(())
    }

    // Cuts what waits, if anything does.
    fn cut_rest<T: Wait>(&mut self, rt: &T, alloc: Global) -> Result<(), AllocError>
        requires within { self.old.filled ≤ vec_len self.old.buffer }
        requires open { IsOpen self.old.pairs.feeder }
        ensures cut { (chunking : Chunking) (contents : List (List ℕ)) (current : List ℕ) → 0 < chunking.size →
            HasCut chunking contents current self.old → OnOk result (IsCutOff chunking contents current self.new) }
        ensures lane { KeepsLane self.old self.new }
    {
        if self.filled == 0 {
            return Ok(());
        }
        self.cut(rt, alloc)?;
        Ok(())
    }

    /// Puts what waits, what is held then, and what waits in `pairs`: no byte comes any more. With a tail the zeros
    /// that were to follow it do.
    pub(crate) fn put_rest<T: Wait>(
        &mut self,
        rt: &T,
        alloc: Global,
        chunking: Chunking,
    ) -> Result<(), AllocError>
        requires cut { IsChunking chunking }
        requires has { (contents : List (List ℕ)) × HasCut chunking contents [] self.old }
        ensures put { (contents : List (List ℕ)) → HasCut chunking contents [] self.old →
            OnOk result (HasPut chunking contents (put_by self.new.pairs.feeder)) }
        ensures lane { KeepsLane self.old self.new }
    {
        self.cut_rest(rt, alloc)?;
        let zeros = if chunking.tail { self.zeros } else { 0 };
        self.put_held(rt, zeros);
        self.pairs.flush(rt);
        Ok(())
    }
}

/// How many zeros follow a content of so many bytes, if some byte of a later one follows.
fn zeros_between(kind: Kind, piece_length: u64, count: u64) -> u64
    requires pieces { IsPlanPieceLength kind piece_length }
    requires small { count ≤ MAX_LENGTH }
    ensures { result ≡ zeros_between kind piece_length count }
{
    match kind {
        Kind::Hybrid => padding_length(count, piece_length),
        _ => 0,
    }
}
