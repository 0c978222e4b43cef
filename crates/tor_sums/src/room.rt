//! The bytes that a worker has read and not hashed yet, and room for more behind them.
ghost use Rattle.std.specs.Prelude.{◌≡◌, ◌⊎◌, ◌+◌, ◌*◌, ◌-◌, ◌%◌, ◌<◌, ◌≤◌, [], Some, false, true};
ghost use Rattle.std.specs.Prelude.{◌++◌, IfErr, IfOk, List, MatchResult, drop, length, slice_index_or, take, vec_len};
ghost use Rattle.std.specs.Prelude.{ℕ};
ghost use Rattle.tor_plan.specs.PlanFacts.{IsPlanPieceLength};
ghost use Rattle.tor_source.specs.Source.{SourceFacts, bytes_from};
ghost use Rattle.tor_sums.specs.Fault.{byte_fault};
ghost use Rattle.tor_sums.specs.declared.room.TheConstants.{BATCH, LEAST_ASKED, MOST_HELD};
ghost use Rattle.tor_sums.specs.steps.Given.{IsGivenRead};
ghost use Rattle.tor_sums.specs.steps.ReadBytes.{AreBytesAt, EndsThere, IsFaultFree};
ghost use Rattle.tor_tree.specs.Kinds.{has_v1};
ghost use Rattle.tor_v1.specs.Piece.{zeros};
ghost use Rattle.tor_v1.specs.declared.runs.TheConstants.{MAX_PIECE_IN_RUN};

use crate::errors::EngineError;
use crate::file_bytes::FileBytes;
use std::alloc::{AllocError, Global};
use tor_source::zeros;
use tor_tree::Kind;
use tor_v1::MAX_PIECE_IN_RUN;

/// If so many bytes are left, at least so many are asked for at a time.
const LEAST_ASKED: usize = 1 << 16;

/// About so many bytes are hashed at a time, if eight pieces of version 1 are not more.
const BATCH: u64 = 1 << 20;

/// A worker has room for at most so many bytes.
const MOST_HELD: usize = (1 << 27) + LEAST_ASKED;

/// Bytes that were read one after the other, and room for more behind them. Clauses speak of those that are held as
/// `held_in`.
#[derive(Drop)]
pub(crate) struct Room {
    bytes: Vec<u8>,
    // The first so many bytes are held.
    held: usize,
    // So many are hashed together, if as many are held.
    batch: usize,
    ghost within: { held ≤ vec_len bytes },
    ghost many: { LEAST_ASKED ≤ batch },
    ghost whole: { batch ≤ vec_len bytes },
    ghost short: { vec_len bytes ≤ batch + LEAST_ASKED },
    ghost bounded: { vec_len bytes ≤ MOST_HELD },
}

impl Room {
    ghost use Rattle.tor_sums.specs.steps.Room.{HasRoom, IsFull, ReadsMore, batch_of, count_in, held_in, length_of};

    /// Room for pieces of so many bytes, of contents of at least so many. No byte is held.
    pub(crate) fn new(
        alloc: Global,
        kind: Kind,
        piece_length: u64,
        least: u64,
    ) -> Result<Room, AllocError>
        requires { IsPlanPieceLength kind piece_length }
        ensures held { IfOk result (λ room. held_in room ≡ []) }
        ensures none { IfOk result (λ room. count_in room ≡ 0) }
        ensures eight { has_v1 kind ≡ true → piece_length ≤ MAX_PIECE_IN_RUN → 8 * piece_length ≤ least →
            IfOk result (λ room. batch_of room % (8 * piece_length) ≡ 0) }
    {
        let batch = batch_length(kind, piece_length, least);
        let bytes = zeros(alloc, batch + LEAST_ASKED)?;
        Ok(Room {
            bytes,
            held: 0,
            batch,
        })
    }

    /// How many bytes are held.
    pub(crate) fn count_held(&self) -> usize
        ensures { result ≡ count_in self.now }
    {
        self.held
    }

    /// Whether a batch is held, or there is little room for the bytes of the present part, of which so many are left.
    pub(crate) fn is_full(&self, left: u64) -> bool
        ensures room { result ≡ false → HasRoom left self.now }
        ensures full { result ≡ true → IsFull left self.now }
    {
        let room = self.bytes.len() - self.held;
        self.held >= self.batch || (left >= LEAST_ASKED as u64 && room < LEAST_ASKED)
    }

    /// How many of the bytes that are held are hashed next: a batch, or all, at least half of them.
    pub(crate) fn batch(&self) -> usize
        ensures batch { batch_of self.now ≤ count_in self.now → result ≡ batch_of self.now }
        ensures within { result ≤ count_in self.now }
        ensures half { count_in self.now ≤ 2 * result }
        ensures room { count_in self.now - result + LEAST_ASKED ≤ length_of self.now }
    {
        self.held.min(self.batch)
    }

    /// The first so many bytes that are held.
    pub(crate) fn front(&self, count: usize) -> &[u8]
        requires { count ≤ count_in self.now }
        ensures value { result.now ≡ take count (held_in self.now) }
        ensures len { length result.now ≡ count }
    {
        let (front, _) = self.bytes.split_at(count);
        front
    }

    /// Lets go of the first so many bytes that are held, at least half of them.
    pub(crate) fn let_go(&mut self, count: usize)
        requires within { count ≤ count_in self.old }
        requires half { count_in self.old ≤ 2 * count }
        ensures held { held_in self.new ≡ drop count (held_in self.old) }
        ensures count { count_in self.new ≡ count_in self.old - count }
        ensures same { length_of self.new ≡ length_of self.old }
    {
        let left = self.held - count;
        move_to_front(&mut self.bytes, count, left);
        self.held = left;
    }

    /// Reads once from a byte of a file on, behind the bytes that are held: at most `left` bytes. A file that ends
    /// there is not as long as was told.
    pub(crate) fn read<S: FileBytes>(
        &mut self,
        source: &S,
        file: u64,
        start: u64,
        left: u64,
    ) -> Result<usize, EngineError<S::Fault>>
        requires left { 0 < left }
        requires room { HasRoom left self.old }
        ensures some { IfOk result (λ count. (0 < count) × (count ≤ left)) }
        ensures count { IfOk result (λ count. count_in self.new ≡ count_in self.old + count) }
        ensures read { IfOk result (λ count. ReadsMore (S.is_steady source.now) file start count self.old self.new) }
        ensures fault { (facts : SourceFacts S.Fault) → S.is_steady source.now facts →
            0 < length (bytes_from facts file start) →
            MatchResult result (IsFaultFree facts file start) (λ error. byte_fault facts file start ≡ Some error) }
        ensures ends { (facts : SourceFacts S.Fault) → S.is_steady source.now facts →
            length (bytes_from facts file start) ≡ 0 → EndsThere facts file start result }
        ensures err { IfErr result (λ _. count_in self.new ≡ count_in self.old) }
        ensures gave { (lengths : List ℕ) → file < length lengths → start < slice_index_or lengths file 0 →
            IfErr result (IsGivenRead (S.answers source.now) lengths) }
    {
        let most = self.asked(left);
        match read_behind(source, file, start, self.held, most, &mut self.bytes) {
            Ok(count) => {
                self.held += count;
                Ok(count)
            }
            Err(error) => Err(error),
        }
    }

    /// Puts zeros behind the bytes that are held, at most `left`, and answers how many.
    pub(crate) fn put_zeros(&mut self, left: u64) -> usize
        requires left { 0 < left }
        requires room { HasRoom left self.old }
        ensures some { (0 < result) × (result ≤ left) }
        ensures count { count_in self.new ≡ count_in self.old + result }
        ensures held { held_in self.new ≡ held_in self.old ++ zeros result }
    {
        let count = self.asked(left);
        zeros_behind(self.held, count, &mut self.bytes);
        self.held += count;
        count
    }

    /// Puts the first of these bytes behind those that are held, and answers how many.
    pub(crate) fn put(&mut self, bytes: &[u8]) -> usize
        requires some { 0 < length bytes.now }
        requires room { HasRoom (length bytes.now) self.old }
        ensures some { (0 < result) × (result ≤ length bytes.now) }
        ensures count { count_in self.new ≡ count_in self.old + result }
        ensures held { held_in self.new ≡ held_in self.old ++ take result bytes.now }
    {
        let count = self.asked(bytes.len() as u64);
        let (first, _) = bytes.split_at(count);
        copy_behind(self.held, first, &mut self.bytes);
        self.held += count;
        count
    }

    // How many bytes are asked for if so many are left: up to a whole batch, and few only if few are left.
    fn asked(&self, left: u64) -> usize
        requires left { 0 < left }
        requires room { HasRoom left self.now }
        ensures some { 0 < result }
        ensures left { result ≤ left }
        ensures least { LEAST_ASKED ≤ left → LEAST_ASKED ≤ result }
        ensures all { result < LEAST_ASKED → (result ≡ left) ⊎ (count_in self.now + result ≡ length_of self.now) }
        ensures room { count_in self.now + result ≤ length_of self.now }
    {
        let room = self.bytes.len() - self.held;
        let most = self
            .batch
            .saturating_sub(self.held)
            .max(LEAST_ASKED)
            .min(room);
        left.min(most as u64) as usize
    }
}

/// How many bytes are hashed together: about 1 MiB, and a multiple of eight pieces if version 1 has pieces that are
/// hashed by eight, and so many.
fn batch_length(kind: Kind, piece_length: u64, least: u64) -> usize
    requires { IsPlanPieceLength kind piece_length }
    ensures least { BATCH ≤ result }
    ensures most { result + LEAST_ASKED ≤ MOST_HELD }
    ensures eight { has_v1 kind ≡ true → piece_length ≤ MAX_PIECE_IN_RUN → 8 * piece_length ≤ least →
        result % (8 * piece_length) ≡ 0 }
{
    let eight = 8 * piece_length;
    if !kind.has_v1() || piece_length > MAX_PIECE_IN_RUN || eight > least {
        BATCH as usize
    } else if eight < BATCH {
        BATCH.next_multiple_of(eight) as usize
    } else {
        eight as usize
    }
}

/// Copies `left` bytes behind the first `count` to the front.
fn move_to_front(bytes: &mut [u8], count: usize, left: usize)
    requires half { left ≤ count }
    requires within { count + left ≤ length bytes.old }
    ensures moved { take left bytes.new ≡ take left (drop count bytes.old) }
    ensures len { length bytes.new ≡ length bytes.old }
{
    let (front, rest) = bytes.split_at_mut(count);
    let (buffer, _) = front.split_at_mut(left);
    let (moved, _) = rest.split_at(left);
    buffer.copy_from_slice(moved);
}

/// Puts so many zeros behind the first `held`.
fn zeros_behind(held: usize, count: usize, bytes: &mut [u8])
    requires { held + count ≤ length bytes.old }
    ensures len { length bytes.new ≡ length bytes.old }
    ensures front { take held bytes.new ≡ take held bytes.old }
    ensures zeros { take count (drop held bytes.new) ≡ zeros count }
{
    let (_, spare) = bytes.split_at_mut(held);
    let (buffer, _) = spare.split_at_mut(count);
    buffer.fill(0);
}

/// Copies bytes behind the first `held`.
fn copy_behind(held: usize, first: &[u8], bytes: &mut [u8])
    requires { held + length first.now ≤ length bytes.old }
    ensures len { length bytes.new ≡ length bytes.old }
    ensures front { take held bytes.new ≡ take held bytes.old }
    ensures copied { take (length first.now) (drop held bytes.new) ≡ first.now }
{
    let (_, room) = bytes.split_at_mut(held);
    let (buffer, _) = room.split_at_mut(first.len());
    buffer.copy_from_slice(first);
}

/// Reads once, at most so many bytes, behind the first `held`.
fn read_behind<S: FileBytes>(
    source: &S,
    file: u64,
    start: u64,
    held: usize,
    most: usize,
    bytes: &mut [u8],
) -> Result<usize, EngineError<S::Fault>>
    requires some { 0 < most }
    requires room { held + most ≤ length bytes.old }
    ensures len { length bytes.new ≡ length bytes.old }
    ensures front { take held bytes.new ≡ take held bytes.old }
    ensures some { IfOk result (λ count. (0 < count) × (count ≤ most)) }
    ensures read { (facts : SourceFacts S.Fault) → S.is_steady source.now facts →
        0 < length (bytes_from facts file start) →
        MatchResult result (AreBytesAt facts file start held bytes.new)
        (λ error. byte_fault facts file start ≡ Some error) }
    ensures ends { (facts : SourceFacts S.Fault) → S.is_steady source.now facts →
        length (bytes_from facts file start) ≡ 0 → EndsThere facts file start result }
    ensures there { IfOk result (λ count. (facts : SourceFacts S.Fault) → S.is_steady source.now facts →
        count ≤ length (bytes_from facts file start)) }
    ensures gave { (lengths : List ℕ) → file < length lengths → start < slice_index_or lengths file 0 →
        IfErr result (IsGivenRead (S.answers source.now) lengths) }
{
    let (_, behind) = bytes.split_at_mut(held);
    let (buffer, _) = behind.split_at_mut(most);
    match source.bytes_at(file, start, buffer) {
        Ok(0) => Err(EngineError::Changed { file }),
        Ok(count) => Ok(count),
        Err(fault) => Err(EngineError::Read {
            file,
            start: Some(start),
            fault,
        }),
    }
}
