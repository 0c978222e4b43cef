//! What the units of a worker hash to, while their bytes are read or handed over.
ghost use Rattle.std.specs.Prelude.{◌≡◌, ◌+◌, ◌*◌, ◌-◌, ◌<◌, ◌≤◌, ◌++◌, [], ℕ, List, IfErr, IfOk, MatchResult, None, OnOk};
ghost use Rattle.std.specs.Prelude.{length, max, slice_index_or, take, if◌then◌else◌};
ghost use Rattle.std.specs.Option.{ForSome};
ghost use Rattle.tor_merkle.specs.declared.TheConstants.{MAX_LENGTH};
ghost use Rattle.tor_plan.specs.PlanFacts.{IsPlan, IsPlanPieceLength, PlanFacts};
ghost use Rattle.tor_source.specs.Source.{SourceFacts, bytes_from};
ghost use Rattle.tor_tree.specs.Kinds.{has_v1};
ghost use Rattle.tor_v1.specs.Piece.{piece_sums, zeros};
ghost use Rattle.tor_sums.specs.Fault.{IsFault, byte_fault, wanted_byte_fault};
ghost use Rattle.tor_sums.specs.steps.Given.{IsGivenRead};
ghost use Rattle.tor_sums.specs.Hasher.{IsTreeOf, tree_of};
ghost use Rattle.tor_sums.specs.steps.ReadBytes.{AreWantedFree, IsFaultFree};
ghost use Rattle.tor_sums.specs.steps.Room.{HasRoom, count_in, length_of};

use crate::errors::EngineError;
use crate::few_pieces::bytes_of_eight;
use crate::file_bytes::FileBytes;
use crate::hasher::ContentHasher;
use crate::room::Room;
use std::alloc::{AllocError, Global};
use tor_merkle::FedTree;
use tor_plan::Plan;
use tor_tree::Kind;

/// What the units of a worker hash to, one after the other. Bytes are read into a buffer of its own, and wait there
/// until many can be hashed together. Of each unit the tree is ended with it; its pieces go on with those of the next
/// one. Clauses say by `HasTaken` which bytes were taken. After an error it is of no use.
#[derive(Drop)]
pub struct WorkerSums {
    // The bytes that the pieces were not fed yet, and zeros among them.
    room: Room,
    // How many of these bytes the tree was fed, or are zeros: the first ones.
    treed: usize,
    // How many bytes of files were taken of the present unit.
    begun: u64,
    hasher: ContentHasher,
    ghost marked: { treed ≤ count_in room },
    ghost counted: { ForSome (tree_of hasher) (λ feed. length feed.bytes + count_in room ≡ begun + treed) },
    ghost small: { begun ≤ MAX_LENGTH },
}

impl WorkerSums {
    ghost use Rattle.tor_sums.specs.steps.Worker.{CanFinish, HasTaken, IsFresh, IsTreed, Keeps, TakesMore, begun_of};
    ghost use Rattle.tor_sums.specs.steps.Worker.{hasher_of, room_of, treed_of};
    ghost use Rattle.tor_tree.specs.declared.kinds.Kind.{Kind};

    /// Of no byte, for the units of a plan.
    pub(crate) fn new(alloc: Global, plan: &Plan) -> Result<WorkerSums, AllocError>
        requires { IsPlan plan.now }
        ensures fresh { IfOk result (IsFresh plan.now []) }
        ensures none { IfOk result (λ sums. count_in (room_of sums) ≡ 0) }
    {
        let least = bytes_of_eight(plan);
        let sums = WorkerSums::of_kind(alloc, plan.kind(), plan.piece_length(), least)?;
        Ok(sums)
    }

    /// Of no byte, of a kind and for pieces of so many bytes, of contents of at least so many.
    pub(crate) fn of_kind(
        alloc: Global,
        kind: Kind,
        piece_length: u64,
        least: u64,
    ) -> Result<WorkerSums, AllocError>
        requires { IsPlanPieceLength kind piece_length }
        ensures taken { IfOk result (HasTaken kind piece_length [] []) }
        ensures begun { IfOk result (λ sums. begun_of sums ≡ 0) }
        ensures none { IfOk result (λ sums. count_in (room_of sums) ≡ 0) }
    {
        let room = Room::new(alloc, kind, piece_length, least)?;
        Ok(WorkerSums {
            room,
            treed: 0,
            begun: 0,
            hasher: ContentHasher::new(alloc, kind, piece_length),
        })
    }

    /// Reads bytes of a file from an offset on, at most `left`, and answers how many were read.
    pub(crate) fn read<S: FileBytes>(
        &mut self,
        source: &S,
        file: u64,
        start: u64,
        left: u64,
    ) -> Result<usize, EngineError<S::Fault>>
        requires left { 0 < left }
        requires small { begun_of self.old + left ≤ MAX_LENGTH }
        ensures some { IfOk result (λ count. (0 < count) × (count ≤ left)) }
        ensures begun { IfOk result (λ count. begun_of self.new ≡ begun_of self.old + count) }
        ensures read { IfOk result (λ count. TakesMore (S.is_steady source.now) file start count self.old self.new) }
        ensures fault { (facts : SourceFacts S.Fault) → S.is_steady source.now facts →
            0 < length (bytes_from facts file start) →
            MatchResult result (IsFaultFree facts file start) (IsFault (byte_fault facts file start)) }
        ensures wanted { (facts : SourceFacts S.Fault) → S.is_steady source.now facts →
            (length (bytes_from facts file start) ≡ 0 → facts.byte_fault file start ≡ None) →
            MatchResult result (AreWantedFree facts file start) (IsFault (wanted_byte_fault facts file start)) }
        ensures gave { (lengths : List ℕ) → file < length lengths → start < slice_index_or lengths file 0 →
            IfErr result (IsGivenRead (S.answers source.now) lengths) }
    {
        self.make_room(left)?;
        match self.room.read(source, file, start, left) {
            Ok(count) => {
                self.begun += count as u64;
                Ok(count)
            }
            Err(error) => Err(error),
        }
    }

    /// Adds zeros, which belong to no file.
    pub(crate) fn feed_zeros(&mut self, count: u64) -> Result<(), AllocError>
        ensures taken { (kind : Kind) (piece_length : ℕ) (bytes unit : List ℕ) →
            HasTaken kind piece_length bytes unit self.old →
            OnOk result (HasTaken kind piece_length bytes (unit ++ zeros count) self.new) }
        ensures begun { begun_of self.new ≡ begun_of self.old }
        ensures treed { (plan : PlanFacts) → IsTreed plan self.old → OnOk result (IsTreed plan self.new) }
    {
        if count == 0 {
            return Ok(());
        }
        self.feed_tree(self.count_held())?;
        let mut left = count;
        'zeros: while left > 0 {
            let width = self.put_zeros(left)?;
            left -= width;
        }
        Ok(())
    }

    /// Adds bytes to the pieces alone.
    pub(crate) fn feed_pieces(&mut self, bytes: &[u8]) -> Result<(), AllocError>
        ensures { (kind : Kind) (piece_length : ℕ) (before unit : List ℕ) →
            HasTaken kind piece_length before unit self.old →
            OnOk result (HasTaken kind piece_length before (unit ++ bytes.now) self.new) }
    {
        self.feed_tree(self.count_held())?;
        let mut left = bytes;
        'parts: while !left.is_empty() {
            let count = self.put(left)?;
            let (_, later) = left.split_at(count);
            left = later;
        }
        Ok(())
    }

    /// Ends the unit for its tree, none in V1. Its pieces go on.
    pub(crate) fn end_tree(
        &mut self,
        alloc: Global,
        plan: &Plan,
    ) -> Result<Option<FedTree>, AllocError>
        requires { IsPlan plan.now }
        ensures tree { (kind : Kind) (piece_length : ℕ) (bytes unit : List ℕ) →
            HasTaken kind piece_length bytes unit self.old → IfOk result (IsTreeOf kind piece_length bytes) }
        ensures next { (bytes unit : List ℕ) →
            HasTaken plan.now.kind plan.now.piece_length bytes unit self.old → IsFresh plan.now unit self.new }
        ensures treed { IsTreed plan.now self.new }
    {
        let held = self.count_held();
        let (_, last) = self.room.front(held).split_at(self.treed);
        let ended = self.hasher.end_tree(alloc, plan, last);
        self.treed = held;
        self.begun = 0;
        ended
    }

    /// Ends the pieces, and gives their sums, none in V2. The next ones begin with no byte.
    pub(crate) fn end_pieces(&mut self, alloc: Global, plan: &Plan) -> Result<Vec<u8>, AllocError>
        requires planned { IsPlan plan.now }
        requires treed { IsTreed plan.now self.old }
        ensures sums { (kind : Kind) (piece_length : ℕ) (bytes unit : List ℕ) →
            HasTaken kind piece_length bytes unit self.old →
            IfOk result (λ sums. sums.items ≡ (if has_v1 kind then piece_sums piece_length unit else [])) }
        ensures next { OnOk result (IsFresh plan.now [] self.new) }
        ensures none { OnOk result (count_in (room_of self.new) ≡ 0) }
    {
        self.hash(self.count_held())?;
        Ok(self.hasher.end_pieces(alloc, plan))
    }

    /// Makes room for the sums of all that waits, so that `finish` can end the pieces.
    pub(crate) fn reserve(&mut self) -> Result<(), AllocError>
        ensures keeps { Keeps self.old self.new }
        ensures begun { begun_of self.new ≡ begun_of self.old }
        ensures room { OnOk result (CanFinish self.new) }
    {
        self.hasher.reserve(self.room.count_held() as u64)
    }

    /// Ends the pieces, for whose sums there is room, and gives them. It takes no memory.
    pub(crate) fn finish(self, alloc: Global) -> Vec<u8>
        requires { CanFinish self }
        ensures { (kind : Kind) (piece_length : ℕ) (bytes unit : List ℕ) →
            HasTaken kind piece_length bytes unit self →
            result.items ≡ (if has_v1 kind then piece_sums piece_length unit else []) }
    {
        let WorkerSums {
            room,
            treed: _,
            begun: _,
            mut hasher,
        } = self;
        hasher.add_pieces(room.front(room.count_held()));
        hasher.finish(alloc).pieces
    }

    // How many bytes wait.
    fn count_held(&self) -> usize
        ensures { result ≡ count_in (room_of self.now) }
    {
        self.room.count_held()
    }

    // Adds zeros, at most `left`, and answers how many. The tree has all that waits.
    fn put_zeros(&mut self, left: u64) -> Result<u64, AllocError>
        requires left { 0 < left }
        requires treed { treed_of self.old ≡ count_in (room_of self.old) }
        ensures some { IfOk result (λ count. (0 < count) × (count ≤ left)) }
        ensures taken { (kind : Kind) (piece_length : ℕ) (bytes unit : List ℕ) →
            HasTaken kind piece_length bytes unit self.old →
            IfOk result (λ count. HasTaken kind piece_length bytes (unit ++ zeros count) self.new) }
        ensures begun { begun_of self.new ≡ begun_of self.old }
        ensures treed { OnOk result (treed_of self.new ≡ count_in (room_of self.new)) }
        ensures tree { OnOk result (tree_of (hasher_of self.new) ≡ tree_of (hasher_of self.old)) }
    {
        self.make_room(left)?;
        let count = self.room.put_zeros(left);
        self.treed = self.room.count_held();
        Ok(count as u64)
    }

    // Adds the first of these bytes to the pieces, and answers how many. The tree has all that waits.
    fn put(&mut self, bytes: &[u8]) -> Result<usize, AllocError>
        requires some { 0 < length bytes.now }
        requires treed { treed_of self.old ≡ count_in (room_of self.old) }
        ensures some { IfOk result (λ count. (0 < count) × (count ≤ length bytes.now)) }
        ensures taken { (kind : Kind) (piece_length : ℕ) (before unit : List ℕ) →
            HasTaken kind piece_length before unit self.old →
            IfOk result (λ count. HasTaken kind piece_length before (unit ++ take count bytes.now) self.new) }
        ensures treed { OnOk result (treed_of self.new ≡ count_in (room_of self.new)) }
    {
        self.make_room(bytes.len() as u64)?;
        let count = self.room.put(bytes);
        self.treed += count;
        Ok(count)
    }

    // Hashes a batch if one is held, or if there is little room for the bytes that are left.
    fn make_room(&mut self, left: u64) -> Result<(), AllocError>
        ensures keeps { OnOk result (Keeps self.old self.new) }
        ensures begun { begun_of self.new ≡ begun_of self.old }
        ensures room { OnOk result (HasRoom left (room_of self.new)) }
        ensures treed { treed_of self.old ≡ count_in (room_of self.old) →
            OnOk result (treed_of self.new ≡ count_in (room_of self.new)) }
        ensures tree { treed_of self.old ≡ count_in (room_of self.old) →
            OnOk result (tree_of (hasher_of self.new) ≡ tree_of (hasher_of self.old)) }
    {
        if self.room.is_full(left) {
            let count = self.room.batch();
            return self.hash(count);
        }
        Ok(())
    }

    // Hashes the first so many bytes that wait, at least half of them.
    fn hash(&mut self, count: usize) -> Result<(), AllocError>
        requires within { count ≤ count_in (room_of self.old) }
        requires half { count_in (room_of self.old) ≤ 2 * count }
        ensures keeps { OnOk result (Keeps self.old self.new) }
        ensures begun { begun_of self.new ≡ begun_of self.old }
        ensures treed { OnOk result (treed_of self.new ≡ treed_of self.old - count) }
        ensures count { OnOk result (count_in (room_of self.new) ≡ count_in (room_of self.old) - count) }
        ensures length { OnOk result (length_of (room_of self.new) ≡ length_of (room_of self.old)) }
        ensures tree { treed_of self.old ≡ count_in (room_of self.old) →
            OnOk result (tree_of (hasher_of self.new) ≡ tree_of (hasher_of self.old)) }
    {
        self.feed_tree(count)?;
        self.hasher.feed_pieces(self.room.front(count))?;
        self.room.let_go(count);
        self.treed -= count;
        Ok(())
    }

    // Feeds the tree what it has not got of the first so many bytes that wait.
    fn feed_tree(&mut self, count: usize) -> Result<(), AllocError>
        requires { count ≤ count_in (room_of self.old) }
        ensures keeps { OnOk result (Keeps self.old self.new) }
        ensures begun { begun_of self.new ≡ begun_of self.old }
        ensures room { room_of self.new ≡ room_of self.old }
        ensures treed { OnOk result (treed_of self.new ≡ max (treed_of self.old) count) }
        ensures tree { count ≤ treed_of self.old →
            OnOk result (tree_of (hasher_of self.new) ≡ tree_of (hasher_of self.old)) }
    {
        if self.treed < count {
            let (_, rest) = self.room.front(count).split_at(self.treed);
            self.hasher.feed_tree(rest)?;
            self.treed = count;
        }
        Ok(())
    }
}
