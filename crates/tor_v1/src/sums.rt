//! The SHA-1 of each piece of a content that is fed in parts.
ghost use Rattle.std.specs.Prelude.{◌≡◌, ◌+◌, ◌-◌, ◌*◌, ◌^◌, ◌<◌, ◌≤◌, ℕ, List, [], ◌++◌, length, OnOk, OnErr, IsOk};
ghost use Rattle.std.specs.Prelude.{replicate, vec_len, vec_capacity, true};
ghost use Rattle.std.specs.Int.{div_ceil};
ghost use Rattle.std.specs.List.{flat_map};
ghost use Rattle.sha1.specs.Sha1.{Holds, sha1};
ghost use Rattle.tor_v1.specs.Piece.{IsV1PieceLength, max_piece_length, piece_sums, zeros};

use crate::runs::{end_run, has_runs};
use sha1::{DIGEST_LEN, Sha1};
use std::alloc::{AllocError, Global};
use std::mem;

/// So many zeros are fed at once.
const ZEROS_LENGTH: usize = 1024;

static ZEROS: [u8; ZEROS_LENGTH] = [0; ZEROS_LENGTH];

/// The SHA-1 of each piece of a content that is fed in parts of any lengths (BEP 3, "info dictionary"). It keeps
/// 20 bytes a piece, and nothing of the content. Clauses say by `HasFed` which bytes were fed.
#[derive(Drop)]
pub struct PieceSums {
    piece_length: u64,
    // How many bytes of the present piece were fed, 0 if none is begun.
    begun: u64,
    hasher: Sha1,
    // The hashes of the whole pieces, with room for that of the present one.
    sums: Vec<u8>,
    ghost allowed: { IsV1PieceLength piece_length },
    ghost within: { begun < piece_length },
    ghost room: { vec_len sums + 20 * div_ceil begun piece_length ≤ vec_capacity sums },
}

impl PieceSums {
    ghost use Rattle.tor_v1.specs.Feeding.{HasFed, HasRoom, Feeds, IsUnchanged};
    ghost use Rattle.tor_v1.specs.steps.Room.{IsSameButRoom};
    ghost use Rattle.tor_v1.specs.steps.Runs.{FitsRun};

    /// Sums of no byte, for pieces of `piece_length` bytes.
    pub fn new(alloc: Global, piece_length: u64) -> PieceSums
        requires { IsV1PieceLength piece_length }
        ensures { HasFed result piece_length [] }
    {
        PieceSums {
            piece_length,
            begun: 0,
            hasher: Sha1::new(),
            sums: Vec::new(alloc),
        }
    }

    /// Adds `part` at the end of the content. Memory can only be refused if it begins a piece.
    pub fn feed(&mut self, part: &[u8]) -> Result<(), AllocError>
        ensures ok { OnOk result (Feeds self.old self.new part.now) }
        ensures err { OnErr result (IsUnchanged self.old self.new) }
        ensures within { (piece_length : ℕ) (bytes : List ℕ) → HasFed self.old piece_length bytes →
            div_ceil (length bytes + length part.now) piece_length ≤ div_ceil (length bytes) piece_length →
            IsOk result }
    {
        self.make_room(part.len() as u64)?;
        self.add(part);
        Ok(())
    }

    /// Adds `count` zeros, at most 2^30, at the end of the content. Memory can only be refused if they begin
    /// a piece.
    pub fn feed_zeros(&mut self, count: u64) -> Result<(), AllocError>
        requires { count ≤ max_piece_length }
        ensures ok { OnOk result (Feeds self.old self.new (zeros count)) }
        ensures err { OnErr result (IsUnchanged self.old self.new) }
        ensures within { (piece_length : ℕ) (bytes : List ℕ) → HasFed self.old piece_length bytes →
            div_ceil (length bytes + count) piece_length ≤ div_ceil (length bytes) piece_length → IsOk result }
    {
        self.make_room(count)?;
        let mut left = count;
        'parts: while left > 0 {
            left -= self.add_zeros(left);
        }
        Ok(())
    }

    /// Makes room for the hashes of the pieces that so many more bytes begin, so that `add` can take them. Memory can
    /// only be refused if there is no room yet.
    pub fn reserve(&mut self, more: u64) -> Result<(), AllocError>
        requires { more < 2 ^ 63 }
        ensures same { IsUnchanged self.old self.new }
        ensures room { OnOk result (HasRoom self.new more) }
        ensures there { HasRoom self.old more → IsOk result }
    {
        self.make_room(more)
    }

    /// Adds bytes for whose pieces there is room, at the end of the content. It takes no memory.
    pub fn add(&mut self, bytes: &[u8])
        requires { HasRoom self.old (length bytes.now) }
        ensures fed { Feeds self.old self.new bytes.now }
        ensures room { (later : ℕ) → HasRoom self.old (length bytes.now + later) → HasRoom self.new later }
    {
        let mut rest = bytes;
        'parts: while !rest.is_empty() {
            if self.takes_run(rest.len()) {
                let (run, later) = rest.split_at(8 * self.piece_length as usize);
                self.add_run(run);
                rest = later;
            } else {
                let length = rest.len().min((self.piece_length - self.begun) as usize);
                let (part, later) = rest.split_at(length);
                self.add_to_piece(part);
                rest = later;
            }
        }
    }

    /// The joined SHA-1 of each piece of the bytes fed, the last piece perhaps shorter.
    pub fn finish(self) -> Vec<u8>
        ensures { (piece_length : ℕ) (bytes : List ℕ) → HasFed self piece_length bytes →
            result.items ≡ piece_sums piece_length bytes }
    {
        let PieceSums {
            piece_length: _,
            begun,
            mut hasher,
            mut sums,
        } = self;
        if begun > 0 {
            end_piece(&mut hasher, &mut sums);
        }
        sums
    }

    // Makes room as `reserve` does, and tells that all but room stays as it is.
    fn make_room(&mut self, more: u64) -> Result<(), AllocError>
        requires { more < 2 ^ 63 }
        ensures same { IsSameButRoom self.old self.new }
        ensures room { OnOk result (HasRoom self.new more) }
        ensures there { HasRoom self.old more → IsOk result }
    {
        let pieces = (self.begun + more).div_ceil(self.piece_length);
        let capacity = pieces.saturating_mul(DIGEST_LEN as u64);
        self.sums.reserve(capacity as usize)
    }

    // Whether the next eight pieces of so many bytes are taken at once.
    fn takes_run(&self, left: usize) -> bool
        ensures only { result ≡ true → FitsRun self.now left }
        ensures all { FitsRun self.now left → result ≡ true }
    {
        self.begun == 0 && has_runs(self.piece_length) && left >= 8 * self.piece_length as usize
    }

    // Adds eight whole pieces, if none is begun.
    fn add_run(&mut self, run: &[u8])
        requires fits { FitsRun self.old (length run.now) }
        requires length { length run.now ≡ 8 * self.old.piece_length }
        requires room { HasRoom self.old (length run.now) }
        ensures fed { Feeds self.old self.new run.now }
        ensures room { (later : ℕ) → HasRoom self.old (length run.now + later) → HasRoom self.new later }
    {
        end_run(run, self.piece_length as usize, &mut self.sums);
    }

    // Adds zeros, at most `left`, and answers how many: whole pieces if none is begun, else of one piece.
    fn add_zeros(&mut self, left: u64) -> u64
        requires some { 0 < left }
        requires small { left ≤ max_piece_length }
        requires room { HasRoom self.old left }
        ensures some { (0 < result) × (result ≤ left) }
        ensures fed { Feeds self.old self.new (zeros result) }
        ensures room { HasRoom self.new (left - result) }
    {
        let whole = left / self.piece_length;
        if self.begun == 0 && whole > 0 {
            let count = whole * self.piece_length;
            self.add_zero_pieces(whole);
            return count;
        }
        let most = left.min(ZEROS_LENGTH as u64);
        let count = most.min(self.piece_length - self.begun);
        self.add_to_piece(zeros(count as usize));
        count
    }

    // Adds so many whole pieces of zeros, if none is begun. All have one hash, which is computed once.
    fn add_zero_pieces(&mut self, count: u64)
        requires none { self.old.begun ≡ 0 }
        requires room { HasRoom self.old (count * self.old.piece_length) }
        ensures fed { Feeds self.old self.new (zeros (count * self.old.piece_length)) }
        ensures room { (later : ℕ) → HasRoom self.old (count * self.old.piece_length + later) →
            HasRoom self.new later }
    {
        let sum = sum_of_zeros(self.piece_length);
        push_often(&sum, count, &mut self.sums);
    }

    // Adds bytes of one piece.
    fn add_to_piece(&mut self, part: &[u8])
        requires within { self.old.begun + length part.now ≤ self.old.piece_length }
        requires room { HasRoom self.old (length part.now) }
        ensures fed { Feeds self.old self.new part.now }
        ensures room { (later : ℕ) → HasRoom self.old (length part.now + later) → HasRoom self.new later }
    {
        self.hasher.update(part);
        self.begun += part.len() as u64;
        if self.begun == self.piece_length {
            end_piece(&mut self.hasher, &mut self.sums);
            self.begun = 0;
        }
    }
}

/// Puts the hash of a piece after those before it, for which there is room, and begins the next piece.
fn end_piece(hasher: &mut Sha1, sums: &mut Vec<u8>)
    requires { vec_len sums.old + 20 ≤ vec_capacity sums.old }
    ensures hashed { (piece : List ℕ) → Holds hasher.old piece →
        sums.new.items ≡ sums.old.items ++ sha1 piece }
    ensures len { vec_len sums.new ≡ vec_len sums.old + 20 }
    ensures capacity { vec_capacity sums.old ≤ vec_capacity sums.new }
    ensures next { Holds hasher.new [] }
{
    let sum = mem::replace(hasher, Sha1::new()).finalize();
    // There is room.
    let _ = sums.extend_from_slice(&sum);
}

/// The SHA-1 of so many zeros.
fn sum_of_zeros(count: u64) -> [u8; DIGEST_LEN]
    ensures value { result ≡ sha1 (zeros count) }
    ensures len { length result ≡ 20 }
{
    let mut hasher = Sha1::new();
    let mut left = count;
    'parts: while left > 0 {
        let length = left.min(ZEROS_LENGTH as u64);
        hasher.update(zeros(length as usize));
        left -= length;
    }
    hasher.finalize()
}

/// Puts the hash of as many pieces of zeros after those before them, for which there is room.
fn push_often(sum: &[u8; DIGEST_LEN], count: u64, sums: &mut Vec<u8>)
    requires { vec_len sums.old + 20 * count ≤ vec_capacity sums.old }
    ensures joined { sums.new.items ≡ sums.old.items ++ flat_map (λ x. x) (replicate count sum.now) }
    ensures len { vec_len sums.new ≡ vec_len sums.old + 20 * count }
    ensures capacity { vec_capacity sums.old ≤ vec_capacity sums.new }
{
    'pieces: for _ in 0..count {
        // There is room.
        let _ = sums.extend_from_slice(sum);
    }
}

/// So many zeros.
fn zeros(count: usize) -> &'static [u8]
    requires { count ≤ ZEROS_LENGTH }
    ensures { result.now ≡ zeros count }
{
    &ZEROS[..count]
}
