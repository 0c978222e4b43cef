//! A board worked by one thread and by several.
ghost use Rattle.std.specs.Prelude.{◌≡◌, ◌+◌, ◌≤◌, ◌^◌, IfOk};
ghost use Rattle.std.specs.Thread.{IsSync};
ghost use Rattle.tor_board.specs.Seats.{IsSeatOf, knows};

use crate::clock::{micros_since, now, told};
use std::alloc::{AllocError, Global};
use std::io::Result;
use std::thread::{Threads, join};
use tor_board::{Board, Given, Seat};
use tor_merkle::{BLOCK_LENGTH, Hash, leaf};
use tor_plan::{Forest, Run};

/// How many units the boards of `round` have, a multiple of 64.
const UNITS: u64 = 1_000_000;

/// How many blocks are hashed by `hashing`.
const BLOCKS: u64 = 50_000;

/// What seats did: how many units, at how many nodes they came second, how many tops they told, and a bit for each
/// unit that they had, if marks are kept.
#[derive(Drop)]
struct Work {
    units: u64,
    joined: u64,
    tops: u64,
    marks: Vec<u64>,
}

/// Marks for so many times 64 units, none of them set. Without memory there are none, and no unit is marked.
fn no_marks(alloc: Global, words: usize) -> Vec<u64> {
    match vec![in alloc; 0; words] {
        Ok(marks) => marks,
        Err(_error) => Vec::new(alloc),
    }
}

impl Work {
    /// A unit more.
    fn note(&mut self, unit: u64, given: &Given) {
        self.units = self.units.wrapping_add(1);
        self.joined = self.joined.wrapping_add(given.joined as u64);
        self.tops = self.tops.wrapping_add(given.top.is_some() as u64);
        if let Some(word) = self.marks.get_mut((unit / 64) as usize) {
            *word |= 1 << (unit % 64);
        }
    }

    /// The work of both.
    fn and(self, other: Work) -> Work {
        let Work {
            units,
            joined,
            tops,
            mut marks,
        } = self;
        let mut more = other.marks.iter();
        'words: for word in marks.iter_mut() {
            if let Some(bits) = more.next() {
                *word |= *bits;
            }
        }
        Work {
            units: units.wrapping_add(other.units),
            joined: joined.wrapping_add(other.joined),
            tops: tops.wrapping_add(other.tops),
            marks,
        }
    }

    /// How many units are marked.
    fn marked(&self) -> u64 {
        let mut count: u64 = 0;
        'words: for word in self.marks.iter() {
            count = count.wrapping_add(word.count_ones() as u64);
        }
        count
    }
}

/// A board of so many units, all of one tree or none of any, and its seat.
fn opened(
    alloc: Global,
    units: u64,
    in_tree: bool,
) -> std::result::Result<(Board, Seat), AllocError>
    requires { units ≤ 2 ^ 30 }
    ensures { IfOk result (λ r. IsSeatOf r.0 r.1 × ((knows r.1).room ≡ 256)) }
{
    if !in_tree || units < 2 {
        let none = Vec::new(alloc);
        return Board::open(alloc, &Forest { trees: none }, units);
    }
    let run = Run {
        first: 0,
        count: units,
        level: 0,
    };
    let one = vec![in alloc; run]?;
    Board::open(alloc, &Forest { trees: one }, units)
}

/// One seat's work, with the hashing of a block for each unit, or none, and marks for so many times 64 units.
fn worked(alloc: Global, board: &Board, seat: Seat, hashing: bool, words: usize) -> (Seat, Work)
    requires { IsSeatOf board.now seat }
    ensures mine { IsSeatOf board.now result.0 }
    ensures room { (knows result.0).room ≡ (knows seat).room }
{
    let block = [7; BLOCK_LENGTH];
    let mut seat = seat;
    let mut done = Work {
        units: 0,
        joined: 0,
        tops: 0,
        marks: no_marks(alloc, words),
    };
    'units: for _ in 0..u64::MAX {
        let Some(job) = board.claim(&mut seat) else {
            break;
        };
        let number = job.number();
        let hash: Hash = if hashing { leaf(&block) } else { [7; 32] };
        let given = board.give(&mut seat, job, hash);
        done.note(number, &given);
    }
    (seat, done)
}

/// Two seats and their work, put together.
fn together(board: &Board, one: (Seat, Work), other: (Seat, Work)) -> (Seat, Work)
    requires { IsSeatOf board.now one.0 × IsSeatOf board.now other.0 }
    ensures mine { IsSeatOf board.now result.0 }
    ensures room { (knows result.0).room ≡ (knows one.0).room + (knows other.0).room }
{
    let (seat, done) = one;
    let (second, more) = other;
    (board.join(seat, second), done.and(more))
}

/// The work of so many threads.
fn shared<R: Threads + Sync>(
    rt: &R,
    alloc: Global,
    board: &Board,
    seat: Seat,
    hashing: bool,
    words: usize,
    workers: u32,
) -> (Seat, Work)
    requires { IsSeatOf board.now seat }
    ensures mine { IsSeatOf board.now result.0 }
    ensures room { (knows result.0).room ≡ (knows seat).room }
{
    if workers < 2 {
        return worked(alloc, board, seat, hashing, words);
    }
    match board.split(seat) {
        Err((seat, _error)) => worked(alloc, board, seat, hashing, words),
        Ok((one, other)) => {
            let fewer = workers / 2;
            let rest = workers - fewer;
            let (first, second) = join(
                rt,
                move || -> (Seat, Work)
                    requires { IsSync R.row × IsSeatOf board.now one }
                    ensures mine { IsSeatOf board.entry.now result.0 }
                    ensures room { (knows result.0).room ≡ (knows one).room }
                { shared(rt, alloc, board, one, hashing, words, fewer) },
                move || -> (Seat, Work)
                    requires { IsSync R.row × IsSeatOf board.now other }
                    ensures mine { IsSeatOf board.entry.now result.0 }
                    ensures room { (knows result.0).room ≡ (knows other).room }
                { shared(rt, alloc, board, other, hashing, words, rest) },
            );
            together(board, first, second)
        }
    }
}

/// A board opened, worked and closed: the microseconds of the work, and what was done.
fn timed<T: Threads + Sync>(
    threads: &T,
    rt: &HostRuntime,
    units: u64,
    in_tree: bool,
    hashing: bool,
    words: usize,
    workers: u32,
) -> std::result::Result<(u128, Work), AllocError>
    requires { units ≤ 2 ^ 30 }
{
    let (board, seat) = opened(rt.alloc(), units, in_tree)?;
    let start = now(rt);
    let (seat, done) = shared(threads, rt.alloc(), &board, seat, hashing, words, workers);
    let taken = micros_since(rt, start);
    let _closed = board.close(seat);
    Ok((taken, done))
}

/// Prints the microseconds that one seat takes to claim and give so many units, of one tree or of none, and how many it
/// did.
pub fn alone<T: Threads + Sync>(
    threads: &T,
    rt: &HostRuntime,
    units: usize,
    in_tree: bool,
) -> Result<()> {
    let (taken, done) = timed(
        threads,
        rt,
        (units as u64).min(1 << 30),
        in_tree,
        false,
        0,
        1,
    )?;
    told(rt, &[taken, done.units as u128])
}

/// Prints the microseconds that so many threads take, if each unit has a block to be hashed, and how many units they
/// did.
pub fn hashing<T: Threads + Sync>(threads: &T, rt: &HostRuntime, workers: usize) -> Result<()> {
    let (taken, done) = timed(threads, rt, BLOCKS, true, true, 0, workers.min(256) as u32)?;
    told(rt, &[taken, done.units as u128])
}

/// Prints of a board of a million units of one tree, as so many threads worked it: the microseconds, how many units
/// were given, how many different ones, at how many nodes gives came second, and how many told a root.
pub fn round<T: Threads + Sync>(threads: &T, rt: &HostRuntime, workers: usize) -> Result<()> {
    let words = (UNITS / 64) as usize;
    let (taken, done) = timed(
        threads,
        rt,
        UNITS,
        true,
        false,
        words,
        workers.min(256) as u32,
    )?;
    let marked = done.marked() as u128;
    let Work {
        units,
        joined,
        tops,
        ..
    } = done;
    told(
        rt,
        &[taken, units as u128, marked, joined as u128, tops as u128],
    )
}
