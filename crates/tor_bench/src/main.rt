//! What the scripts of `bench/` time.
//!
//! Over standard input: `sha1 CUT`, `sha256 CUT` and `both CUT` hash it by those hashes over all, each in reads of CUT
//! bytes; `files-sha1 CUT`, `files-sha256 CUT` and `files-both CUT` hash the files whose places it has, one a line;
//! `decode 1` reads it as bencode. `paths COUNT` makes so many paths, `list COUNT` a list of them too, and `lists
//! COUNT` writes its tree and reads that back; `scan FOLDER` lists a folder. `check 1` judges standard input, and
//! `pairs COUNT` joins so many hashes; `hashes COUNT` hashes so many times 2 MiB, message by message and by eight.
//! `board-units COUNT` has one seat of a board claim and give so many units, `board-tree COUNT` units of one tree;
//! `board-blocks WORKERS` has so many threads hash a block for each unit, and `board-round WORKERS` tells of a board of
//! a million units what so many threads did. `decode`, `lists`, `scan`, `check`, `pairs`, `hashes` and those of boards
//! print microseconds. Each number that is printed has a line of its own, but those of `hashes`. Lists are in
//! `lists.rt`, the hashes over all in `plain.rt`, the judging in `foreign.rt`, the hashing by eight in `eight.rt`,
//! boards in `board.rt`; `clock.rt` has the time.
#![tactic(auto)]

mod board;
mod clock;
mod eight;
mod foreign;
mod lists;
mod plain;

use crate::board::{alone, hashing, round};
use crate::clock::{micros_since, now, told};
use crate::eight::hashed;
use crate::foreign::{decoded, judged, paired};
use crate::lists::{list, lists, paths};
use crate::plain::{Hashes, files_hashed, input_hashed};
use std::env;
use std::io::{Error, ErrorKind, Result};
use std::thread::Threads;
use tor_source::FolderSource;

/// What a word that is no number stands for.
const NO_NUMBER: usize = 1 << 24;

/// What is asked for.
#[derive(Clone, Copy)]
enum Mode {
    Input(Hashes),
    Files(Hashes),
    Decode,
    Paths,
    List,
    Lists,
    Scan,
    Check,
    Pairs,
    Hashes,
    BoardUnits,
    BoardTree,
    BoardBlocks,
    BoardRound,
}

const MODES: &[(&str, Mode)] = &[
    ("sha1", Mode::Input(Hashes::Sha1)),
    ("sha256", Mode::Input(Hashes::Sha256)),
    ("both", Mode::Input(Hashes::Both)),
    ("files-sha1", Mode::Files(Hashes::Sha1)),
    ("files-sha256", Mode::Files(Hashes::Sha256)),
    ("files-both", Mode::Files(Hashes::Both)),
    ("decode", Mode::Decode),
    ("paths", Mode::Paths),
    ("list", Mode::List),
    ("lists", Mode::Lists),
    ("scan", Mode::Scan),
    ("check", Mode::Check),
    ("pairs", Mode::Pairs),
    ("hashes", Mode::Hashes),
    ("board-units", Mode::BoardUnits),
    ("board-tree", Mode::BoardTree),
    ("board-blocks", Mode::BoardBlocks),
    ("board-round", Mode::BoardRound),
];

fn main(rt: HostRuntime) -> Result<()> {
    let words: Vec<String> = env::args(&rt)?.collect(rt.alloc())?;
    match words.as_slice() {
        [_, mode, word] => run(&rt, &rt, mode, word),
        _ => Err(Error::from(ErrorKind::InvalidInput)),
    }
}

fn mode_of(name: &str) -> Option<Mode> {
    for (mode_name, mode) in MODES {
        if *mode_name == name {
            return Some(*mode);
        }
    }
    None
}

fn run<T: Threads + Sync>(threads: &T, rt: &HostRuntime, name: &str, word: &str) -> Result<()> {
    let number = word.parse::<usize>().unwrap_or(NO_NUMBER);
    match mode_of(name) {
        Some(Mode::Input(hashes)) => input_hashed(rt, hashes, number),
        Some(Mode::Files(hashes)) => files_hashed(rt, hashes, number),
        Some(Mode::Decode) => decoded(rt),
        Some(Mode::Paths) => paths(rt, number),
        Some(Mode::List) => list(rt, number),
        Some(Mode::Lists) => lists(rt, number),
        Some(Mode::Scan) => scanned(rt, word),
        Some(Mode::Check) => judged(rt),
        Some(Mode::Pairs) => paired(rt, number),
        Some(Mode::Hashes) => hashed(rt, number),
        Some(Mode::BoardUnits) => alone(threads, rt, number, false),
        Some(Mode::BoardTree) => alone(threads, rt, number, true),
        Some(Mode::BoardBlocks) => hashing(threads, rt, number),
        Some(Mode::BoardRound) => round(threads, rt, number),
        None => Err(Error::from(ErrorKind::InvalidInput)),
    }
}

fn files_below(rt: &HostRuntime, folder: &str) -> usize {
    match FolderSource::scan(rt, rt.alloc(), folder) {
        Ok((_source, paths)) => paths.len(),
        Err(_fault) => 0,
    }
}

fn scanned(rt: &HostRuntime, folder: &str) -> Result<()> {
    let start = now(rt);
    let count = files_below(rt, folder);
    told(rt, &[count as u128, micros_since(rt, start)])
}
