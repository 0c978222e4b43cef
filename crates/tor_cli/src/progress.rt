//! How far the reading of files is: what is read is counted in each run, and shown in a line on a terminal.
//!
//! - `line.rt`: its text; `watch.rt`: the time that has gone.
ghost use Rattle.std.specs.Prelude.{◌≡◌};

pub mod line;
mod watch;

use crate::progress::line::progress_line;
use crate::progress::watch::Watch;
use std::alloc::Global;
use std::io::{self, Eprint, Read};
use std::rt::Stderr;
use std::sync::atomic::AtomicU64;
use std::sync::atomic::Ordering::SeqCst;
use tor_check::ViewFile;
use tor_source::Source;

/// Milliseconds from one print of the line to the next.
const INTERVAL: u64 = 250;

/// How far the reading is, as the line on standard error shows it. Several workers may count at once. Nothing in it can
/// write anywhere else.
#[derive(Drop)]
pub struct Progress {
    line: Stderr,
    watch: Watch,
    alloc: Global,
    /// So many files tell their lengths before a byte is read; they tell them again later.
    files: u64,
    asked: AtomicU64,
    /// The bytes that there are, and those that were read.
    total: AtomicU64,
    read: AtomicU64,
    /// When the line was last printed, in milliseconds from the start; 0 before the first time.
    last: AtomicU64,
}

impl Progress {
    /// Of so many files, from now on, if it is to be shown; none if the clock does not tell the time.
    pub fn shown(system: &HostRuntime, files: usize, shows: bool) -> Option<Progress> {
        if !shows {
            return None;
        }
        Some(Progress {
            line: system.stderr(),
            watch: Watch::start(system)?,
            alloc: system.alloc(),
            files: files as u64,
            asked: AtomicU64::new(0),
            total: AtomicU64::new(0),
            read: AtomicU64::new(0),
            last: AtomicU64::new(0),
        })
    }

    /// Asks how long the files of a source are, if they are read in another way.
    pub fn ask_lengths<S: Source>(&self, source: &S) {
        for file in 0..self.files {
            if let Ok(Some(length)) = source.length(file) {
                self.count_length(length);
            }
        }
    }

    fn count_length(&self, length: u64) {
        if self.asked.fetch_add(1, SeqCst) < self.files {
            self.total.fetch_add(length, SeqCst);
        }
    }

    /// Counts bytes that were read. Of the workers that find it time for a print, the one that sets its moment prints.
    fn count_read(&self, count: u64) {
        let read = self.read.fetch_add(count, SeqCst).saturating_add(count);
        let Some(now) = self.watch.milliseconds() else {
            return;
        };
        let last = self.last.load(SeqCst);
        if now < last.saturating_add(INTERVAL) {
            return;
        }
        if self
            .last
            .compare_exchange(last, now, SeqCst, SeqCst)
            .is_ok()
        {
            self.print(read, now);
        }
    }

    /// Prints the line over the one before it. If it cannot be printed, the work goes on.
    fn print(&self, read: u64, now: u64) {
        let total = self.total.load(SeqCst);
        if let Ok(line) = progress_line(self.alloc, read, total, now) {
            let _ = self.line.eprint(line.as_str());
        }
    }

    fn erase(&self) {
        if self.last.load(SeqCst) > 0 {
            let _ = self.line.eprint("\r\x1b[K");
        }
    }
}

/// Erases the line, if one was printed.
pub fn erase(progress: &Option<Progress>) {
    if let Some(progress) = progress {
        progress.erase();
    }
}

/// The files of a source; what is read of them is counted, if that is to be shown.
#[derive(Drop)]
pub struct Counting<'a, S: Source> {
    pub source: &'a S,
    /// The files of the torrent that is rechecked, past whose lengths nothing is read; none if one is made.
    pub files: &'a [ViewFile],
    pub progress: &'a Option<Progress>,
}

/// A reader; what is read of it is counted, if that is to be shown.
#[derive(Drop)]
pub struct CountedReader<'a, R: Read> {
    pub reader: R,
    pub progress: &'a Option<Progress>,
}

impl<'a, R: Read> Read for CountedReader<'a, R> {
    ghost remaining = { λ counted. R.remaining counted.reader };

    fn read(&mut self, buf: &mut [u8]) -> io::Result<usize> {
        let answer = self.reader.read(buf);
        if let (Some(progress), Ok(count)) = (self.progress, &answer) {
            progress.count_read(*count as u64);
        }
        answer
    }
}

/// How many bytes are read at most of a file that has so many.
fn length_to_read(files: &[ViewFile], file: u64, length: u64) -> u64 {
    match files.get(file as usize) {
        Some(told) => length.min(told.file().length),
        None => length,
    }
}

impl<'a, S: Source> Source for Counting<'a, S> {
    type Fault = S::Fault;

    ghost is_steady = { λ counting facts. S.is_steady counting.source.now facts };

    ghost answers = { λ counting. S.answers counting.source.now };

    fn length(&self, file: u64) -> Result<Option<u64>, S::Fault> {
        let answer = self.source.length(file);
        if let (Some(progress), Ok(length)) = (self.progress, &answer) {
            progress.count_length(length_to_read(self.files, file, length.unwrap_or(0)));
        }
        answer
    }

    fn read_at(&self, file: u64, start: u64, buffer: &mut [u8]) -> Result<usize, S::Fault> {
        let answer = self.source.read_at(file, start, buffer);
        if let (Some(progress), Ok(count)) = (self.progress, &answer) {
            progress.count_read(*count as u64);
        }
        answer
    }
}
