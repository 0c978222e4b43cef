//! What can stop the program: its line on standard error, and its status.
ghost use Rattle.std.specs.Prelude.{◌≡◌, ◌<◌, ◌≤◌, IfOk};
ghost use Rattle.tor_cli.specs.Status.{status_of, status_of_make, status_of_piece, status_of_recheck};
ghost use Rattle.tor_cli.specs.Status.{status_of_refusal, status_of_scan};
ghost use Rattle.tor_cli.specs.Words.{IsUsage};

use crate::proof::claim::ArgumentFault;
use crate::unwritten::Unwritten;
use std::alloc::{AllocError, Global};
use std::{fmt, io};
use tor_check::{ProveError, Refusal};
use tor_engine::EngineError;
use tor_meta::{JoinError, MakeError, PlanError};
use tor_recheck::RecheckError;
use tor_source::ScanFault;
use tor_tree::NameError;

/// What can stop the program. Want of memory is `Resources`, wherever it comes.
#[derive(Drop)]
pub enum Fault {
    /// The words ask for nothing that there is: the line.
    Usage(String),
    /// The word for the name is none, or a name in the list of `--files-from`.
    Name(NameError),
    /// What the words name is no file, and no folder whose files make a list.
    Scan(ScanFault),
    /// The order or the paths are refused, or a file was not read as it was told to be.
    Make(MakeError<io::Error>),
    /// What FILE has is no torrent.
    Refused(Refusal),
    /// The torrent has no such piece, or no tree that it is of.
    Piece(ProveError),
    /// A file of the torrent was not read, or did not stay as long as it was told to be.
    Recheck(RecheckError<io::Error>),
    /// What FILE has is no plan, or one of which no torrent is made.
    Plan(PlanError),
    /// No torrent is joined of a plan and parts; the place of the part that it is for.
    Join(JoinError, String),
    /// The files do not have each piece of the torrent that was made of them: so many have, of so many.
    NotAsMade { good: u64, pieces: u64 },
    /// The file of `--out` is one of those that the torrent would be made of.
    OutAmongFiles,
    /// An argument of `verify`, or the file of `--attrs` or `--files-from`, is none of its kind.
    Argument(ArgumentFault),
    /// Standard input, or a FILE, was not read whole, for this reason of the system's.
    Read(io::Error),
    TooLong,
    /// So many bytes went out.
    Write(Unwritten),
    /// Memory, or a thread that is needed, was refused.
    Resources,
}

impl Fault {
    /// A fault of usage in one line: the first paragraph of what `clap` says, and where help is.
    pub fn usage(alloc: Global, text: &str, command: &str) -> Result<Fault, AllocError>
        ensures { IfOk result (IsUsage command.now) }
    {
        let line = in_one_line(alloc, first_paragraph(text))?;
        let cause = line.strip_suffix(" found").unwrap_or(&line);
        Ok(Fault::Usage(format!(in alloc; "{cause}; see '{command} --help'")?))
    }

    /// The status that the program ends with.
    pub fn status(&self) -> u8
        ensures value { result ≡ status_of self.now }
        ensures positive { 0 < result }
        ensures within { result ≤ 4 }
    {
        match self {
            Fault::Usage(_) => 2,
            Fault::Name(_) => 1,
            Fault::Scan(fault) => status_of_scan(fault),
            Fault::Make(error) => status_of_make(error),
            Fault::Refused(refusal) => status_of_refusal(refusal),
            Fault::Piece(error) => status_of_piece(error),
            Fault::Recheck(error) => status_of_recheck(error),
            Fault::Plan(_) | Fault::Join(..) => 1,
            Fault::NotAsMade { .. } | Fault::OutAmongFiles => 1,
            Fault::Argument(_) => 1,
            Fault::Read(_) | Fault::TooLong | Fault::Write(_) => 3,
            Fault::Resources => 4,
        }
    }
}

fn first_paragraph(text: &str) -> &str {
    let paragraph = match text.split_once("\n\n") {
        Some((first, _)) => first,
        None => text,
    };
    paragraph.strip_prefix("error: ").unwrap_or(paragraph)
}

fn in_one_line(alloc: Global, paragraph: &str) -> Result<String, AllocError> {
    let mut line = String::new(alloc);
    'parts: for part in paragraph.lines() {
        if !line.is_empty() {
            line.push(' ')?;
        }
        line.push_str(part.trim())?;
    }
    Ok(line)
}

fn status_of_scan(fault: &ScanFault) -> u8
    ensures value { result ≡ status_of_scan fault.now }
    ensures positive { 0 < result }
    ensures within { result ≤ 4 }
{
    match fault {
        ScanFault::NotUtf8 | ScanFault::NotRegular | ScanFault::TooDeep => 1,
        ScanFault::System => 3,
        ScanFault::Memory => 4,
    }
}

fn status_of_make(error: &MakeError<io::Error>) -> u8
    ensures value { result ≡ status_of_make error.now }
    ensures positive { 0 < result }
    ensures within { result ≤ 4 }
{
    match error {
        MakeError::Hashing(EngineError::Resources) => 4,
        MakeError::Hashing(_) => 3,
        _ => 1,
    }
}

fn status_of_refusal(refusal: &Refusal) -> u8
    ensures value { result ≡ status_of_refusal refusal.now }
    ensures positive { 0 < result }
    ensures within { result ≤ 4 }
{
    match refusal {
        Refusal::Memory => 4,
        _ => 1,
    }
}

fn status_of_piece(error: &ProveError) -> u8
    ensures value { result ≡ status_of_piece error.now }
    ensures positive { 0 < result }
    ensures within { result ≤ 4 }
{
    match error {
        ProveError::Memory => 4,
        _ => 1,
    }
}

fn status_of_recheck(error: &RecheckError<io::Error>) -> u8
    ensures value { result ≡ status_of_recheck error.now }
    ensures positive { 0 < result }
    ensures within { result ≤ 4 }
{
    match error {
        RecheckError::Read { .. } | RecheckError::Changed { .. } => 3,
        RecheckError::Resources => 4,
        RecheckError::Workers => 1,
    }
}

impl fmt::Display for Fault {
    fn fmt<W: fmt::Write>(&self, f: &mut fmt::Formatter<W>) -> fmt::Result {
        match self {
            Fault::Usage(line) => f.write_str(line.as_str()),
            Fault::Name(fault) => fmt::Display::fmt(fault, f),
            Fault::Scan(fault) => fmt::Display::fmt(fault, f),
            Fault::Make(error) => write_error(error, f),
            Fault::Refused(refusal) => fmt::Display::fmt(refusal, f),
            Fault::Piece(error) => fmt::Display::fmt(error, f),
            Fault::Recheck(error) => write_recheck_error(error, f),
            Fault::Plan(error) => write_plan_error(error, f),
            Fault::Join(error, part) => write_join_error(error, part, f),
            Fault::NotAsMade { good, pieces } => {
                write!(f, "not as made: {good} of {pieces} pieces")
            }
            Fault::OutAmongFiles => f.write_str("out among files"),
            Fault::Argument(fault) => fmt::Display::fmt(fault, f),
            Fault::Read(_) => f.write_str("read fault"),
            Fault::TooLong => f.write_str("input too long"),
            Fault::Write(stop) => write!(f, "write fault after {} bytes", stop.written()),
            Fault::Resources => f.write_str("out of resources"),
        }
    }
}

/// The code and the name, and for a fault of a file its index in the order of the paths, and the offset.
fn write_error<W: fmt::Write>(
    error: &MakeError<io::Error>,
    f: &mut fmt::Formatter<W>,
) -> fmt::Result {
    match error {
        MakeError::Hashing(fault) => write_file_fault(fault, f),
        refusal => fmt::Display::fmt(refusal, f),
    }
}

/// The code and the name of a fault of a file, its index in the order of the paths, and the offset.
fn write_file_fault<W: fmt::Write>(
    fault: &EngineError<io::Error>,
    f: &mut fmt::Formatter<W>,
) -> fmt::Result {
    match fault {
        EngineError::Read { file, start, .. } => write_read_error(fault, *file, *start, f),
        EngineError::Changed { file }
        | EngineError::Missing { file }
        | EngineError::StreamTooLong { file } => write!(f, "{fault} file {file}"),
        EngineError::Resources => fmt::Display::fmt(fault, f),
    }
}

/// The code and the name of a fault of a recheck, and for a fault of a file its index among the torrent's files, and
/// the offset.
fn write_recheck_error<W: fmt::Write>(
    error: &RecheckError<io::Error>,
    f: &mut fmt::Formatter<W>,
) -> fmt::Result {
    match error {
        RecheckError::Read { file, start, .. } => write_read_error(error, *file, *start, f),
        RecheckError::Changed { file } => write!(f, "{error} file {file}"),
        other => fmt::Display::fmt(other, f),
    }
}

/// A fault of a read: of a file, at an offset or at its length.
fn write_read_error<E: fmt::Display, W: fmt::Write>(
    error: &E,
    file: u64,
    start: Option<u64>,
    f: &mut fmt::Formatter<W>,
) -> fmt::Result {
    match start {
        Some(start) => write!(f, "{error} file {file} at {start}"),
        None => write!(f, "{error} file {file} at length"),
    }
}

/// That the bytes are no plan, and if they are one the refusal for which no torrent is made of it.
fn write_plan_error<W: fmt::Write>(error: &PlanError, f: &mut fmt::Formatter<W>) -> fmt::Result {
    match error {
        PlanError::Refused(refusal) => write!(f, "J1 Plan {refusal}"),
        _ => f.write_str("J1 Plan"),
    }
}

/// The code and the name, and the part that it is for, or the numbers of all that are missing.
fn write_join_error<W: fmt::Write>(
    error: &JoinError,
    part: &str,
    f: &mut fmt::Formatter<W>,
) -> fmt::Result {
    match error {
        JoinError::Plan(error) => write_plan_error(error, f),
        JoinError::Missing { lots } => {
            f.write_str("J7 Missing ")?;
            write_runs(lots, f)
        }
        other => write!(f, "{other} {part}"),
    }
}

/// Numbers that rise, as an array job takes them: those that follow one another as one run, `40-44`.
fn write_runs<W: fmt::Write>(numbers: &[u32], f: &mut fmt::Formatter<W>) -> fmt::Result {
    let mut begun: Option<(u32, u32)> = None;
    'numbers: for number in numbers {
        begun = match begun {
            Some((first, last)) if last.checked_add(1) == Some(*number) => Some((first, *number)),
            Some(run) => {
                write_run(run, f)?;
                f.write_str(",")?;
                Some((*number, *number))
            }
            None => Some((*number, *number)),
        };
    }
    match begun {
        Some(run) => write_run(run, f),
        None => Ok(()),
    }
}

fn write_run<W: fmt::Write>(run: (u32, u32), f: &mut fmt::Formatter<W>) -> fmt::Result {
    match run {
        (first, last) if first == last => write!(f, "{first}"),
        (first, last) => write!(f, "{first}-{last}"),
    }
}
