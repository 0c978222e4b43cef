//! The program: the words of the command line and the real streams, handed to [`run`](crate::execute::run), and the
//! status that comes back.
ghost use Rattle.std.specs.Prelude.{◌≡◌, ◌≤◌, IfOk, map, string_bytes};
ghost use Rattle.std.specs.Process.{exit_status};
ghost use Rattle.std.specs.Vec.Iter.{into_iter_items};
ghost use Rattle.clap.specs.Walk.{texts};

use crate::ending::run_over;
use crate::fault::Fault;
use crate::terminal::{TerminalWriter, escapes_for, escapes_of_lines};
use std::alloc::{AllocError, Global};
use std::env;
use std::io::{ErrorKind, IsTerminal};
use std::process::ExitCode;
use std::sync::Wait;
use std::thread::Threads;

/// Does what the words of the command line ask for, with the process's own streams and by threads of `rt`. No contract
/// can say what the system hands it: [`run`](crate::execute::run) says what is done with that.
pub fn run_program<T: Threads + Wait + Sync + Send + Clone + Drop + 'static>(
    rt: &T,
    system: &HostRuntime,
) -> ExitCode
    ensures { exit_status result ≤ 4 }
{
    let words = match words_of(system) {
        Ok(words) => words,
        Err(fault) => return stop(system, &fault),
    };
    let texts = match texts_of(system.alloc(), &words) {
        Ok(texts) => texts,
        Err(error) => return stop(system, &Fault::from(error)),
    };
    let shows_progress = system.stderr().is_terminal();
    let escapes = escapes_for(&texts, system.stdout().is_terminal());
    run_over(
        rt,
        system,
        &texts,
        &mut system.stdin(),
        &mut TerminalWriter::new(system.stdout(), escapes),
        &mut TerminalWriter::new(system.stderr(), escapes_of_lines(shows_progress)),
        shows_progress,
    )
}

/// The words of the command line, from the program's name on.
fn words_of(system: &HostRuntime) -> Result<Vec<String>, Fault> {
    let alloc = system.alloc();
    match env::args(system) {
        Ok(words) => Ok(word_list(alloc, words)?),
        Err(error) if error.kind() == ErrorKind::OutOfMemory => Err(Fault::Resources),
        Err(_) => Err(Fault::usage(alloc, "a word is not UTF-8", "tor")?),
    }
}

/// The words that were answered, all of them and in their order.
fn word_list(alloc: Global, words: env::Args) -> Result<Vec<String>, AllocError>
    ensures same { IfOk result (λ found. found.items ≡ into_iter_items words) }
{
    words.collect(alloc)
}

/// The words as texts.
fn texts_of<'a>(alloc: Global, words: &'a [String]) -> Result<Vec<&'a str>, AllocError>
    ensures same { IfOk result (λ found. texts found.items ≡ map string_bytes words.now) }
{
    let mut texts = Vec::new(alloc);
    'words: for word in words {
        texts.push(word.as_str())?;
    }
    Ok(texts)
}

/// Tells a fault of the words, which is all that can stop the program before it does anything.
fn stop(system: &HostRuntime, fault: &Fault) -> ExitCode
    ensures { exit_status result ≤ 4 }
{
    let _ = eprintln!(system; "tor: {fault}");
    ExitCode::from(fault.status())
}
