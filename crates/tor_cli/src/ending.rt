//! A run of the program, and the status that the process ends with. It stands in a file of its own, so that `main`
//! reads none of the definitions that its clause names.
ghost use Rattle.std.specs.Process.{exit_status};
ghost use Rattle.clap.specs.Walk.{texts};
ghost use Rattle.tor_cli.specs.Run.{IsRunOf};
ghost use Rattle.tor_cli.specs.Streams.{streams};

use crate::execute::run;
use std::io::{Read, Write};
use std::process::ExitCode;
use std::sync::Wait;
use std::thread::Threads;

/// Runs the program over these words and streams: its status is the process's.
pub fn run_over<
    T: Threads + Wait + Sync + Send + Clone + Drop + 'static,
    R: Read,
    W: Write,
    E: Write,
>(
    rt: &T,
    system: &HostRuntime,
    words: &[&str],
    reader: &mut R,
    out: &mut W,
    err: &mut E,
    shows_progress: bool,
) -> ExitCode
    ensures { IsRunOf (texts words.entry.now)
        (streams (R.remaining reader.old) (R.remaining reader.new) (W.contents out.old) (W.contents out.new))
        (exit_status result) }
{
    ExitCode::from(run(rt, system, words, reader, out, err, shows_progress))
}
