//! The whole program, over any reader and writers.
ghost use Rattle.clap.specs.Walk.{texts};
ghost use Rattle.std.specs.Prelude.{◌≡◌, ◌≤◌, ℕ, IfErr, IfOk, IfSome, None, Ok, OnOk, string_bytes};
ghost use Rattle.tor_explain.specs.Plain.{IsPlainText};
ghost use Rattle.std.specs.Io.KnownBytes.{Appends};
ghost use Rattle.tor_spec.specs.Output.{IsFront};
ghost use Rattle.tor_cli.specs.Run.{Does, DoesAsked, IsRunOf, Stops, StopsAsked};
ghost use Rattle.tor_cli.specs.steps.Ending.{done_of, status_after};
ghost use Rattle.tor_cli.specs.Streams.{streams};
ghost use Rattle.tor_cli.specs.declared.answer.Answer.TheVariants.{Yes};
ghost use Rattle.tor_cli.specs.declared.fault.Fault.TheVariants.{Write as WriteFault};

use crate::answer::Answer;
use crate::check::telling::{Telling, tell_torrent};
use crate::command::{Request, read_words};
use crate::edit::command::edit;
use crate::explain::{asks_why, reason_for_no, reason_of};
use crate::fault::Fault;
use crate::lots::join::join;
use crate::lots::lot::lot;
use crate::lots::plan::plan;
use crate::make::command::make;
use crate::proof::prove::prove;
use crate::proof::verify::verify;
use crate::recheck::command::recheck;
use crate::recheck::extra::tell_extra;
use crate::recheck::lot::recheck_part;
use crate::scan::command::scan;
use std::io::{Read, Write};
use std::sync::Wait;
use std::thread::Threads;
use tor_spec::write_out;

/// Does what the words ask for; the first word is the program's name. Answers the status: 0 done, 1 refused or answered
/// by no, 2 usage, 3 a read or write fault, 4 memory or a thread refused. A fault is one line on `err`; on a terminal,
/// or if it is asked for, a second one says where and why. If `shows_progress`, standard error is a terminal, and shows
/// how far the reading of PATH is.
pub fn run<T: Threads + Wait + Sync + Send + Clone + Drop + 'static, R: Read, W: Write, E: Write>(
    rt: &T,
    system: &HostRuntime,
    words: &[&str],
    reader: &mut R,
    out: &mut W,
    err: &mut E,
    shows_progress: bool,
) -> u8
    ensures { IsRunOf (texts words.entry.now)
        (streams (R.remaining reader.old) (R.remaining reader.new) (W.contents out.old) (W.contents out.new)) result }
{
    let mut reason = None;
    let outcome = answer(rt, system, words, reader, out, shows_progress, &mut reason);
    let status = tell(&outcome, err);
    tell_reason(&reason, err);
    status
}

/// Does what the words ask for. If that stops, the reason is told on a terminal, and to whoever asks for it.
fn answer<T: Threads + Wait + Sync + Send + Clone + Drop + 'static, R: Read, W: Write>(
    rt: &T,
    system: &HostRuntime,
    words: &[&str],
    reader: &mut R,
    out: &mut W,
    shows_progress: bool,
    reason: &mut Option<String>,
) -> Result<Answer, Fault>
    requires { reason.old ≡ None }
    ensures plain { IfSome reason.new (λ text. IsPlainText (string_bytes text)) }
    ensures done { IfOk result (DoesAsked (texts words.entry.now)
        (streams (R.remaining reader.old) (R.remaining reader.new) (W.contents out.old) (W.contents out.new))) }
    ensures stopped { IfErr result (StopsAsked (texts words.entry.now)
        (streams (R.remaining reader.old) (R.remaining reader.new) (W.contents out.old) (W.contents out.new))) }
{
    let request = read_words(rt, system.alloc(), words)?;
    let explains = shows_progress || asks_why(words);
    match perform(rt, system, &request, reader, out, shows_progress) {
        Ok(Answer::Yes) => Ok(Answer::Yes),
        Ok(Answer::No) => {
            if explains {
                *reason = reason_for_no(system, &request);
            }
            Ok(Answer::No)
        }
        Err(fault) => {
            if explains {
                *reason = reason_of(system, &request, &fault);
            }
            Err(fault)
        }
    }
}

/// Does what was asked for.
fn perform<T: Threads + Wait + Sync + Send + Clone + Drop + 'static, R: Read, W: Write>(
    rt: &T,
    system: &HostRuntime,
    request: &Request<'_>,
    reader: &mut R,
    out: &mut W,
    shows_progress: bool,
) -> Result<Answer, Fault>
    ensures done { IfOk result (λ answer. Does request.now answer
        (streams (R.remaining reader.old) (R.remaining reader.new) (W.contents out.old) (W.contents out.new))) }
    ensures stopped { IfErr result (Stops request.now (streams (R.remaining reader.old) (R.remaining reader.new)
        (W.contents out.old) (W.contents out.new))) }
{
    match request {
        Request::Show(text) => done(show(text, out)),
        Request::Make(options) => done(make(rt, system, options, reader, out, shows_progress)),
        Request::Plan(options) => done(plan(system, options, reader, out)),
        Request::Lot(options) => done(lot(rt, system, options, out, shows_progress)),
        Request::Join(options) => done(join(system, options, out)),
        Request::Edit(options) => done(edit(system, options, out)),
        Request::Scan(options) => scan(system, options, reader, out),
        Request::Check(options) => done(tell_torrent(
            system,
            options.torrent,
            options.telling,
            out,
        )),
        Request::Magnet(options) => done(tell_torrent(
            system,
            options.torrent,
            Telling::Link(options.words),
            out,
        )),
        Request::Prove(options) => done(prove(system, options, out)),
        Request::Verify(options) => verify(system, options, out),
        Request::Recheck(options) => recheck(rt, system, options, out, shows_progress),
        Request::RecheckLot(options) => recheck_part(rt, system, options, out, shows_progress),
        Request::Extra(options) => tell_extra(system, options, out),
    }
}

/// Writes a text.
fn show<W: Write>(text: &String, out: &mut W) -> Result<(), Fault>
    ensures done { OnOk result (Appends (W.contents out.old) (W.contents out.new) (string_bytes text.now)) }
    ensures stopped { IfErr result (λ fault. (written : ℕ) × (fault ≡ WriteFault written)
        × IsFront (W.contents out.old) (W.contents out.new) written (string_bytes text.now)) }
{
    Ok(write_out(out, text.as_bytes())?)
}

/// What asks nothing is answered by yes.
fn done(outcome: Result<(), Fault>) -> Result<Answer, Fault>
    ensures { result ≡ done_of outcome }
{
    match outcome {
        Ok(()) => Ok(Answer::Yes),
        Err(fault) => Err(fault),
    }
}

/// Tells what came of it: a fault in one line, and the status.
fn tell<E: Write>(outcome: &Result<Answer, Fault>, err: &mut E) -> u8
    ensures value { result ≡ status_after outcome.now }
    ensures done { result ≡ 0 → outcome.now ≡ Ok Yes }
    ensures within { result ≤ 4 }
{
    match outcome {
        Ok(answer) => answer.status(),
        Err(fault) => {
            // If nobody reads the line, the status still tells.
            let _ = writeln!(err, "tor: {fault}");
            fault.status()
        }
    }
}

/// Tells why it stopped, in one line.
fn tell_reason<E: Write>(reason: &Option<String>, err: &mut E)
    requires { IfSome reason.now (λ text. IsPlainText (string_bytes text)) }
{
    if let Some(text) = reason {
        // Nobody may read this one either.
        let _ = writeln!(err, "tor: {text}");
    }
}
