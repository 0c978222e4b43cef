//! A text on its way to a sink.
ghost use Rattle.std.specs.Prelude.{◌≡◌, ◌+◌, ◌++◌, ◌≤◌, [], List, ℕ, IfErr, IfOk, OnOk, length, vec_capacity};
ghost use Rattle.std.specs.Prelude.{vec_len};
ghost use Rattle.tor_report.specs.Put.{IsCut, IsFresh, IsPut, Puts, Stops};
ghost use Rattle.tor_report.specs.Sinks.{IsStopped};

use crate::sink::Sink;
use std::alloc::{AllocError, Global};
use tor_spec::WriteFault;

/// How many bytes of a text are held back.
const ROOM: usize = 65_536;

/// The end of a text that is put part by part, until it goes to a sink. All its memory is taken when it is made.
///
/// All parts of a text go to one sink. After a fault the buffer is of no use.
#[derive(Drop)]
pub struct Buffer {
    held: Vec<u8>,
    /// How many bytes of the text went to the sink.
    sent: u64,
}

impl Buffer {
    /// A buffer of no text.
    pub fn new(alloc: Global) -> Result<Buffer, AllocError>
        ensures { IfOk result IsFresh }
    {
        let held = Vec::with_capacity(alloc, ROOM)?;
        Ok(Buffer { held, sent: 0 })
    }

    /// Puts more of the text. What the buffer has no room for goes to the sink.
    pub fn put<S: Sink>(&mut self, out: &mut S, text: &[u8]) -> Result<(), WriteFault>
        ensures put { OnOk result
            (Puts S.took text.now out.old self.old out.new self.new) }
        ensures stopped { IfErr result (λ fault.
            Stops S.took S.fails text.now out.old self.old out.new fault.written) }
    {
        if text.len() <= self.room() {
            self.keep(text);
            return Ok(());
        }
        self.send_held(out)?;
        if text.len() <= self.room() {
            self.keep(text);
            return Ok(());
        }
        self.send_past(out, text)
    }

    /// Ends the text: the rest of it goes to the sink.
    pub fn end<S: Sink>(mut self, out: &mut S) -> Result<(), WriteFault>
        ensures whole { (start : S) → (text : List ℕ) → IsPut S.took start text out.old self →
            OnOk result (S.took start out.new text) }
        ensures stopped { (start : S) → (text : List ℕ) → IsPut S.took start text out.old self →
            IfErr result (λ fault. IsStopped S.took S.fails start out.new fault.written text) }
    {
        self.send_held(out)
    }

    fn room(&self) -> usize
        ensures { vec_len self.now.held + result ≤ vec_capacity self.now.held }
    {
        self.held.capacity() - self.held.len()
    }

    fn keep(&mut self, text: &[u8])
        requires { vec_len self.old.held + length text.now ≤ vec_capacity self.old.held }
        ensures held { self.new.held.items ≡ self.old.held.items ++ text.now }
        ensures sent { self.new.sent ≡ self.old.sent }
    {
        if self.held.extend_from_slice(text).is_err() {
            unreachable!();
        }
    }

    /// Sends what the buffer has.
    fn send_held<S: Sink>(&mut self, out: &mut S) -> Result<(), WriteFault>
        ensures put { OnOk result (Puts S.took [] out.old self.old out.new self.new) }
        ensures empty { OnOk result (self.new.held.items ≡ []) }
        ensures stopped { IfErr result (λ fault.
            Stops S.took S.fails [] out.old self.old out.new fault.written) }
    {
        match send(out, self.sent, &self.held) {
            Ok(sent) => self.sent = sent,
            Err(fault) => return Err(fault),
        }
        self.held.clear();
        Ok(())
    }

    /// Sends more of the text past the buffer, which has nothing.
    fn send_past<S: Sink>(&mut self, out: &mut S, text: &[u8]) -> Result<(), WriteFault>
        requires { self.old.held.items ≡ [] }
        ensures put { OnOk result
            (Puts S.took text.now out.old self.old out.new self.new) }
        ensures stopped { IfErr result (λ fault.
            Stops S.took S.fails text.now out.old self.old out.new fault.written) }
    {
        match send(out, self.sent, text) {
            Ok(sent) => self.sent = sent,
            Err(fault) => return Err(fault),
        }
        Ok(())
    }
}

/// Sends bytes of a text after the `sent` bytes before them, and answers how many that makes. A count that does not fit
/// is a fault, before which none of them is sent.
fn send<S: Sink>(out: &mut S, sent: u64, bytes: &[u8]) -> Result<u64, WriteFault>
    ensures counted { IfOk result (λ count. count ≡ sent + length bytes.now) }
    ensures whole { OnOk result (S.took out.old out.new bytes.now) }
    ensures stopped { IfErr result (λ fault.
        IsCut S.took S.fails out.old sent bytes.now out.new fault.written) }
{
    let Some(count) = sent.checked_add(bytes.len() as u64) else {
        return Err(WriteFault {
            written: sent,
            fault: None,
        });
    };
    match out.send(bytes) {
        Ok(()) => Ok(count),
        Err(WriteFault { written, fault }) => Err(WriteFault {
            written: sent + written,
            fault,
        }),
    }
}
