//! What takes the bytes of a text.
ghost use Rattle.std.specs.Prelude.{◌<◌, ◌≡◌, List, ℕ, IfErr, OnOk, ⊤, length, take};
ghost use Rattle.std.specs.Io.KnownBytes.{Appends};
ghost use Rattle.tor_report.specs.Writers.{writer_is_sink};
ghost use Rattle.tor_report.specs.Sinks.{IsSink};

use std::io::Write;
use tor_spec::{WriteFault, write_out};

/// What takes the bytes of a text: a writer, or what has its own reasons to take no more.
pub trait Sink {
    /// From the one state to the other it took these bytes.
    ghost took: { Self → Self → List ℕ → Type 0 };

    /// In this state it cannot take these bytes whole.
    ghost fails: { Self → List ℕ → Type 0 };

    ghost lawful: { IsSink took fails };

    /// Takes the bytes, or so many of them from the first on.
    fn send(&mut self, bytes: &[u8]) -> Result<(), WriteFault>
        ensures whole { OnOk result (took self.old self.new bytes.now) }
        ensures part { IfErr result (λ fault. fault.written < length bytes.now) }
        ensures front { IfErr result (λ fault. took self.old self.new (take fault.written bytes.now)) }
        ensures why { IfErr result (λ _. fails self.old bytes.now) };
}

/// A writer may fail at any byte.
impl<W: Write> Sink for W {
    ghost took = { λ old new bytes. Appends (W.contents old) (W.contents new) bytes };

    ghost fails = { λ _ _. ⊤ };

    ghost lawful = { writer_is_sink W.contents };

    fn send(&mut self, bytes: &[u8]) -> Result<(), WriteFault> {
        write_out(self, bytes)
    }
}
