//! That not all bytes went out.
use std::io::Error;
use std::marker::Model;
use tor_spec::WriteFault;

/// How many bytes went out before a write failed, and why it did, if the system told. Contracts see the number.
#[derive(Drop)]
pub struct Unwritten {
    written: u64,
    reason: Option<Error>,
}

impl Model for Unwritten {
    ghost use Rattle.std.specs.Prelude.{ℕ};

    ghost Value = { ℕ };

    ghost view = { λ stop. stop.written };
}

impl Unwritten {
    ghost use Rattle.std.specs.Prelude.{◌≡◌};

    /// What a fault of a writer tells.
    pub fn of(fault: WriteFault) -> Unwritten
        ensures { result ≡ fault.written }
    {
        Unwritten {
            written: fault.written,
            reason: fault.fault,
        }
    }

    /// That no byte would go out, for this reason.
    pub fn before_all(reason: Error) -> Unwritten
        ensures { result ≡ 0 }
    {
        Unwritten {
            written: 0,
            reason: Some(reason),
        }
    }

    /// How many bytes went out.
    pub fn written(&self) -> u64
        ensures { result ≡ self.now }
    {
        self.written
    }

    /// Why no more did; none if a write took no byte.
    pub fn reason(&self) -> &Option<Error> {
        &self.reason
    }
}
