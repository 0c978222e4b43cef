//! Numbers in base ten.
ghost use Rattle.std.specs.Prelude.{◌≡◌, IfErr, OnOk, decimal};
ghost use Rattle.tor_report.specs.Put.{Puts, Stops};

use crate::buffer::Buffer;
use crate::sink::Sink;
use itoa::Buffer as Digits;
use tor_spec::WriteFault;

impl Buffer {
    /// Puts a number in base ten.
    pub fn put_number<S: Sink>(&mut self, out: &mut S, number: u64) -> Result<(), WriteFault>
        ensures put { OnOk result
            (Puts S.took (decimal number) out.old self.old out.new self.new) }
        ensures stopped { IfErr result (λ fault.
            Stops S.took S.fails (decimal number) out.old self.old out.new fault.written) }
    {
        self.put(out, Digits::new().format(number).as_bytes())
    }
}
