//! Hexadecimal digits.
ghost use Rattle.std.specs.Char.{digit_char};
ghost use Rattle.std.specs.Prelude.{◌≡◌, ◌<◌, ◌++◌, IfErr, OnOk, slice_index};
ghost use Rattle.hex.specs.Hex.{encode_lower, lower_digits};
ghost use Rattle.tor_report.specs.Put.{Puts, Stops};

use crate::buffer::Buffer;
use crate::sink::Sink;
use tor_spec::WriteFault;

impl Buffer {
    /// Puts bytes, as a hash, in lower-case hexadecimal digits.
    pub fn put_digits<S: Sink>(&mut self, out: &mut S, bytes: &[u8]) -> Result<(), WriteFault>
        ensures put { OnOk result
            (Puts S.took (encode_lower bytes.now) out.old self.old out.new self.new) }
        ensures stopped { IfErr result (λ fault.
            Stops S.took S.fails (encode_lower bytes.now) out.old self.old out.new fault.written) }
    {
        'bytes: for byte in bytes {
            self.put(out, &[digit(*byte / 16), digit(*byte % 16)])?;
        }
        Ok(())
    }
}

/// The digit of a value below 16.
pub(crate) fn digit(value: u8) -> u8
    requires { value < 16 }
    ensures digit { result ≡ digit_char value }
    ensures lower { result ≡ slice_index lower_digits value }
{
    const DIGITS: &[u8; 16] = b"0123456789abcdef";
    DIGITS[value as usize]
}
