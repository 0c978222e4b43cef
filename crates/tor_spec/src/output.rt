//! All of some bytes into a writer, or how many of them came to it.
ghost use Rattle.std.specs.Prelude.{◌≡◌, ◌<◌, length, take, OnOk, IfErr};
ghost use Rattle.std.specs.Io.KnownBytes.{Appends};

use std::io::{Error, Write};

/// Why not all bytes went out.
#[derive(Debug, Drop)]
pub struct WriteFault {
    /// How many bytes went out, from the first on.
    pub written: u64,
    /// The fault of the write that ended it; none if a write took no byte.
    pub fault: Option<Error>,
}

/// Writes the bytes, in as many writes as the writer needs. The first fault of a write ends it, an interrupted
/// write too, and so does a write that takes no byte.
pub fn write_out<W: Write>(writer: &mut W, bytes: &[u8]) -> Result<(), WriteFault>
    ensures ok { OnOk result (Appends (W.contents writer.old) (W.contents writer.new) bytes.now) }
    ensures part { IfErr result (λ e. e.written < length bytes.now) }
    ensures err { IfErr result (λ e.
        Appends (W.contents writer.old) (W.contents writer.new) (take e.written bytes.now)) }
{
    let mut written = 0;
    while written < bytes.len() {
        let (_, rest) = bytes.split_at(written);
        match writer.write(rest) {
            Ok(0) => return Err(write_fault(written, None)),
            Ok(count) => written += count,
            Err(fault) => return Err(write_fault(written, Some(fault))),
        }
    }
    Ok(())
}

fn write_fault(written: usize, fault: Option<Error>) -> WriteFault
    ensures { result.written ≡ written }
{
    WriteFault {
        written: written as u64,
        fault,
    }
}
