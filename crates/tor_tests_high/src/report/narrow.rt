//! A writer that takes few bytes a call, and not all.
use std::alloc::Global;
use std::io::{Error, ErrorKind, Result, Write};

/// A writer that takes at most `step` bytes a call and `room` in all, and then faults.
#[derive(Drop)]
pub struct Narrow {
    pub written: Vec<u8>,
    step: usize,
    room: usize,
}

impl Write for Narrow {
    fn write(&mut self, buf: &[u8]) -> Result<usize> {
        let count = buf
            .len()
            .min(self.step)
            .min(self.room.saturating_sub(self.written.len()));
        if count == 0 {
            return Err(Error::from(ErrorKind::Other));
        }
        self.written.extend_from_slice(&buf[..count])?;
        Ok(count)
    }

    fn flush(&mut self) -> Result<()> {
        Ok(())
    }
}

/// Such a writer, which has nothing.
pub fn narrow_writer(alloc: Global, step: usize, room: usize) -> Narrow {
    Narrow {
        written: Vec::new(alloc),
        step,
        room,
    }
}
