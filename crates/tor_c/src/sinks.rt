//! Where the text goes that is told: it is counted, and then written into the caller's room.
ghost use Rattle.std.specs.Prelude.{◌^◌, ◌≤◌, ◌<◌, ◌+◌, length};
ghost use Rattle.tor_report.proofs.ProvedLaws.{count_is_sink, room_is_sink};

use tor_report::Sink;
use tor_spec::WriteFault;

/// Counts bytes.
#[derive(Drop)]
pub struct Count {
    pub bytes: usize,
}

impl Sink for Count {
    ghost use Rattle.tor_c.specs.Sinks.{bytes_of, Counts, IsTooMany};

    ghost took = { Counts };

    ghost fails = { IsTooMany };

    ghost lawful = { count_is_sink bytes_of };

    fn send(&mut self, bytes: &[u8]) -> Result<(), WriteFault> {
        match self.bytes.checked_add(bytes.len()) {
            Some(count) => {
                self.bytes = count;
                Ok(())
            }
            None => Err(WriteFault {
                written: 0,
                fault: None,
            }),
        }
    }
}

/// Room for bytes, which has some in front.
#[derive(Drop)]
pub struct CallerRoom<'a> {
    pub room: &'a mut [u8],
    /// How many.
    pub filled: usize,
    ghost within: { filled ≤ length room.now },
    ghost small: { length room.now < 2 ^ 64 },
}

impl<'a> Sink for CallerRoom<'a> {
    ghost use Rattle.tor_c.specs.Sinks.{filled_of, Fills, HasNoRoom, is_within, is_small, room_of};

    ghost took = { Fills };

    ghost fails = { HasNoRoom };

    ghost lawful = { room_is_sink (λ room. room.room.ghost_name) filled_of room_of is_within is_small };

    fn send(&mut self, bytes: &[u8]) -> Result<(), WriteFault> {
        if bytes.len() > self.room.len() - self.filled {
            return Err(WriteFault {
                written: 0,
                fault: None,
            });
        }
        let end = self.filled + bytes.len();
        self.room[self.filled..end].copy_from_slice(bytes);
        self.filled = end;
        Ok(())
    }
}
