//! The time that has gone since a moment.
use std::time::Instant;

/// The time that has gone since it was started. It is all that can be had of the system that it keeps.
#[derive(Drop)]
pub struct Watch {
    system: HostRuntime,
    start: Instant,
}

impl Watch {
    /// From now on; none if the clock does not tell the time.
    pub fn start(system: &HostRuntime) -> Option<Watch> {
        Some(Watch {
            system: *system,
            start: Instant::now(system).ok()?,
        })
    }

    /// The milliseconds that have gone; none if the clock does not tell the time.
    pub fn milliseconds(&self) -> Option<u64> {
        let elapsed = self.start.elapsed(&self.system).ok()?;
        let seconds = elapsed.as_secs().saturating_mul(1000);
        Some(seconds.saturating_add(u64::from(elapsed.subsec_millis())))
    }
}
