//! Buffers that workers are done with, for the thread that reads. It waits for them while too many are held.
ghost use Rattle.std.specs.Prelude.{◌≡◌, ◌+◌, ◌-◌, ◌<◌, ◌≤◌, false, true, IfOk, vec_len};
ghost use Rattle.crossbeam_channel.specs.Claims.{IsSeatAt};
ghost use Rattle.crossbeam_channel.specs.Ends.{receives_on, sends_on};
ghost use Rattle.tor_streams.specs.declared.spares.TheConstants.{MOST_HELD};

use crossbeam_channel::protocol::{Free, Split};
use crossbeam_channel::{Pass, RuledReceiver, RuledSender, bounded_with};
use std::alloc::{AllocError, Global};
use std::sync::Wait;
use tor_source::zeros;

// So many bytes of units are held at most, or two units if those are longer.
const MOST_HELD: usize = 192 << 20;

/// Buffers that were given back. They go through a channel of their own, which takes no lock, and has a rule that asks
/// nothing: no clause says that none is lost. It has room for all that are about.
#[derive(Drop)]
pub(crate) struct Spares {
    from: RuledReceiver<Vec<u8>, (), Free>,
    pass: Pass<Vec<u8>, ()>,
    // Those that came out of it, the last on top, of whose bytes the most are still in the processor's cache.
    ready: Vec<Vec<u8>>,
    room: usize,
    // The length of those that are kept. A shorter one is let go when it comes back.
    unit: usize,
    // The bytes of all that were handed out and did not come back yet.
    lent: usize,
    ghost seated: { IsSeatAt (receives_on from) pass },
}

/// The end where a worker gives back.
#[derive(Drop)]
pub(crate) struct GiveBack {
    to: RuledSender<Vec<u8>, (), Free>,
    pass: Pass<Vec<u8>, ()>,
    ghost seated: { IsSeatAt (sends_on to) pass },
}

/// How one more end is made.
struct Another;

impl Split<()> for Another {
    ghost left = { λ _. tt };

    ghost right = { λ _. tt };
}

/// Both ends, with room for so many buffers, each of a unit of so many bytes.
pub(crate) fn pool(
    alloc: Global,
    room: usize,
    unit: usize,
) -> Result<(Spares, GiveBack), AllocError>
    requires { 0 < room }
{
    let (to, from, mut pass) = bounded_with::<Vec<u8>, (), Free, Global>(alloc, room)?;
    let own = to.another::<Another>(&mut pass);
    let ready = Vec::with_capacity(alloc, room)?;
    let spares = Spares {
        from,
        pass: own,
        ready,
        room,
        unit,
        lent: 0,
    };
    Ok((spares, GiveBack { to, pass }))
}

impl Spares {
    /// A buffer of this length for a full one that is handed out: the last that was given back, if there is one.
    pub(crate) fn another<T: Wait>(
        &mut self,
        rt: &T,
        alloc: Global,
        length: usize,
    ) -> Result<Vec<u8>, AllocError>
        ensures { IfOk result (λ buffer. vec_len buffer ≡ length) }
    {
        self.make_room(rt, length.saturating_mul(2));
        self.lent = self.lent.saturating_add(length);
        match self.ready.pop() {
            Some(buffer) if buffer.len() == length => Ok(buffer),
            _ => zeros(alloc, length),
        }
    }

    /// Lets one go, if there is one, for a copy of so many bytes that is handed out, so that no more is held.
    pub(crate) fn let_one_go<T: Wait>(&mut self, rt: &T, count: usize) {
        self.make_room(rt, self.unit.saturating_add(count));
        self.lent = self.lent.saturating_add(count);
        let _ = self.ready.pop();
    }

    // Takes what was given back. If none is ready then, and too much would be held with so many bytes beside what is
    // handed out, waits for more.
    fn make_room<T: Wait>(&mut self, rt: &T, beside: usize) {
        self.collect(rt);
        for _ in 0..self.room {
            if self.has_room(beside) {
                return;
            }
            match self.from.recv_as::<Free, T>(rt, &mut self.pass) {
                Ok(buffer) => self.take_back(buffer),
                Err(_) => return,
            }
        }
    }

    // Whether one is ready, or so many bytes may be held beside what is handed out. Two units always may.
    fn has_room(&self, beside: usize) -> bool
        ensures waits { vec_len self.now.ready ≡ 0 → 0 < self.now.lent → MOST_HELD < self.now.lent + beside →
            result ≡ false }
        ensures goes_on { self.now.lent ≡ 0 → result ≡ true }
        ensures reads_on { self.now.lent + beside ≤ MOST_HELD → result ≡ true }
    {
        !self.ready.is_empty() || self.lent == 0 || self.lent.saturating_add(beside) <= MOST_HELD
    }

    // Takes what was given back.
    fn collect<T: Wait>(&mut self, rt: &T) {
        for _ in 0..self.room {
            match self.from.try_recv_as::<Free, T>(rt, &mut self.pass) {
                Ok(buffer) => self.take_back(buffer),
                Err(_) => return,
            }
        }
    }

    // Takes one that was given back; if memory for it is refused it is let go.
    fn take_back(&mut self, buffer: Vec<u8>)
        ensures { self.new.lent ≡ self.old.lent - vec_len buffer }
    {
        self.lent = self.lent.saturating_sub(buffer.len());
        if buffer.len() == self.unit {
            let _ = self.ready.push(buffer);
        }
    }
}

impl GiveBack {
    /// This end once more.
    pub(crate) fn again(&mut self) -> Result<GiveBack, AllocError> {
        let to = self.to.try_clone()?;
        let pass = self.to.another::<Another>(&mut self.pass);
        Ok(GiveBack { to, pass })
    }

    /// Gives a buffer back. There is room for it, as long as no more are about than the pool was made for.
    pub(crate) fn give<T: Wait>(&mut self, rt: &T, buffer: Vec<u8>) {
        let _ = self.to.try_send_as::<Free, T>(rt, &mut self.pass, buffer);
    }
}
