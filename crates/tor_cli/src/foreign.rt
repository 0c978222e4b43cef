//! A file of the system: its bytes.
ghost use Rattle.std.specs.Prelude.{◌≤◌, IfOk, vec_len};
ghost use Rattle.tor_source.specs.declared.input.TheConstants.{MAX_INPUT_LENGTH};

use std::alloc::{AllocError, Global};
use std::fs;
use std::rt::Files;
use tor_source::{InputFault, Intake, MAX_INPUT_LENGTH, read_limited, read_parts};

/// The bytes of the file `place`, at most `MAX_INPUT_LENGTH`. What cannot be opened or read is a fault of reading.
pub fn read_file<H: Files>(alloc: Global, system: &H, place: &str) -> Result<Vec<u8>, InputFault>
    ensures { IfOk result (λ bytes. vec_len bytes ≤ MAX_INPUT_LENGTH) }
{
    match fs::open(system, place) {
        Ok(mut file) => read_limited(alloc, &mut file, MAX_INPUT_LENGTH),
        Err(fault) => Err(InputFault::Read(fault)),
    }
}

/// The bytes of the file `place`, or the first of them, if it has more than `most`. All of it is read, with the faults
/// of `read_file`, but no more than these are held.
pub fn read_front<H: Files>(
    alloc: Global,
    system: &H,
    place: &str,
    most: usize,
) -> Result<Vec<u8>, InputFault>
    ensures within { IfOk result (λ bytes. vec_len bytes ≤ most) }
    ensures limited { IfOk result (λ bytes. vec_len bytes ≤ MAX_INPUT_LENGTH) }
{
    let mut front = Front {
        bytes: Vec::new(alloc),
        most,
    };
    match fs::open(system, place) {
        Ok(mut file) => read_parts(alloc, &mut file, MAX_INPUT_LENGTH, &mut front)?,
        Err(fault) => return Err(InputFault::Read(fault)),
    }
    Ok(front.bytes)
}

/// The bytes of the file `place`, which is to be a text; of one that is none, since it has a zero byte, those up to the
/// first of these. All of it is read, with the faults of `read_file`, but no more than these are held.
pub fn read_text<H: Files>(alloc: Global, system: &H, place: &str) -> Result<Vec<u8>, InputFault>
    ensures { IfOk result (λ bytes. vec_len bytes ≤ MAX_INPUT_LENGTH) }
{
    let mut text = Text {
        bytes: Vec::new(alloc),
        is_ended: false,
    };
    match fs::open(system, place) {
        Ok(mut file) => read_parts(alloc, &mut file, MAX_INPUT_LENGTH, &mut text)?,
        Err(fault) => return Err(InputFault::Read(fault)),
    }
    Ok(text.bytes)
}

/// Keeps the first bytes of an input.
#[derive(Drop)]
struct Front {
    bytes: Vec<u8>,
    most: usize,
    ghost within: { vec_len bytes ≤ most },
}

impl Intake for Front {
    ghost use Rattle.tor_cli.specs.Fronts.{KeepsFront, front_both, front_none};

    ghost takes = { KeepsFront };

    ghost may_take = { λ _ _. Unit {0} };

    ghost takes_none = { front_none };

    ghost takes_both = { front_both };

    fn take(&mut self, part: &[u8]) -> Result<(), AllocError> {
        let room = self.most - self.bytes.len();
        let (kept, _) = part.split_at(room.min(part.len()));
        self.bytes.extend_from_slice(kept)
    }
}

/// Keeps the bytes of an input up to its first zero byte, and that one.
#[derive(Drop)]
struct Text {
    bytes: Vec<u8>,
    is_ended: bool,
}

impl Intake for Text {
    ghost use Rattle.std.specs.Prelude.{vec_len};
    ghost use Rattle.tor_cli.specs.Fronts.{KeepsAtMost, keeps_both, keeps_none};

    ghost takes = { KeepsAtMost (λ text. vec_len text.bytes) };

    ghost may_take = { λ _ _. Unit {0} };

    ghost takes_none = { keeps_none (λ text. vec_len text.bytes) };

    ghost takes_both = { keeps_both (λ text. vec_len text.bytes) };

    fn take(&mut self, part: &[u8]) -> Result<(), AllocError> {
        if self.is_ended {
            return Ok(());
        }
        match part.iter().position(|byte| *byte == 0) {
            Some(last) => {
                self.is_ended = true;
                let (kept, _) = part.split_at(last + 1);
                self.bytes.extend_from_slice(kept)
            }
            None => self.bytes.extend_from_slice(part),
        }
    }
}
