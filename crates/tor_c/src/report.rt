//! A text in the room that a caller has for it.
ghost use Rattle.std.specs.Prelude.{◌≡◌, ◌++◌, drop, length, nat_le, if◌then◌else◌};
ghost use Rattle.tor_c.specs.Reports.{IsReported};
ghost use Rattle.tor_c.specs.steps.Told.{told_bytes};
ghost use Rattle.tor_c.specs.declared.TheConstants.{ACCEPTED, NO_ROOM};

use crate::numbers::refusal_number;
use crate::outcome::PloverOutcome;
use crate::{ACCEPTED, NO_ROOM};
use tor_check::Refusal;

/// Writes the text that is told, if there is room for it, and what is told beside it. Answers the number of what came.
pub fn report(told: Result<Vec<u8>, Refusal>, room: &mut [u8], outcome: &mut PloverOutcome) -> u32
    ensures { IsReported (told_bytes told) room.old room.new outcome.new result }
{
    match told {
        Ok(text) => {
            *outcome = PloverOutcome::of_text(text.len());
            put(&text, room)
        }
        Err(refusal) => {
            *outcome = PloverOutcome::of_refusal(&refusal);
            refusal_number(&refusal)
        }
    }
}

/// Writes a text in front of the room if it is not longer.
fn put(text: &[u8], room: &mut [u8]) -> u32
    ensures answer { result ≡ (if nat_le (length text.now) (length room.old) then ACCEPTED else NO_ROOM) }
    ensures written { room.new ≡ (if nat_le (length text.now) (length room.old)
        then text.now ++ drop (length text.now) room.old else room.old) }
{
    if text.len() > room.len() {
        return NO_ROOM;
    }
    room[..text.len()].copy_from_slice(text);
    ACCEPTED
}
