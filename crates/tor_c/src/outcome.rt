//! What is told beside an answer.
ghost use Rattle.std.specs.Prelude.{◌≡◌};
ghost use Rattle.tor_c.specs.Reports.{of_refusal, of_text};

use crate::numbers::fault_number;
use tor_check::Refusal;

/// What is told beside an answer. Each number is 0 if the answer has none.
#[repr(C)]
#[derive(Clone, Copy)]
pub struct PloverOutcome {
    /// The bytes of the text that is asked for. They were written if the answer is `ACCEPTED`, and are wanted if it is
    /// `NO_ROOM`.
    pub length: usize,
    /// Of `V1`: the offset of the first fault in bytes.
    pub offset: usize,
    /// Of `V1`: the number of its code, 1 of `B1`.
    pub fault: u32,
}

impl PloverOutcome {
    /// Of a torrent of which a text of so many bytes is told.
    pub fn of_text(length: usize) -> PloverOutcome
        ensures { result ≡ of_text length }
    {
        PloverOutcome {
            length,
            offset: 0,
            fault: 0,
        }
    }

    /// Of bytes that are refused.
    pub fn of_refusal(refusal: &Refusal) -> PloverOutcome
        ensures { result ≡ of_refusal refusal.now }
    {
        match refusal {
            Refusal::Bencode { fault, offset } => PloverOutcome {
                length: 0,
                offset: *offset,
                fault: fault_number(*fault),
            },
            _ => PloverOutcome::of_text(0),
        }
    }
}
