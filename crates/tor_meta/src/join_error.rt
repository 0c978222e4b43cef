//! Why lots are not joined.
ghost use Rattle.std.specs.Prelude.{◌≡◌};
ghost use Rattle.tor_meta.specs.declared.join_error.JoinError.TheVariants.{Memory};

use crate::listing_error::PlanError;
use std::alloc::AllocError;
use thiserror::Error;

/// Why no torrent is joined of a plan and lots; of the texts in their order the first that has one of `NoPart` to
/// `Length`, and of that text the first that holds. A text is named by its index.
#[derive(Debug, Drop, Error)]
pub enum JoinError {
    /// The plan's bytes are those of none, or of one of which no torrent is made.
    #[error("J1 Plan")]
    Plan(PlanError),
    /// They are the bytes of no lot.
    #[error("J2 NoPart")]
    NoPart { word: usize },
    /// Its lot is of a plan with another digest.
    #[error("J3 OtherPlan")]
    OtherPlan { word: usize },
    /// It is one of another number of lots than the first.
    #[error("J4 OtherParts")]
    OtherParts { word: usize },
    /// Its number is that of an earlier one.
    #[error("J5 Twice")]
    Twice { word: usize },
    /// It has not as many hashes, or sums, as its units have pieces.
    #[error("J6 Length")]
    Length { word: usize },
    /// No text is the lot of these numbers, which rise.
    #[error("J7 Missing")]
    Missing { lots: Vec<u32> },
    /// Memory was refused.
    #[error("out of memory")]
    Memory,
}

impl From<AllocError> for JoinError {
    ghost from_gives = { λ _ e. e ≡ Memory };

    fn from(_error: AllocError) -> JoinError {
        JoinError::Memory
    }
}
