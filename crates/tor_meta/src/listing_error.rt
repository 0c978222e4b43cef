//! Why there is no listing, and no plan.
ghost use Rattle.std.specs.Prelude.{◌≡◌};
ghost use Rattle.tor_meta.specs.declared.listing_error.ListingError.TheVariants.{Contents};
ghost use Rattle.tor_meta.specs.declared.refusals.ContentsError.TheVariants.{Memory};

use crate::refusals::ContentsError;
use std::alloc::AllocError;
use thiserror::Error;

/// Why no torrent is made of a head and files; the first of these that holds, with [`Span`](ListingError::Span) after
/// the refusal of the piece length, and [`NotSorted`](ListingError::NotSorted) after all others.
#[derive(Debug, Drop, Error)]
pub enum ListingError {
    /// No power of two from 1 to 1,024.
    #[error("M3 Span")]
    Span,
    /// A path is not below the next.
    #[error("M6 NotSorted")]
    NotSorted,
    /// The refusal of the head, the paths or the lengths; or memory was refused.
    #[error(transparent)]
    Contents(ContentsError),
}

impl From<AllocError> for ListingError {
    ghost from_gives = { λ _ e. e ≡ Contents Memory };

    fn from(_error: AllocError) -> ListingError {
        ListingError::Contents(ContentsError::Memory)
    }
}

/// Why bytes are not those of a plan that is accepted.
#[derive(Debug, Drop, Error)]
pub enum PlanError {
    /// They are those of no plan.
    #[error("not a plan")]
    NotAPlan,
    /// They are those of a plan of which no torrent is made.
    #[error(transparent)]
    Refused(ListingError),
    /// Memory was refused.
    #[error("out of memory")]
    Memory,
}
