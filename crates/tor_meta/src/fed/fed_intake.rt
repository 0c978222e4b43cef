//! The sums of a content that is fed in parts take an input as it is read.
ghost use Rattle.std.specs.Prelude.{◌+◌, ◌≤◌};
ghost use Rattle.tor_merkle.specs.declared.TheConstants.{MAX_LENGTH};
ghost use Rattle.tor_meta.specs.Fed.{count_of};
ghost use Rattle.tor_meta.specs.FedIntake.{fed_both, fed_none, takes_fed};

use crate::fed::FedSums;
use std::alloc::AllocError;
use tor_source::Intake;

/// Sums the bytes up, and keeps none of them.
impl Intake for FedSums {
    ghost takes = { takes_fed };

    ghost may_take = { λ s n. count_of s + n ≤ MAX_LENGTH };

    ghost takes_none = { fed_none };

    ghost takes_both = { fed_both };

    fn take(&mut self, part: &[u8]) -> Result<(), AllocError> {
        self.feed(part)
    }
}
