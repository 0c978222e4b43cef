//! A law over the limit.
ghost use Rattle.std.specs.Prelude.{◌^◌, ◌≡◌};
ghost use Rattle.tor_streams.specs.declared.streams.TheConstants.{MAX_UNIT_LENGTH};

/// The most bytes of a unit that goes through a lane.
pub fn limit_of_units()
    ensures { MAX_UNIT_LENGTH ≡ 2 ^ 30 }
{}
