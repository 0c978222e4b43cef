//! Laws over the limits.
ghost use Rattle.std.specs.Prelude.{◌+◌, ◌^◌, ◌≡◌};
ghost use Rattle.tor_sums.specs.declared.how.TheConstants.{MAX_WORKERS};
ghost use Rattle.tor_sums.specs.declared.room.TheConstants.{BATCH, LEAST_ASKED, MOST_HELD};

/// The most workers that may share the hashing.
pub fn limit_of_workers()
    ensures { MAX_WORKERS ≡ 64 }
{}

/// The limits of a worker's buffer, in bytes: how many it asks for at least, how many are hashed together, and how many
/// it holds at most.
pub fn limits_of_buffers()
    ensures asked { LEAST_ASKED ≡ 2 ^ 16 }
    ensures together { BATCH ≡ 2 ^ 20 }
    ensures held { MOST_HELD ≡ 2 ^ 27 + 2 ^ 16 }
{}
