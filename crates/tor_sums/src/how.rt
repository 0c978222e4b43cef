//! By how many workers files are hashed.
ghost use Rattle.std.specs.Prelude.{◌≡◌, ◌≤◌, ◌↔◌, IsTrue};
ghost use Rattle.tor_sums.specs.declared.how.TheConstants.{MAX_WORKERS};

/// The most workers that may share the hashing.
pub const MAX_WORKERS: u32 = 64;

/// How the units of a plan are shared among workers.
#[derive(Clone, Copy, Debug, PartialEq, Eq)]
pub enum How {
    /// The caller's thread takes them all, from a board with one seat.
    One,
    /// So many workers: the units are split in two, and again while there are workers; both halves are hashed at once.
    Halves(u32),
    /// So many workers, of whom each takes the next unit that nobody has taken.
    Board(u32),
}

impl How {
    ghost use Rattle.tor_sums.specs.How.{IsHow, is_how, workers_of};

    /// Whether so many workers may share the hashing.
    pub fn is_allowed(self) -> bool
        ensures value { result ≡ is_how self }
        ensures allowed { IsTrue result ↔ IsHow self }
    {
        match self {
            How::One => true,
            How::Halves(workers) | How::Board(workers) => 1 <= workers && workers <= MAX_WORKERS,
        }
    }

    /// How many workers share the hashing; `One` is one.
    pub fn workers(self) -> u32
        ensures value { result ≡ workers_of self }
        ensures allowed { IsHow self → (1 ≤ result) × (result ≤ MAX_WORKERS) }
    {
        match self {
            How::One => 1,
            How::Halves(workers) | How::Board(workers) => workers,
        }
    }
}
