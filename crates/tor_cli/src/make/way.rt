//! Who hashes, and by how many the files are looked at once more.
ghost use Rattle.std.specs.Prelude.{◌≡◌};
ghost use Rattle.tor_cli.specs.Words.{how_of};
ghost use Rattle.tor_sums.specs.How.{workers_of};

use tor_engine::How;

/// Who hashes.
#[derive(Clone, Copy)]
pub enum Way {
    /// Workers that read what they hash.
    Shared(How),
    /// So many workers, behind one thread that reads file after file for them.
    Streams(u32),
}

/// The workers of an order. Behind streams there is no board: of its `how` only the number of workers is asked for.
pub fn how_of(way: Way) -> How
    ensures { result ≡ how_of way }
{
    match way {
        Way::Shared(how) => how,
        Way::Streams(workers) => How::Board(workers),
    }
}

/// How many workers look for the pieces of a torrent that was just made: as many as hashed its files.
pub fn workers_after(way: Way) -> u32
    ensures { result ≡ workers_of (how_of way) }
{
    how_of(way).workers()
}
