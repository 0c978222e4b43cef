//! `tor make --check-after`: whether its files have each piece of a torrent that was just made of them.
ghost use Rattle.std.specs.Prelude.{◌≡◌, ◌≢◌, IfErr, OnOk};
ghost use Rattle.tor_cli.specs.make.CheckAfter.{IsAsMade, IsNotAsMade};
ghost use Rattle.tor_cli.specs.declared.fault.Fault.TheVariants.{NotAsMade};

use crate::fault::Fault;
use crate::progress::{Counting, Progress, erase};
use crate::recheck::counts::{PieceCounts, count_pieces};
use crate::recheck::source::{Links, placed_at};
use std::thread::Threads;

/// Judges the torrent that the bytes are, and looks by so many workers for each piece of it at a place, as `recheck`
/// does: a fault if not all are there and right. The progress that is shown meanwhile is erased at the end.
pub fn check_after<T: Threads + Sync>(
    rt: &T,
    system: &HostRuntime,
    place: &str,
    bytes: &[u8],
    workers: u32,
    shows_progress: bool,
) -> Result<(), Fault>
    ensures kept { OnOk result (IsAsMade bytes.now) }
    ensures stopped { IfErr result (IsNotAsMade workers bytes.now) }
{
    let placed = match placed_at(system, place, bytes, Links::Followed) {
        Ok(placed) => placed,
        Err(fault) => return Err(fault),
    };
    let torrent = &placed.judged.torrent;
    let progress = Progress::shown(system, torrent.files().len(), shows_progress);
    let counting = Counting {
        source: &placed.source,
        files: torrent.files(),
        progress: &progress,
    };
    let counted = count_pieces(rt, system.alloc(), &counting, torrent, workers);
    erase(&progress);
    match counted {
        Ok(counts) => all_good(counts),
        Err(error) => Err(Fault::from(error)),
    }
}

/// Whether all pieces are there and right.
fn all_good(counts: PieceCounts) -> Result<(), Fault>
    ensures kept { OnOk result (counts.good ≡ counts.pieces) }
    ensures refused { IfErr result (λ fault. (fault ≡ NotAsMade counts.good counts.pieces)
        × (counts.good ≢ counts.pieces)) }
{
    if counts.are_all_good() {
        return Ok(());
    }
    Err(Fault::NotAsMade {
        good: counts.good,
        pieces: counts.pieces,
    })
}
