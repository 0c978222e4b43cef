//! The magnet link of a torrent.
ghost use Rattle.tor_c.specs.Reports.{IsNotRefused, IsReportOf, IsToldOf, magnet_text};
ghost use Rattle.tor_c.specs.steps.Told.{told_bytes};
ghost use Rattle.tor_spec.specs.valid.Conditions.{IsValid};

use crate::outcome::PloverOutcome;
use crate::report::report;
use std::alloc::Global;
use tor_check::Refusal;
use tor_report::torrent_with_hashes;
use tor_spec::magnet;

/// Judges the bytes of a torrent, and writes its magnet link into `room`, without a line feed (BEP 9, "magnet URI
/// format"). What is told otherwise is told as by [`crate::check::plover_check`].
#[unsafe(no_mangle)]
pub extern "C" fn plover_magnet(
    alloc: Global,
    torrent: &[u8],
    room: &mut [u8],
    outcome: &mut PloverOutcome,
) -> u32
    ensures told { IsReportOf magnet_text torrent.now room.old room.new outcome.new result }
    ensures only { IsValid torrent.now → IsNotRefused result }
{
    report(link_of(alloc, torrent), room, outcome)
}

/// The magnet link of the torrent that the bytes are.
fn link_of(alloc: Global, bytes: &[u8]) -> Result<Vec<u8>, Refusal>
    ensures { IsToldOf magnet_text bytes.now (told_bytes result) }
{
    let judged = match torrent_with_hashes(alloc, bytes) {
        Ok(judged) => judged,
        Err(refusal) => return Err(refusal),
    };
    Ok(magnet(alloc, &judged.hashes)?.into_bytes())
}
