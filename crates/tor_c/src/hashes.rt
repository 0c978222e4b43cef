//! The info hashes of a torrent.
ghost use Rattle.std.specs.Prelude.{◌≡◌};
ghost use Rattle.tor_c.specs.Proofs.{AnswersUnlessMemory};
ghost use Rattle.tor_c.specs.Reports.{AreHashesOf, hashes_for_c};
ghost use Rattle.tor_c.specs.declared.TheConstants.{ACCEPTED};
ghost use Rattle.tor_spec.specs.valid.Conditions.{IsValid};

use crate::ACCEPTED;
use crate::numbers::refusal_number;
use crate::outcome::PloverOutcome;
use std::alloc::Global;
use tor_merkle::Hash;
use tor_report::torrent_with_hashes;
use tor_spec::Hashes;

/// The info hashes of a torrent (BEP 3, "info_hash"; BEP 52, "infohash").
#[repr(C)]
#[derive(Clone, Copy)]
pub struct PloverHashes {
    /// Whether there is a hash of version 1, and which; else zeros.
    pub has_v1: bool,
    pub v1: [u8; 20],
    /// Whether there is one of version 2, and which; else zeros.
    pub has_v2: bool,
    pub v2: Hash,
}

/// Judges the bytes of a torrent, and tells its info hashes. If the bytes are no torrent, the hashes stay as they are,
/// and the answer is the number of the refusal.
#[unsafe(no_mangle)]
pub extern "C" fn plover_info_hashes(
    alloc: Global,
    torrent: &[u8],
    hashes: &mut PloverHashes,
    outcome: &mut PloverOutcome,
) -> u32
    ensures told { AreHashesOf torrent.now hashes.old hashes.new outcome.new result }
    ensures only { IsValid torrent.now → AnswersUnlessMemory ACCEPTED result }
{
    match torrent_with_hashes(alloc, torrent) {
        Ok(judged) => {
            *hashes = PloverHashes::of(&judged.hashes);
            *outcome = PloverOutcome::of_text(0);
            ACCEPTED
        }
        Err(refusal) => {
            *outcome = PloverOutcome::of_refusal(&refusal);
            refusal_number(&refusal)
        }
    }
}

impl PloverHashes {
    /// These hashes, with zeros for one that there is not.
    fn of(hashes: &Hashes) -> PloverHashes
        ensures { result ≡ hashes_for_c hashes.now }
    {
        PloverHashes {
            has_v1: hashes.v1.is_some(),
            v1: hashes.v1.unwrap_or([0; 20]),
            has_v2: hashes.v2.is_some(),
            v2: hashes.v2.unwrap_or([0; 32]),
        }
    }
}
