//! Runs of eight whole pieces, which are hashed at once.

ghost use Rattle.std.specs.Prelude.{◌≡◌, ◌+◌, ◌*◌, ◌%◌, ◌^◌, ◌<◌, ◌≤◌, ◌++◌, length, vec_len, vec_capacity, true};
ghost use Rattle.std.specs.List.{flat_map};
ghost use Rattle.tor_v1.specs.Piece.{piece_sums};
ghost use Rattle.tor_v1.specs.steps.Runs.{HasRuns};

use sha1::DIGEST_LEN;
use tor_hashes::piece_hashes;

/// The most bytes of a piece that is hashed together with seven others, if they lie one after another.
pub const MAX_PIECE_IN_RUN: u64 = 1 << 24;

/// Whether pieces of so many bytes are taken in runs.
pub(crate) fn has_runs(piece_length: u64) -> bool
    ensures only { result ≡ true → HasRuns piece_length }
    ensures all { HasRuns piece_length → result ≡ true }
{
    piece_length % 64 == 0 && piece_length <= MAX_PIECE_IN_RUN
}

/// Puts the hashes of eight pieces after those before them, for which there is room.
pub(crate) fn end_run(run: &[u8], piece_length: usize, sums: &mut Vec<u8>)
    requires some { 0 < piece_length }
    requires allowed { HasRuns piece_length }
    requires length { length run.now ≡ 8 * piece_length }
    requires room { vec_len sums.old + 160 ≤ vec_capacity sums.old }
    ensures hashed { sums.new.items ≡ sums.old.items ++ piece_sums piece_length run.now }
    ensures len { vec_len sums.new ≡ vec_len sums.old + 160 }
    ensures capacity { vec_capacity sums.old ≤ vec_capacity sums.new }
{
    let hashes = piece_hashes(run, piece_length);
    push_eight(&hashes, sums);
}

/// Puts eight hashes after those before them, for which there is room.
fn push_eight(hashes: &[[u8; DIGEST_LEN]; 8], sums: &mut Vec<u8>)
    requires { vec_len sums.old + 160 ≤ vec_capacity sums.old }
    ensures joined { sums.new.items ≡ sums.old.items ++ flat_map (λ x. x) hashes.now }
    ensures eight { length hashes.now ≡ 8 }
    ensures len { vec_len sums.new ≡ vec_len sums.old + 160 }
    ensures capacity { vec_capacity sums.old ≤ vec_capacity sums.new }
{
    'hashes: for hash in hashes {
        // There is room.
        let _ = sums.extend_from_slice(hash);
    }
}
