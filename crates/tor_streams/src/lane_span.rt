//! How many pieces a unit has that goes through a lane.
ghost use Rattle.std.specs.Prelude.{◌≡◌, ◌*◌, ◌<◌, ◌≤◌, false, true};
ghost use Rattle.tor_streams.specs.Streams.{IsStreamCut};
ghost use Rattle.tor_streams.specs.declared.lane_span.TheConstants.{MAX_PIECE_AMONG_OTHERS, MAX_PIECE_OF_EIGHT};
ghost use Rattle.tor_streams.specs.declared.spares.TheConstants.{MOST_HELD};
ghost use Rattle.tor_tree.specs.Kinds.{has_v1};

use tor_tree::Kind;

// Units of so few bytes stay in the processor's cache, with those that wait.
const CACHED_UNIT: u64 = 1 << 21;

// So many pieces are hashed side by side.
const PIECES_AT_ONCE: u32 = 8;

// Longer pieces are each a unit, unless eight are hashed at once.
const MAX_PIECE_AMONG_OTHERS: u64 = 1 << 20;

// A unit of eight longer pieces would be more than may be held (`spares.rt`).
const MAX_PIECE_OF_EIGHT: u64 = 1 << 24;

/// As many as are asked for, or at most eight if those are many bytes, or one if more are of no use: the sums are the
/// same, less is held, and buffers that stay in the processor's cache are read into, and hashed, sooner.
pub(crate) fn lane_span(kind: Kind, piece_length: u64, span: u32) -> u32
    requires { IsStreamCut kind piece_length span }
    ensures cut { IsStreamCut kind piece_length result }
    ensures few { result ≤ span }
    ensures alone { has_v1 kind ≡ false → MAX_PIECE_AMONG_OTHERS < piece_length → result ≡ 1 }
    ensures short { 1 < result → result * piece_length ≤ MOST_HELD }
{
    if is_alone(kind, piece_length, span) {
        return 1;
    }
    if span <= PIECES_AT_ONCE || span as u64 * piece_length <= CACHED_UNIT {
        return span;
    }
    PIECES_AT_ONCE
}

// Whether a piece is a unit by itself: a long one is, unless eight are there, and SHA-1 hashes those side by side.
fn is_alone(kind: Kind, piece_length: u64, span: u32) -> bool
    ensures short { result ≡ false → piece_length ≤ MAX_PIECE_OF_EIGHT }
    ensures long { has_v1 kind ≡ false → MAX_PIECE_AMONG_OTHERS < piece_length → result ≡ true }
{
    let by_eight = kind.has_v1() && span >= PIECES_AT_ONCE && piece_length <= MAX_PIECE_OF_EIGHT;
    piece_length > MAX_PIECE_AMONG_OTHERS && !by_eight
}
