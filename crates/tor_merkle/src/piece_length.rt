//! Which numbers of bytes a piece may have, and at which level of the tree one hash covers one.

ghost use Rattle.std.specs.Prelude.{◌≡◌, ◌≤◌, ◌↔◌, IsTrue};
ghost use Rattle.std.specs.Int.{is_power_of_two};
ghost use Rattle.tor_merkle.specs.Layer.{IsPieceLength, is_piece_length, piece_level};

use crate::digits::height_of;
use crate::{BLOCK_LENGTH, MAX_PIECE_LENGTH, MIN_PIECE_LENGTH};

/// Whether a piece may have so many bytes: a power of two from 16,384 (BEP 52, "piece length") to 2^30, the
/// upper end of this profile.
pub fn is_piece_length(n: u64) -> bool
    ensures value { result ≡ is_piece_length n }
    ensures allowed { IsTrue result ↔ IsPieceLength n }
    ensures bounds { IsTrue result ↔ (IsTrue (is_power_of_two n) × (MIN_PIECE_LENGTH ≤ n) × (n ≤ MAX_PIECE_LENGTH)) }
{
    n.is_power_of_two() && (MIN_PIECE_LENGTH..=MAX_PIECE_LENGTH).contains(&n)
}

/// The level at which one hash covers a piece of `n` bytes (BEP 52, "piece layers").
pub fn piece_level(n: u64) -> u32
    requires { IsPieceLength n }
    ensures value { result ≡ piece_level n }
    ensures low { result ≤ 16 }
{
    height_of(n / BLOCK_LENGTH as u64)
}
