//! How many bytes a piece has.
ghost use Rattle.std.specs.Prelude.{◌≡◌, ◌<◌};
ghost use Rattle.tor_view.specs.PieceBytes.{piece_size};

/// How many bytes the piece at an index has, of a file of `size` bytes: the last one may have fewer than the others.
/// None if the file has no such piece.
pub fn piece_size(size: u64, piece_length: u64, index: u64) -> u64
    requires { 0 < piece_length }
    ensures { result ≡ piece_size size piece_length index }
{
    match index.checked_mul(piece_length) {
        Some(start) => piece_length.min(size.saturating_sub(start)),
        None => 0,
    }
}
