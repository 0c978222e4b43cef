//! The piece length that suits so many bytes.
ghost use Rattle.std.specs.List.{find};
ghost use Rattle.std.specs.Prelude.{◌≡◌, option_map};
ghost use Rattle.tor_meta.specs.PieceLength.{auto_piece_length, is_long_enough};

/// The piece lengths from 16,384 on that may suit; the next power of two suits what needs more.
const PIECE_LENGTHS: [u32; 15] = [
    16_384,
    32_768,
    65_536,
    131_072,
    262_144,
    524_288,
    1_048_576,
    2_097_152,
    4_194_304,
    8_388_608,
    16_777_216,
    33_554_432,
    67_108_864,
    134_217_728,
    268_435_456,
];

/// What suits all that is larger.
const LONGEST: u64 = 536_870_912;

/// The bytes of a piece that suit contents of so many bytes: 16 KiB below 2.5 MiB, by steps of two, each for four times
/// as much.
pub fn auto_piece_length(size: u64) -> u64
    ensures { result ≡ auto_piece_length size }
{
    match first_long_enough(PIECE_LENGTHS.as_slice(), size) {
        Some(length) => u64::from(*length),
        None => LONGEST,
    }
}

/// The first of these piece lengths that suits contents of so many bytes.
fn first_long_enough(lengths: &[u32], size: u64) -> Option<&u32>
    ensures { option_map (λ length. length.now) result ≡ find (is_long_enough size) lengths.now }
{
    lengths.iter().find(|length| is_long_enough(length, size))
}

/// Whether pieces of so many bytes suit contents of so many.
fn is_long_enough(length: &u32, size: u64) -> bool
    ensures { result ≡ is_long_enough size length.now }
{
    let length = u128::from(*length);
    u128::from(size) << 14 < 160 * (length * length)
}
