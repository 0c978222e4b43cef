//! Whether units and pieces are there, by the lengths that were told of their files.
ghost use Rattle.std.specs.Prelude.{◌≡◌, ◌+◌, ◌<◌, ◌^◌, All, None, slice_get, slice_index_or};
ghost use Rattle.tor_engine.specs.There.{is_part_within, is_within, length_told};

use tor_plan::{Part, PlanUnit};

/// Whether all bytes of files that a unit has, or a piece, are in files of these lengths; a missing file has no byte.
pub(crate) fn is_there(told: &[Option<u64>], unit: &PlanUnit) -> bool
    requires { All (λ part. part.start + part.length < 2 ^ 64) unit.now.parts }
    ensures { result ≡ is_within told.now unit.now }
{
    'parts: for part in unit.parts.as_slice() {
        if !is_part_there(told, part) {
            return false;
        }
    }
    true
}

/// Whether all bytes of a part are in its file.
fn is_part_there(told: &[Option<u64>], part: &Part) -> bool
    requires { part.now.start + part.now.length < 2 ^ 64 }
    ensures { result ≡ is_part_within told.now part.now }
{
    part.start + part.length <= length_told(told, part.file)
}

/// The length that was told of a file, 0 of one that is missing.
pub(crate) fn length_told(told: &[Option<u64>], file: u64) -> u64
    ensures { result ≡ length_told told.now file }
{
    item_at(told, file as usize).flatten().unwrap_or(0)
}

/// The length that was told of a file, none of one that is missing.
pub(crate) fn size_told(told: &[Option<u64>], file: u64) -> Option<u64>
    ensures { result ≡ slice_index_or told.now file None }
{
    item_at(told, file as usize).flatten()
}

/// The element at an index; none past the end.
fn item_at<T: Copy>(items: &[T], index: usize) -> Option<T>
    ensures { result ≡ slice_get items.now index }
{
    items.get(index).copied()
}
