//! Whether the two sides of a hybrid describe the same files at the same offsets and with the same letters (BEP 52,
//! "Upgrade Path"; BEP 47).
ghost use Rattle.std.specs.Prelude.{◌≡◌, ◌≤◌, [], All, not, sum_by};
ghost use Rattle.tor_check.specs.steps.Listed.{file_of_listed, files_from, size_of_listed, sized_files};
ghost use Rattle.tor_spec.specs.valid.ListSide.{joined_size, without_padding};
ghost use Rattle.tor_spec.specs.valid.SidesAgree.{has_wrong_tail, is_filled, is_misaligned_after, letters_differ};
ghost use Rattle.tor_spec.specs.valid.SidesAgree.{same_files, some_letters_differ};
ghost use Rattle.tor_check.specs.steps.Listed.{tree_pairs};
ghost use Rattle.tor_merkle.specs.declared.TheConstants.{MAX_LENGTH};
ghost use Rattle.tor_tree.specs.declared.lists.TheConstants.{MAX_TOTAL};
ghost use Rattle.tor_v1.specs.Piece.{max_piece_length};

use crate::listed::Listed;
use tor_tree::TreeFile;
use tor_v1::padding_length;

/// Whether the files of the v1 side, without padding, are others than those of the tree.
pub fn files_differ(listed: &[Listed], files: &[TreeFile]) -> bool
    ensures { result ≡ not (same_files (sized_files listed.now) (tree_pairs files.now)) }
{
    let mut left = files.iter();
    'listed: for file in listed {
        let Some(path) = &file.path else {
            continue;
        };
        let Some(other) = left.next() else {
            return true;
        };
        if *path != other.path || file.marks.length.unsigned_abs() != other.length {
            return true;
        }
    }
    left.next().is_some()
}

/// Whether a file has an `x` or an `h` on one side alone, if both have its `attr`.
pub fn some_letters_differ(listed: &[Listed], files: &[TreeFile]) -> bool
    ensures { result ≡ some_letters_differ (without_padding (files_from listed.now)) files.now }
{
    let mut left = files.iter();
    'listed: for file in listed {
        if file.path.is_none() {
            continue;
        }
        let Some(other) = left.next() else {
            return false;
        };
        if letters_differ(file, other) {
            return true;
        }
    }
    false
}

/// Whether these are the letters of two files, if both have `attr`.
fn letters_differ(listed: &Listed, file: &TreeFile) -> bool
    ensures { result ≡ letters_differ (file_of_listed listed.now) file.now }
{
    let marks = listed.marks;
    marks.has_attr && file.has_attr && (marks.exec != file.exec || marks.hidden != file.hidden)
}

/// Whether a file that is not empty does not begin at a piece of its own. Together the files have at most 2^62 bytes.
pub fn is_misaligned(listed: &[Listed], piece_length: u64) -> bool
    requires piece_length { (1 ≤ piece_length) × (piece_length ≤ max_piece_length) }
    requires small { All (λ file. size_of_listed file ≤ MAX_LENGTH) listed.now }
    requires total { sum_by size_of_listed listed.now ≤ MAX_TOTAL }
    ensures { result ≡ is_misaligned_after piece_length [] (files_from listed.now) }
{
    let mut start: u64 = 0;
    let mut aligned: u64 = 0;
    'listed: for file in listed {
        let size = file.marks.length.unsigned_abs();
        if file.path.is_some() && size > 0 {
            if start != aligned {
                return true;
            }
            aligned += size.next_multiple_of(piece_length);
        }
        start += size;
    }
    false
}

/// Whether it is a file, and not empty.
fn is_filled(file: &Listed) -> bool
    ensures { result ≡ is_filled (file_of_listed file.now) }
{
    file.path.is_some() && file.marks.length != 0
}

/// Whether padding follows the last file that is not empty, and is not just what that file lacks to a whole piece.
#[tactic(auto, using(crate::proofs::TailSteps::at_filled, crate::proofs::TailSteps::at_other))]
pub fn has_wrong_tail(listed: &[Listed], piece_length: u64) -> bool
    requires piece_length { (1 ≤ piece_length) × (piece_length ≤ max_piece_length) }
    requires small { All (λ file. size_of_listed file ≤ MAX_LENGTH) listed.now }
    requires total { sum_by size_of_listed listed.now ≤ MAX_TOTAL }
    ensures { result ≡ has_wrong_tail piece_length (files_from listed.now) }
{
    let mut last: u64 = 0;
    let mut tail: u64 = 0;
    'listed: for file in listed {
        let size = file.marks.length.unsigned_abs();
        if is_filled(file) {
            last = size;
            tail = 0;
        } else {
            tail += size;
        }
    }
    tail != 0 && tail != padding_length(last, piece_length)
}
