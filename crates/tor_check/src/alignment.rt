//! Whether the two sides of a hybrid agree, judged: its files, where they begin, their letters.
ghost use Rattle.std.specs.Prelude.{◌≡◌, ◌≤◌, ◌||◌, [], All, None, IfErr, OnOk, sum_by};
ghost use Rattle.tor_bencode.specs.RefView.{view};
ghost use Rattle.tor_check.specs.steps.Judged.{Names, first_of_alignment};
ghost use Rattle.tor_check.specs.steps.Listed.{files_from, size_of_listed};
ghost use Rattle.tor_check.specs.steps.Sides.{AreSidesOf, first_of_both};
ghost use Rattle.tor_spec.specs.valid.Parts.{kind_of, piece_length_of};
ghost use Rattle.tor_spec.specs.valid.SidesAgree.{has_wrong_tail, is_misaligned_after};
ghost use Rattle.tor_merkle.specs.declared.TheConstants.{MAX_LENGTH};
ghost use Rattle.tor_tree.specs.declared.lists.TheConstants.{MAX_TOTAL};
ghost use Rattle.tor_v1.specs.Piece.{max_piece_length};

use crate::agree::{files_differ, has_wrong_tail, is_misaligned, some_letters_differ};
use crate::head::CommonKeys;
use crate::listed::Listed;
use crate::refusal::Refusal;
use crate::sides::Sides;

/// Whether the sides of a hybrid agree: V22, V23 and V25.
pub fn judge_alignment(head: &CommonKeys<'_, '_>, sides: &Sides) -> Result<(), Refusal>
    requires kind { head.now.kind ≡ kind_of (view head.now.info.now) }
    requires piece_length { head.now.piece_length ≡ piece_length_of (view head.now.info.now) }
    requires some { (1 ≤ head.now.piece_length) × (head.now.piece_length ≤ max_piece_length) }
    requires sides { AreSidesOf (view head.now.info.now) sides.now }
    requires judged { first_of_both (view head.now.info.now) ≡ None }
    ensures accepted { OnOk result (first_of_alignment (view head.now.info.now) ≡ None) }
    ensures refused { IfErr result (Names (first_of_alignment (view head.now.info.now))) }
{
    if !head.kind.has_v1() || !head.kind.has_v2() {
        return Ok(());
    }
    if files_differ(&sides.list.files, &sides.files) {
        return Err(Refusal::FilesDiffer);
    }
    if lies_elsewhere(&sides.list.files, head.piece_length) {
        return Err(Refusal::Alignment);
    }
    if some_letters_differ(&sides.list.files, &sides.files) {
        return Err(Refusal::AttrDiffer);
    }
    Ok(())
}

/// Whether a file of a hybrid does not begin at a piece of its own, or padding of another length follows the last.
fn lies_elsewhere(listed: &[Listed], piece_length: u64) -> bool
    requires piece_length { (1 ≤ piece_length) × (piece_length ≤ max_piece_length) }
    requires small { All (λ file. size_of_listed file ≤ MAX_LENGTH) listed.now }
    requires total { sum_by size_of_listed listed.now ≤ MAX_TOTAL }
    ensures { result ≡ (is_misaligned_after piece_length [] (files_from listed.now)
        || has_wrong_tail piece_length (files_from listed.now)) }
{
    is_misaligned(listed, piece_length) || has_wrong_tail(listed, piece_length)
}
