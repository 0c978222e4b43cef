//! Whether bytes are a torrent, and what it describes.
ghost use Rattle.std.specs.Prelude.{◌≡◌, true, None, Err, IfErr, IfOk, IsOkUnless, OnOk, codes, unwrap_or};
ghost use Rattle.tor_bencode.specs.Fault.{may_take_memory};
ghost use Rattle.tor_bencode.specs.Lawful.{IsLawful};
ghost use Rattle.tor_bencode.specs.Span.{span_of};
ghost use Rattle.tor_bencode.specs.RefView.{view};
ghost use Rattle.tor_check.specs.steps.Judged.{IsFirst, conditions_before_memory, first_in};
ghost use Rattle.tor_check.specs.Valid.{IsRefusedFor, IsTold};
ghost use Rattle.tor_check.specs.declared.refusal.Refusal.TheVariants.{Memory};
ghost use Rattle.tor_spec.specs.valid.Conditions.{IsValid, refusal_of};
ghost use Rattle.tor_spec.specs.valid.View.{view_of};

use crate::alignment::judge_alignment;
use crate::described::torrent_of;
use crate::head::read_head;
use crate::layers::judge_layers;
use crate::refusal::Refusal;
use crate::sides::read_sides;
use crate::torrent::Torrent;
use std::alloc::Global;
use tor_bencode::{ItemRef, decode_ref, span_of_key};

/// What the torrent describes that the bytes are; or why they are none, the least number whose condition holds.
pub fn validate(alloc: Global, bytes: &[u8]) -> Result<Torrent, Refusal>
    ensures accepted { IfOk result (IsTold bytes.now) }
    ensures only { IsValid bytes.now → IsOkUnless result Memory }
    ensures refused { IfErr result (IsRefusedFor bytes.now) }
    ensures memory { result ≡ Err Memory → may_take_memory bytes.now ≡ true }
{
    let root = match decode_ref(alloc, bytes) {
        Ok(root) => root,
        Err(fault) => return Err(Refusal::from(fault)),
    };
    let info_span = span_of_key(&root, b"info", bytes.len()).unwrap_or((0, 0));
    match judge(alloc, &root, info_span) {
        Ok(torrent) => Ok(torrent),
        Err(refusal) => Err(refusal),
    }
}

/// What the torrent describes that has this tree, in whose spelling `info` begins and ends here; or why there is none,
/// the least number whose condition holds.
fn judge(alloc: Global, root: &ItemRef<'_>, info_span: (usize, usize)) -> Result<Torrent, Refusal>
    requires lawful { IsLawful (view root.now) }
    requires span { info_span ≡ unwrap_or (span_of (codes "info") (view root.now)) (0, 0) }
    ensures described { IfOk result (λ torrent. torrent ≡ view_of (view root.now)) }
    ensures accepted { OnOk result (refusal_of (view root.now) ≡ None) }
    ensures refused { IfErr result (IsFirst (refusal_of (view root.now))) }
    ensures memory { result ≡ Err Memory → first_in conditions_before_memory (view root.now) ≡ None }
{
    let head = match read_head(alloc, root) {
        Ok(head) => head,
        Err(refusal) => return Err(refusal),
    };
    let sides = match read_sides(alloc, &head) {
        Ok(sides) => sides,
        Err(refusal) => return Err(refusal),
    };
    if let Err(refusal) = judge_layers(alloc, root, &head, &sides) {
        return Err(refusal);
    }
    if let Err(refusal) = judge_alignment(&head, &sides) {
        return Err(refusal);
    }
    let torrent = torrent_of(alloc, root, &head, sides, info_span)?;
    Ok(torrent)
}
