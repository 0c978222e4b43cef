//! A torrent with another tracker, or with none.
ghost use Rattle.std.specs.Prelude.{◌≡◌, true, Err, IfErr, IfOk, IsOkUnless, option_map};
ghost use Rattle.tor_bencode.specs.Fault.{may_take_memory};
ghost use Rattle.tor_bencode.specs.RefView.{view};
ghost use Rattle.tor_check.specs.Valid.{IsRefusedFor};
ghost use Rattle.tor_check.specs.declared.refusal.Refusal.TheVariants.{Memory};
ghost use Rattle.tor_edit.specs.Tracker.{IsWithTracker};
ghost use Rattle.tor_spec.specs.valid.Conditions.{IsTorrentOf, IsValid};

use crate::splice::edited;
use std::alloc::Global;
use tor_bencode::{ItemRef, decode_ref};
use tor_check::{Refusal, validate};

/// The torrent whose `announce` is this text (BEP 3, "metainfo files"), or that has none. It has no `announce-list`
/// (BEP 12), and all its other bytes stay. Bytes that are no torrent are refused as `validate` refuses them. Time and
/// memory are linear in both texts.
pub fn with_tracker(
    alloc: Global,
    torrent: &[u8],
    tracker: Option<&[u8]>,
) -> Result<Vec<u8>, Refusal>
    ensures edited { IfOk result (λ edited.
        IsWithTracker torrent.now (option_map (λ url. url.now) tracker.entry) edited.items) }
    ensures valid { IfOk result (λ edited. IsValid edited.items) }
    ensures only { IsValid torrent.now → IsOkUnless result Memory }
    ensures refused { IfErr result (IsRefusedFor torrent.now) }
    ensures memory { result ≡ Err Memory → may_take_memory torrent.now ≡ true }
{
    let root = match root_of(alloc, torrent) {
        Ok(root) => root,
        Err(refusal) => return Err(refusal),
    };
    match edited(alloc, torrent, &root, tracker) {
        Ok(text) => Ok(text),
        Err(_) => Err(Refusal::Memory),
    }
}

/// The root of a torrent; or why the bytes are none.
fn root_of<'a>(alloc: Global, torrent: &'a [u8]) -> Result<ItemRef<'a>, Refusal>
    ensures accepted { IfOk result (λ root. IsTorrentOf (view root) torrent.now) }
    ensures only { IsValid torrent.now → IsOkUnless result Memory }
    ensures refused { IfErr result (IsRefusedFor torrent.now) }
    ensures memory { result ≡ Err Memory → may_take_memory torrent.now ≡ true }
{
    match validate(alloc, torrent) {
        Ok(_) => {}
        Err(refusal) => return Err(refusal),
    }
    match decode_ref(alloc, torrent) {
        Ok(root) => Ok(root),
        Err(error) => Err(Refusal::from(error)),
    }
}
