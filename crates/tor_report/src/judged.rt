//! Bytes, judged: the torrent that they are.
ghost use Rattle.std.specs.Prelude.{◌≡◌, IfErr, IfOk};
ghost use Rattle.tor_bencode.specs.Data.{Data};
ghost use Rattle.tor_bencode.specs.RefView.{view};
ghost use Rattle.tor_check.specs.Valid.{IsRefusedFor};
ghost use Rattle.tor_report.specs.Told.{Describes};
ghost use Rattle.tor_spec.specs.valid.Conditions.{IsTorrentOf, IsValid};

use std::alloc::{AllocError, Global};
use tor_bencode::laws::no_spelling_begins_another;
use tor_bencode::{BenError, ItemRef, decode_ref};
use tor_check::{Refusal, Torrent, validate};
use tor_spec::{Hashes, info_hashes};

/// What a torrent describes, and its info hashes.
#[derive(Drop)]
pub struct Judged {
    pub torrent: Torrent,
    pub hashes: Hashes,
}

/// What the torrent describes that the bytes are, and its info hashes; or why they are none.
pub fn torrent_with_hashes(alloc: Global, bytes: &[u8]) -> Result<Judged, Refusal>
    ensures accepted { IfOk result (λ judged. Describes bytes.now judged.torrent judged.hashes) }
    ensures refused { IfErr result (IsRefusedFor bytes.now) }
{
    match validate(alloc, bytes) {
        Ok(torrent) => {
            let hashes = info_hashes(bytes, torrent.kind());
            Ok(Judged { torrent, hashes })
        }
        Err(refusal) => Err(refusal),
    }
}

/// The tree of the torrent that the bytes are: its root, with the keys beside `info`.
pub fn torrent_tree(alloc: Global, bytes: &[u8]) -> Result<ItemRef<'_>, AllocError>
    requires { IsValid bytes.now }
    ensures { (root : Data) → IsTorrentOf root bytes.now → IfOk result (λ tree. view tree ≡ root) }
{
    no_spelling_begins_another();
    match decode_ref(alloc, bytes) {
        Ok(tree) => Ok(tree),
        Err(BenError::Memory) => Err(AllocError),
        Err(BenError::Refused { .. }) => unreachable!(),
    }
}
