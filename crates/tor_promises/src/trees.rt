//! The tree of a content.
ghost use Rattle.std.specs.Prelude.{◌≡◌, ◌≤◌, ◌↔◌, [], length, IfOk, IfSome, IsNone, IsOk};
ghost use Rattle.tor_merkle.specs.Layer.{IsPieceLength, pieces_root, piece_layer};
ghost use Rattle.tor_merkle.specs.declared.TheConstants.{MAX_LENGTH};

use std::alloc::{AllocError, Global};
use tor_merkle::{Hash, whole};

/// The root of a content, and the hashes of its piece layer (BEP 52, "pieces root" and "piece layers"). `None` if it is
/// empty.
pub fn root_and_layer(
    alloc: Global,
    content: &[u8],
    piece_length: u64,
) -> Result<Option<(Hash, Vec<Hash>)>, AllocError>
    requires piece { IsPieceLength piece_length }
    requires size { length content.now ≤ MAX_LENGTH }
    ensures empty { IfOk result (λ sums. IsNone sums ↔ (content.now ≡ [])) }
    ensures root { IfOk result (λ sums. IfSome sums (λ s. s.0 ≡ pieces_root content.now)) }
    ensures layer { IfOk result (λ sums. IfSome sums (λ s. s.1.items ≡ piece_layer content.now piece_length)) }
    ensures nothing { content.now ≡ [] → IsOk result }
{
    whole(alloc, content, piece_length)
}
