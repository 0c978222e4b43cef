//! Root and piece layer of a content that lies in memory: the plain program, with which faster ones
//! are compared. It keeps all leaves, and halves them level by level.

ghost use Rattle.std.specs.Prelude.{◌≡◌, ◌^◌, ◌≤◌, ◌↔◌, [], length, IfOk, IsOk, IsNone, IfSome};
ghost use Rattle.tor_merkle.specs.Block.{leaves};
ghost use Rattle.tor_merkle.specs.Layer.{IsPieceLength, pieces_root, piece_layer};
ghost use Rattle.tor_merkle.specs.steps.Plain.{level_above};

use crate::hash::{Hash, leaf, pair, zero};
use crate::{BLOCK_LENGTH, MAX_LENGTH};
use std::alloc::{AllocError, Global};
use std::mem;

/// The Merkle root of `content` (BEP 52, "pieces root"), and the 32-byte hashes of the layer where one covers one
/// piece, in the order of the pieces ("piece layers"); no hash if there is at most one piece. `None` if
/// `content` is empty, which takes no memory.
pub fn whole(
    alloc: Global,
    content: &[u8],
    piece_length: u64,
) -> Result<Option<(Hash, Vec<Hash>)>, AllocError>
    requires piece { IsPieceLength piece_length }
    requires size { length content.now ≤ MAX_LENGTH }
    ensures empty { IfOk result (λ sums. IsNone sums ↔ (content.now ≡ [])) }
    ensures root { IfOk result (λ sums. IfSome sums (λ s. s.0 ≡ pieces_root content.now)) }
    ensures layer { IfOk result (λ sums. IfSome sums (λ s. s.1.items ≡ piece_layer content.now piece_length)) }
    ensures nothing { content.now ≡ [] → IsOk result }
{
    if content.is_empty() {
        return Ok(None);
    }
    let mut hashes = leaves(alloc, content)?;
    let mut layer = Vec::new(alloc);
    let mut level = 0;
    // The bytes that one hash of the level covers.
    let mut width = BLOCK_LENGTH as u64;
    'levels: while hashes.len() > 1 {
        let above = level_above(alloc, &hashes, &zero(level))?;
        if width == piece_length {
            layer = mem::replace(&mut hashes, above);
        } else {
            hashes = above;
        }
        level += 1;
        width *= 2;
    }
    Ok(Some((hashes[0], layer)))
}

// The leaf of each block of `content`.
#[tactic(auto, unfolding(crate::specs::Block::leaves, crate::specs::Block::blocks))]
fn leaves(alloc: Global, content: &[u8]) -> Result<Vec<Hash>, AllocError>
    ensures { IfOk result (λ hashes. hashes.items ≡ leaves content.now) }
{
    let count = content.len().div_ceil(BLOCK_LENGTH);
    let mut hashes = Vec::with_capacity(alloc, count)?;
    for i in 0..count {
        let rest = &content[i * BLOCK_LENGTH..];
        let block = &rest[..rest.len().min(BLOCK_LENGTH)];
        hashes.push(leaf(block))?;
    }
    Ok(hashes)
}

// The hashes of the level above `hashes`, where `padding` stands for a missing last one.
#[tactic(auto, unfolding(crate::specs::steps::Plain::level_above))]
fn level_above(alloc: Global, hashes: &[Hash], padding: &Hash) -> Result<Vec<Hash>, AllocError>
    ensures { IfOk result (λ above. above.items ≡ level_above padding.now hashes.now) }
{
    let count = hashes.len().div_ceil(2);
    let mut above = Vec::with_capacity(alloc, count)?;
    for i in 0..count {
        let right = hashes.get(2 * i + 1).unwrap_or(padding);
        above.push(pair(&hashes[2 * i], right))?;
    }
    Ok(above)
}
