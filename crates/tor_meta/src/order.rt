//! How the torrent of a source's files is to be made.
ghost use Rattle.std.specs.Prelude.{◌≡◌, ◌⊎◌, ◌∷◌, [], Err, IfErr, IfOk, None, OnOk, Some, option_map, vec_items};
ghost use Rattle.tor_meta.specs.Head.{settings_of};
ghost use Rattle.tor_meta.specs.Make.{make_refusal, numbers_refusal};
ghost use Rattle.tor_meta.specs.Order.{has_tail, is_span, settings_of_order};
ghost use Rattle.tor_meta.specs.Refusal.{paths_refusal};
ghost use Rattle.tor_meta.specs.declared.make_error.MakeError.{MakeError};
ghost use Rattle.tor_meta.specs.MakeError.{out_of_resources};

use crate::fed::refusal_of_one;
use crate::head::Head;
use crate::make_error::MakeError;
use std::alloc::{AllocError, Global};
use tor_engine::How;
use tor_merkle::is_piece_length;
use tor_tree::{Kind, Name};

/// The most pieces that one unit of work may have.
pub const MAX_SPAN: u32 = 1024;

/// How a torrent is to be made: what a [`Head`] says, and how its files are hashed, of which the torrent says nothing.
#[derive(Debug, Drop)]
pub struct Order {
    pub kind: Kind,
    /// It is of one file, which has the torrent's name (BEP 3, "info dictionary": `length` instead of `files`).
    pub single: bool,
    /// The name that it suggests for its content.
    pub name: Name,
    /// In bytes.
    pub piece_length: u64,
    /// The tracker's URL (BEP 3, "metainfo files": `announce`).
    pub announce: Option<Vec<u8>>,
    /// `private` (BEP 27).
    pub is_private: bool,
    /// Of a hybrid of files in a folder the last that is not empty has padding too (BEP 47, "padding files").
    pub tail: bool,
    /// The pieces that a worker hashes as one unit of work.
    pub span: u32,
    /// The workers that share the units.
    pub how: How,
}

impl Order {
    /// What the torrent is made with, beside its files.
    pub(crate) fn head(&self, alloc: Global) -> Result<Head, AllocError>
        ensures { IfOk result (λ head. settings_of head ≡ settings_of_order self.now) }
    {
        let name = self.name.copy(alloc)?;
        let announce = copy_of_url(alloc, &self.announce)?;
        Ok(Head {
            kind: self.kind,
            single: self.single,
            name,
            piece_length: self.piece_length,
            announce,
            is_private: self.is_private,
            tail: self.tail,
        })
    }

    /// Whether streams of a hybrid end with padding.
    pub(crate) fn has_tail(&self) -> bool
        ensures { result ≡ has_tail (settings_of_order self.now) }
    {
        !self.single && self.tail
    }

    /// What a torrent of one content under the order's name is made with, beside the content, or the first refusal; the
    /// refusals that need no path take no memory.
    pub fn head_of_one<F>(&self, alloc: Global) -> Result<Head, MakeError<F>>
        ensures settings { IfOk result (λ head. settings_of head ≡ settings_of_order self.now) }
        ensures lawful { IfOk result (λ head. paths_refusal (settings_of head) ((head.name ∷ []) ∷ []) ≡ None) }
        ensures accepted { OnOk result (make_refusal {F = F} self.now ((self.now.name ∷ []) ∷ []) ≡ None) }
        ensures numbers { (refusal : MakeError F) → numbers_refusal self.now ≡ Some refusal → result ≡ Err refusal }
        ensures refused { IfErr result (λ refusal.
            (make_refusal self.now ((self.now.name ∷ []) ∷ []) ≡ Some refusal) ⊎ (refusal ≡ out_of_resources)) }
    {
        if let Some(refusal) = refusal_of_numbers(self) {
            return Err(refusal);
        }
        let head = self.head(alloc)?;
        match refusal_of_one(&head) {
            Some(refusal) => Err(MakeError::from(refusal)),
            None => Ok(head),
        }
    }
}

/// The first refusal for what needs no path.
pub(crate) fn refusal_of_numbers<F>(order: &Order) -> Option<MakeError<F>>
    ensures { result ≡ numbers_refusal order.now }
{
    if !is_piece_length(order.piece_length) {
        return Some(MakeError::PieceLength);
    }
    if !order.how.is_allowed() {
        return Some(MakeError::Workers);
    }
    if !is_span(order.span) {
        return Some(MakeError::Span);
    }
    None
}

/// A copy of the URL, if there is one.
fn copy_of_url(alloc: Global, url: &Option<Vec<u8>>) -> Result<Option<Vec<u8>>, AllocError>
    ensures { IfOk result (λ copy. option_map vec_items copy ≡ option_map vec_items url.now) }
{
    match url {
        Some(url) => Ok(Some(Vec::from_slice(alloc, url)?)),
        None => Ok(None),
    }
}

/// Whether a unit may have so many pieces: a power of two from 1 to 1,024.
pub(crate) fn is_span(span: u32) -> bool
    ensures { result ≡ is_span span }
{
    span.is_power_of_two() && 1 <= span && span <= MAX_SPAN
}
