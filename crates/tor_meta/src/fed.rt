//! The torrent of one content that is fed in parts, under the torrent's name. `fed/fed_intake.rt` takes the parts that
//! are read, `fed/making.rt` makes the torrent of their sums.
ghost use Rattle.std.specs.Prelude.{◌≡◌, ◌+◌, ◌≤◌, ◌∷◌, [], ℕ, List, None, Some, IfOk, IsOk, OnErr, OnOk, length};
ghost use Rattle.std.specs.Int.{div_ceil};
ghost use Rattle.std.specs.Option.{ForSome};
ghost use Rattle.tor_sums.specs.Hasher.{tree_of};
ghost use Rattle.tor_sums.specs.Sums.{lists_of};
ghost use Rattle.tor_merkle.specs.Layer.{IsPieceLength, piece_layer, root_of};
ghost use Rattle.tor_merkle.specs.declared.TheConstants.{MAX_LENGTH};
ghost use Rattle.tor_meta.specs.Head.{settings_of};
ghost use Rattle.tor_meta.specs.Refusal.{paths_refusal};
ghost use Rattle.tor_spec.specs.Metainfo.{metainfo, only};

pub(crate) mod fed_intake;
pub(crate) mod making;

use crate::head::Head;
use crate::refusals::ContentsError;
use crate::sums::tree_of;
use std::alloc::{AllocError, Global};
use tor_engine::{ContentHasher, Hashed, Sums};
use tor_merkle::laws::piece_length_bounds;
use tor_merkle::{FedTree, Hash, is_piece_length};

/// What a content sums up to that is fed in parts, as far as a head asks for it. Nothing of the content is kept.
/// Clauses say by `HasFed` which bytes were fed.
#[derive(Drop)]
pub struct FedSums {
    count: u64,
    hasher: ContentHasher,
    ghost counted: { ForSome (tree_of hasher) (λ feed. length feed.bytes ≡ count) },
    ghost small: { count ≤ MAX_LENGTH },
}

impl FedSums {
    ghost use Rattle.tor_meta.specs.Fed.{Feeds, HasFed, Leaves, count_of};
    ghost use Rattle.tor_meta.specs.steps.Sums.{SumsOfOne};
    ghost use Rattle.tor_tree.specs.declared.kinds.Kind.{Kind};

    /// Sums of no byte.
    pub fn new(alloc: Global, head: &Head) -> FedSums
        requires { IsPieceLength head.now.piece_length }
        ensures fed { HasFed result head.now.kind head.now.piece_length [] }
        ensures count { count_of result ≡ 0 }
    {
        piece_length_bounds();
        FedSums {
            count: 0,
            hasher: ContentHasher::new(alloc, head.kind, head.piece_length),
        }
    }

    /// Adds a part at the end of the content, which has at most `MAX_LENGTH` bytes in all. If memory is refused, the
    /// sums are of no more use; it can only be refused if the part begins a piece.
    pub fn feed(&mut self, part: &[u8]) -> Result<(), AllocError>
        requires { count_of self.old + length part.now ≤ MAX_LENGTH }
        ensures ok { OnOk result (Feeds self.old self.new part.now) }
        ensures count { OnOk result (count_of self.new ≡ count_of self.old + length part.now) }
        ensures left { OnErr result (Leaves self.old self.new part.now) }
        ensures kept { OnErr result (count_of self.new ≡ count_of self.old) }
        ensures within { (kind : Kind) (piece_length : ℕ) (bytes : List ℕ) → HasFed self.old kind piece_length bytes →
            div_ceil (length bytes + length part.now) piece_length ≤ div_ceil (length bytes) piece_length →
            IsOk result }
    {
        match self.hasher.feed(part) {
            Ok(()) => {
                self.count += part.len() as u64;
                Ok(())
            }
            Err(error) => Err(error),
        }
    }

    /// How many bytes were fed.
    pub fn count(&self) -> u64
        ensures value { result ≡ count_of self.now }
        ensures small { count_of self.now ≤ MAX_LENGTH }
    {
        self.count
    }

    /// What they sum up to, as a list of one file, after which so many zeros come.
    pub(crate) fn finish(self, alloc: Global, tail: u64) -> Result<Sums, AllocError>
        ensures { (kind : Kind) (piece_length : ℕ) (bytes : List ℕ) → HasFed self kind piece_length bytes →
            IfOk result (SumsOfOne kind piece_length bytes tail) }
    {
        let FedSums { count, hasher } = self;
        let mut hasher = hasher;
        hasher.feed_zeros(tail)?;
        let Hashed { tree, pieces } = hasher.finish(alloc);
        let (roots, layers) = fed_trees(alloc, tree)?;
        Ok(Sums {
            lengths: vec![in alloc; count]?,
            roots,
            layers,
            pieces,
        })
    }
}

// The pieces root and the layer of the one file, where it has a tree.
fn fed_trees(
    alloc: Global,
    tree: Option<FedTree>,
) -> Result<(Vec<Option<Hash>>, Vec<Vec<Hash>>), AllocError>
    ensures { (piece_length : ℕ) (bytes : List ℕ) →
        tree ≡ Some (record { piece_length = piece_length; bytes = bytes }) →
        IfOk result (λ trees. (trees.0.items ≡ root_of bytes ∷ [])
        × (lists_of trees.1.items ≡ piece_layer bytes piece_length ∷ [])) }
{
    match tree {
        Some(tree) => {
            let (root, layer) = tree_of(alloc, tree);
            Ok((vec![in alloc; root]?, vec![in alloc; layer]?))
        }
        None => Ok((Vec::new(alloc), Vec::new(alloc))),
    }
}

/// Why no torrent is made of one content under the torrent's name; it takes no memory.
pub fn refusal_of_one(head: &Head) -> Option<ContentsError>
    ensures { result ≡ paths_refusal (settings_of head.now) ((head.now.name ∷ []) ∷ []) }
{
    if !is_piece_length(head.piece_length) {
        return Some(ContentsError::PieceLength);
    }
    if head.is_aligned() && head.name.as_bytes() == b".pad".as_slice() {
        return Some(ContentsError::ReservedPad);
    }
    None
}
