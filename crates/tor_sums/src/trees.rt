//! The trees of files, one file after the other.
ghost use Rattle.std.specs.Prelude.{◌≡◌, ◌∷◌, ℕ, List, IfOk, OnOk, length, map};
ghost use Rattle.tor_merkle.specs.Layer.{piece_layer, root_of};
ghost use Rattle.tor_sums.specs.steps.Trees.{AreTrees};

use std::alloc::{AllocError, Global};
use tor_merkle::Hash;

/// The root and the layer of each file, in their order.
#[derive(Drop)]
pub struct Trees {
    pub roots: Vec<Option<Hash>>,
    pub layers: Vec<Vec<Hash>>,
}

/// Files whose trees can be told, one after the other: `PlannedTrees` (`sums.rt`), from the units of a plan;
/// `ChunkTrees` (`stream_sums.rt` of `tor_streams`), from the chunks of readers.
pub trait FileTrees: Drop {
    /// There are files of these lengths left.
    ghost may_tell: { Self → List ℕ → Type 0 };

    /// Those that are left have these contents, and layers of pieces of this length.
    ghost are_of: { Self → ℕ → List (List ℕ) → Type 0 };

    /// The root and the layer of the next file, which has `size` bytes.
    fn next(&mut self, alloc: Global, size: u64) -> Result<(Option<Hash>, Vec<Hash>), AllocError>
        requires { (later : List ℕ) × may_tell self.old (size ∷ later) }
        ensures left { (later : List ℕ) → may_tell self.old (size ∷ later) → OnOk result (may_tell self.new later) }
        ensures tree { (piece_length : ℕ) (content : List ℕ) (later : List (List ℕ)) → length content ≡ size →
            are_of self.old piece_length (content ∷ later) →
            IfOk result (λ tree. (tree.0 ≡ root_of content) × (tree.1.items ≡ piece_layer content piece_length)
            × are_of self.new piece_length later) };
}

/// The trees of files of these lengths.
pub fn trees_of<T: FileTrees>(alloc: Global, sizes: &[u64], files: T) -> Result<Trees, AllocError>
    requires { T.may_tell files sizes.now }
    ensures { (piece_length : ℕ) (contents : List (List ℕ)) → map length contents ≡ sizes.now →
        T.are_of files piece_length contents → IfOk result (AreTrees piece_length contents) }
{
    let mut files = files;
    let mut roots = Vec::with_capacity(alloc, sizes.len())?;
    let mut layers = Vec::with_capacity(alloc, sizes.len())?;
    'each: for size in sizes {
        let (root, layer) = files.next(alloc, *size)?;
        roots.push(root)?;
        layers.push(layer)?;
    }
    Ok(Trees { roots, layers })
}
