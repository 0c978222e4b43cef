//! What a content hashes to, while its bytes come.
ghost use Rattle.std.specs.Prelude.{◌≡◌, ◌+◌, ◌<◌, ◌^◌, ◌≤◌, ◌++◌, [], ℕ, List, None, IfOk, IsOk, IsSomeAnd, OnErr};
ghost use Rattle.std.specs.Prelude.{OnOk, length};
ghost use Rattle.std.specs.Prelude.{if◌then◌else◌};
ghost use Rattle.std.specs.Int.{div_ceil};
ghost use Rattle.std.specs.Option.{ForSome};
ghost use Rattle.tor_merkle.specs.declared.TheConstants.{MAX_LENGTH};
ghost use Rattle.tor_plan.specs.PlanFacts.{IsPlan, IsPlanPieceLength};
ghost use Rattle.tor_tree.specs.Kinds.{has_v1, has_v2};
ghost use Rattle.tor_tree.specs.declared.kinds.Kind.{Kind};
ghost use Rattle.tor_v1.specs.Feeding.{Feeds, HasFed, HasRoom};
ghost use Rattle.tor_v1.specs.Piece.{piece_sums, zeros};
ghost use Rattle.tor_sums.specs.Hasher.{AreHashesOf, HasFedContent, IsLeft, IsLeftOfZeros, IsTreeOf, fed_tree};
ghost use Rattle.tor_sums.specs.Hasher.{pieces_of, tree_of};

use std::alloc::{AllocError, Global};
use std::mem;
use tor_merkle::{FedTree, Feed};
use tor_plan::Plan;
use tor_tree::Kind;
use tor_v1::PieceSums;

/// The zeros that the sums of pieces take at once, at most.
const ZEROS_AT_ONCE: u64 = 1 << 30;

/// What the bytes of a content hash to, whatever files they are of.
#[derive(Drop)]
pub struct Hashed {
    /// The tree over its bytes of files, without its zeros; none in V1.
    pub tree: Option<FedTree>,
    /// The joined SHA-1 of each piece; none in V2.
    pub pieces: Vec<u8>,
}

/// The hashes of a content whose bytes are fed part by part: of bytes of files, and of zeros that belong to none, which
/// pieces have and trees have not. Nothing of the content is kept. Clauses say by `HasFedContent` which bytes were fed.
#[derive(Drop)]
pub struct ContentHasher {
    // The tree over the bytes of files.
    tree: Option<Feed>,
    // The pieces of the whole content.
    pieces: Option<PieceSums>,
}

impl ContentHasher {
    /// Of no byte.
    pub fn new(alloc: Global, kind: Kind, piece_length: u64) -> ContentHasher
        requires { IsPlanPieceLength kind piece_length }
        ensures fed { HasFedContent kind piece_length [] [] result }
        ensures empty { ForSome (tree_of result) (λ feed. feed.bytes ≡ []) }
    {
        ContentHasher {
            tree: kind.has_v2().then(|| Feed::new(alloc, piece_length)),
            pieces: kind.has_v1().then(|| PieceSums::new(alloc, piece_length)),
        }
    }

    /// Adds bytes of files. If memory is refused, the tree is as it was; it can only be refused if they begin a piece.
    pub fn feed(&mut self, bytes: &[u8]) -> Result<(), AllocError>
        requires { ForSome (tree_of self.old) (λ feed. length feed.bytes + length bytes.now ≤ MAX_LENGTH) }
        ensures fed { (kind : Kind) (piece_length : ℕ) (before joined : List ℕ) →
            HasFedContent kind piece_length before joined self.old →
            OnOk result (HasFedContent kind piece_length (before ++ bytes.now) (joined ++ bytes.now) self.new) }
        ensures tree { OnOk result (tree_of self.new ≡ fed_tree bytes.now (tree_of self.old)) }
        ensures err { OnErr result (tree_of self.new ≡ tree_of self.old) }
        ensures left { (kind : Kind) (piece_length : ℕ) (before joined : List ℕ) →
            HasFedContent kind piece_length before joined self.old →
            OnErr result (IsLeft kind piece_length before joined bytes.now self.new) }
        ensures within { (kind : Kind) (piece_length : ℕ) (before joined : List ℕ) →
            HasFedContent kind piece_length before joined self.old →
            div_ceil (length before + length bytes.now) piece_length ≤ div_ceil (length before) piece_length →
            div_ceil (length joined + length bytes.now) piece_length ≤ div_ceil (length joined) piece_length →
            IsOk result }
    {
        if let Some(pieces) = &mut self.pieces {
            pieces.feed(bytes)?;
        }
        if let Some(tree) = &mut self.tree {
            tree.feed(bytes)?;
        }
        Ok(())
    }

    /// Adds zeros, which belong to no file. If memory is refused, fewer were added; it can only be refused if they
    /// begin a piece.
    pub fn feed_zeros(&mut self, count: u64) -> Result<(), AllocError>
        ensures fed { (kind : Kind) (piece_length : ℕ) (bytes joined : List ℕ) →
            HasFedContent kind piece_length bytes joined self.old →
            OnOk result (HasFedContent kind piece_length bytes (joined ++ zeros count) self.new) }
        ensures tree { tree_of self.new ≡ tree_of self.old }
        ensures left { (kind : Kind) (piece_length : ℕ) (bytes joined : List ℕ) →
            HasFedContent kind piece_length bytes joined self.old →
            OnErr result (IsLeftOfZeros kind piece_length bytes joined count self.new) }
        ensures within { (kind : Kind) (piece_length : ℕ) (bytes joined : List ℕ) →
            HasFedContent kind piece_length bytes joined self.old →
            div_ceil (length joined + count) piece_length ≤ div_ceil (length joined) piece_length → IsOk result }
    {
        if let Some(pieces) = &mut self.pieces {
            feed_zeros(pieces, count)?;
        }
        Ok(())
    }

    /// Adds bytes of files to the tree alone. If memory is refused, it is as it was.
    pub(crate) fn feed_tree(&mut self, bytes: &[u8]) -> Result<(), AllocError>
        requires { ForSome (tree_of self.old) (λ feed. length feed.bytes + length bytes.now ≤ MAX_LENGTH) }
        ensures fed { (kind : Kind) (piece_length : ℕ) (before joined : List ℕ) →
            HasFedContent kind piece_length before joined self.old →
            OnOk result (HasFedContent kind piece_length (before ++ bytes.now) joined self.new) }
        ensures tree { OnOk result (tree_of self.new ≡ fed_tree bytes.now (tree_of self.old)) }
        ensures err { OnErr result (tree_of self.new ≡ tree_of self.old) }
    {
        if let Some(feed) = &mut self.tree {
            feed.feed(bytes)?;
        }
        Ok(())
    }

    /// Adds bytes to the pieces alone. If memory is refused, nothing was added; it can only be refused if they begin a
    /// piece.
    pub fn feed_pieces(&mut self, bytes: &[u8]) -> Result<(), AllocError>
        ensures fed { (kind : Kind) (piece_length : ℕ) (before joined : List ℕ) →
            HasFedContent kind piece_length before joined self.old →
            OnOk result (HasFedContent kind piece_length before (joined ++ bytes.now) self.new) }
        ensures tree { tree_of self.new ≡ tree_of self.old }
        ensures left { (kind : Kind) (piece_length : ℕ) (before joined : List ℕ) →
            HasFedContent kind piece_length before joined self.old →
            OnErr result (HasFedContent kind piece_length before joined self.new) }
        ensures within { (kind : Kind) (piece_length : ℕ) (before joined : List ℕ) →
            HasFedContent kind piece_length before joined self.old →
            div_ceil (length joined + length bytes.now) piece_length ≤ div_ceil (length joined) piece_length →
            IsOk result }
    {
        if let Some(sums) = &mut self.pieces {
            sums.feed(bytes)?;
        }
        Ok(())
    }

    /// Makes room for the hashes of the pieces that so many more bytes begin, so that `add_pieces` can take them.
    pub(crate) fn reserve(&mut self, count: u64) -> Result<(), AllocError>
        requires { count < 2 ^ 63 }
        ensures same { (kind : Kind) (piece_length : ℕ) (bytes joined : List ℕ) →
            HasFedContent kind piece_length bytes joined self.old →
            HasFedContent kind piece_length bytes joined self.new }
        ensures tree { tree_of self.new ≡ tree_of self.old }
        ensures room { OnOk result (ForSome (pieces_of self.new) (λ pieces. HasRoom pieces count)) }
    {
        if let Some(pieces) = &mut self.pieces {
            pieces.reserve(count)?;
        }
        Ok(())
    }

    /// Adds bytes to the pieces, for which there is room. It takes no memory.
    pub(crate) fn add_pieces(&mut self, bytes: &[u8])
        requires { ForSome (pieces_of self.old) (λ pieces. HasRoom pieces (length bytes.now)) }
        ensures { (kind : Kind) (piece_length : ℕ) (before joined : List ℕ) →
            HasFedContent kind piece_length before joined self.old →
            HasFedContent kind piece_length before (joined ++ bytes.now) self.new }
    {
        if let Some(pieces) = &mut self.pieces {
            pieces.add(bytes);
        }
    }

    /// Gives the tree after the last bytes of files, and begins the next one. The pieces go on.
    pub(crate) fn end_tree(
        &mut self,
        alloc: Global,
        plan: &Plan,
        last: &[u8],
    ) -> Result<Option<FedTree>, AllocError>
        requires planned { IsPlan plan.now }
        requires small { ForSome (tree_of self.old) (λ feed. length feed.bytes + length last.now ≤ MAX_LENGTH) }
        ensures tree { (kind : Kind) (piece_length : ℕ) (before joined : List ℕ) →
            HasFedContent kind piece_length before joined self.old →
            IfOk result (IsTreeOf kind piece_length (before ++ last.now)) }
        ensures next { (kind : Kind) (piece_length : ℕ) (before joined : List ℕ) → kind ≡ plan.now.kind →
            piece_length ≡ plan.now.piece_length → HasFedContent kind piece_length before joined self.old →
            HasFedContent kind piece_length [] joined self.new }
        ensures new { IsTreeOf plan.now.kind plan.now.piece_length [] (tree_of self.new) }
        ensures empty { ForSome (tree_of self.new) (λ feed. feed.bytes ≡ []) }
    {
        let next = plan
            .kind()
            .has_v2()
            .then(|| Feed::new(alloc, plan.piece_length()));
        match mem::replace(&mut self.tree, next) {
            Some(feed) => Ok(Some(feed.end_with(last)?)),
            None => Ok(None),
        }
    }

    /// Gives the sums of the pieces, none in V2, and begins the next ones. The tree goes on.
    pub(crate) fn end_pieces(&mut self, alloc: Global, plan: &Plan) -> Vec<u8>
        requires { IsPlan plan.now }
        ensures sums { (kind : Kind) (piece_length : ℕ) (before joined : List ℕ) →
            HasFedContent kind piece_length before joined self.old →
            result.items ≡ (if has_v1 kind then piece_sums piece_length joined else []) }
        ensures next { (before : List ℕ) → IsTreeOf plan.now.kind plan.now.piece_length before (tree_of self.old) →
            HasFedContent plan.now.kind plan.now.piece_length before [] self.new }
        ensures tree { tree_of self.new ≡ tree_of self.old }
    {
        let next = plan
            .kind()
            .has_v1()
            .then(|| PieceSums::new(alloc, plan.piece_length()));
        sums_of(alloc, mem::replace(&mut self.pieces, next))
    }

    /// Adds the last bytes of files to the tree, since the pieces have them already, and ends the content.
    pub fn finish_tree(self, alloc: Global, last: &[u8]) -> Result<Hashed, AllocError>
        requires { ForSome (tree_of self) (λ feed. length feed.bytes + length last.now ≤ MAX_LENGTH) }
        ensures { (kind : Kind) (piece_length : ℕ) (before joined : List ℕ) →
            HasFedContent kind piece_length before joined self →
            IfOk result (AreHashesOf kind piece_length (before ++ last.now) joined) }
    {
        let ContentHasher { tree, pieces } = self;
        let tree = match tree {
            Some(feed) => Some(feed.end_with(last)?),
            None => None,
        };
        Ok(Hashed {
            tree,
            pieces: sums_of(alloc, pieces),
        })
    }

    /// Ends the content. It takes no memory.
    pub fn finish(self, alloc: Global) -> Hashed
        ensures { (kind : Kind) (piece_length : ℕ) (bytes joined : List ℕ) →
            HasFedContent kind piece_length bytes joined self → AreHashesOf kind piece_length bytes joined result }
    {
        let ContentHasher { tree, pieces } = self;
        let tree = match tree {
            Some(feed) => Some(feed.end()),
            None => None,
        };
        Hashed {
            tree,
            pieces: sums_of(alloc, pieces),
        }
    }
}

/// The joined sums of the pieces, if there are any.
fn sums_of(alloc: Global, pieces: Option<PieceSums>) -> Vec<u8>
    ensures sums { (piece_length : ℕ) (bytes : List ℕ) →
        IsSomeAnd pieces (λ pieces. HasFed pieces piece_length bytes) → result.items ≡ piece_sums piece_length bytes }
    ensures none { pieces ≡ None → result.items ≡ [] }
{
    match pieces {
        Some(sums) => sums.finish(),
        None => Vec::new(alloc),
    }
}

/// Feeds so many zeros, as many at a time as the sums take. If memory is refused, fewer were fed; it can only be
/// refused if they begin a piece.
pub fn feed_zeros(pieces: &mut PieceSums, count: u64) -> Result<(), AllocError>
    ensures fed { OnOk result (Feeds pieces.old pieces.new (zeros count)) }
    ensures left { OnErr result ((fewer : ℕ) × (fewer < count) × Feeds pieces.old pieces.new (zeros fewer)) }
    ensures within { (piece_length : ℕ) (bytes : List ℕ) → HasFed pieces.old piece_length bytes →
        div_ceil (length bytes + count) piece_length ≤ div_ceil (length bytes) piece_length → IsOk result }
{
    let mut left = count;
    'runs: while left > 0 {
        let width = left.min(ZEROS_AT_ONCE);
        pieces.feed_zeros(width)?;
        left -= width;
    }
    Ok(())
}
