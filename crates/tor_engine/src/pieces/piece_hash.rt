//! What one piece hashes to, and what is known of it while its SHA-1 is owed.
ghost use Rattle.std.specs.Prelude.{◌≡◌, ◌≢◌, ◌≤◌, true, [], ℕ, List, None, Some, is_some, length};
ghost use Rattle.std.specs.Prelude.{if◌then◌else◌};
ghost use Rattle.std.specs.List.{flat_map};
ghost use Rattle.tor_plan.specs.Content.{unit_content};
ghost use Rattle.tor_plan.specs.Present.{is_there};
ghost use Rattle.tor_tree.specs.Kinds.{has_v1, has_v2};
ghost use Rattle.tor_v1.specs.Piece.{piece_sums};
ghost use Rattle.tor_sums.specs.Hasher.{IsTreeOf};
ghost use Rattle.tor_merkle.specs.PieceHash.{merkle_hash};
ghost use Rattle.tor_engine.specs.PieceHashes.{hash_of_parts, piece_hash};
ghost use Rattle.tor_sums.specs.steps.Hashes.{bytes_of_part};
ghost use Rattle.tor_engine.specs.declared.pieces.piece_hash.TheConstants.{SUM_LENGTH};
ghost use Rattle.tor_engine.specs.steps.Pieces.{HasPieces, IsPiece, hashes_in, owed_to_piece, paid_piece};
ghost use Rattle.tor_engine.specs.steps.Unsummed.{found_of};

use tor_merkle::laws::root_of_short_content;
use tor_merkle::{FedTree, Hash};
use tor_plan::{Plan, PlanUnit};
use tor_sums::Owed;
use tor_tree::Kind;

/// The bytes of a SHA-1.
const SUM_LENGTH: usize = 20;

/// The hashes of a piece, one for each side that a torrent of its kind has.
#[derive(Clone, Copy, Debug, PartialEq, Eq)]
pub struct PieceHash {
    /// The SHA-1 of its bytes, padding among them (BEP 3, "info dictionary": `pieces`); none in V2.
    pub v1: Option<[u8; 20]>,
    /// The root over its blocks, with zero leaves up to a whole piece if its file is longer than one (BEP 52,
    /// "piece layers"), else the root of its file (BEP 52, "pieces root"); none in V1.
    pub v2: Option<Hash>,
}

/// What is known of a piece while the worker that has read it owes sums.
#[derive(Clone, Copy, PartialEq, Eq)]
pub(crate) enum FoundPiece {
    /// Some byte of it is not there.
    Missing,
    /// It is there, and has these hashes.
    Hashed(PieceHash),
    /// It is there, and has this Merkle hash, none in V1; its SHA-1 is owed.
    Unsummed(Option<Hash>),
}

impl FoundPiece {
    /// Its hashes, as far as they are known; none if a byte of it is not there.
    pub(crate) fn hashes(&self) -> Option<PieceHash>
        ensures { result ≡ hashes_in self.now }
    {
        match self {
            FoundPiece::Missing => None,
            FoundPiece::Hashed(hashes) => Some(*hashes),
            FoundPiece::Unsummed(v2) => Some(PieceHash { v1: None, v2: *v2 }),
        }
    }
}

impl Owed for FoundPiece {
    ghost owed = { owed_to_piece };

    ghost paid = { paid_piece };

    fn take_own<'a>(&mut self, sums: &'a [u8]) -> &'a [u8] {
        match *self {
            FoundPiece::Unsummed(v2) => {
                let (own, rest) = sums.split_at(SUM_LENGTH);
                *self = FoundPiece::Hashed(PieceHash {
                    v1: first_sum(own),
                    v2,
                });
                rest
            }
            _ => sums,
        }
    }
}

/// The first of joined SHA-1s.
fn first_sum(joined: &[u8]) -> Option<[u8; 20]>
    ensures { length joined.now ≡ SUM_LENGTH → result ≡ Some joined.now }
{
    let (sums, _) = joined.as_chunks::<20>();
    sums.first().copied()
}

/// What was found of a piece that was read, from the tree over its bytes.
pub(crate) fn piece_of_tree(plan: &Plan, piece: &PlanUnit, tree: Option<FedTree>) -> FoundPiece
    requires { IsPiece plan.now piece.now }
    ensures hashes { (contents : List (List ℕ)) (own : List ℕ) → is_there contents piece.now ≡ true →
        IsTreeOf plan.now.kind plan.now.piece_length (flat_map (bytes_of_part contents) piece.now.parts) tree →
        own ≡ (if has_v1 plan.now.kind
        then piece_sums plan.now.piece_length (unit_content contents piece.now) else []) →
        hashes_in (paid_piece result own) ≡ Some (piece_hash plan.now contents piece.now) }
    ensures owed { owed_to_piece result ≡ (if has_v1 plan.now.kind then SUM_LENGTH else 0) }
    ensures there { is_some (hashes_in result) ≡ true }
{
    let v2 = merkle_hash_of_piece(plan, piece, tree);
    found_of(plan.kind(), v2)
}

/// What is found of a piece that has this Merkle hash, none in V1.
pub(crate) fn found_of(kind: Kind, v2: Option<Hash>) -> FoundPiece
    ensures { result ≡ found_of kind v2 }
{
    if kind.has_v1() {
        FoundPiece::Unsummed(v2)
    } else {
        FoundPiece::Hashed(PieceHash { v1: None, v2 })
    }
}

/// The Merkle hash of a piece, from the tree over its bytes.
fn merkle_hash_of_piece(plan: &Plan, piece: &PlanUnit, tree: Option<FedTree>) -> Option<Hash>
    requires { IsPiece plan.now piece.now }
    ensures { (contents : List (List ℕ)) → HasPieces plan.now.piece_length contents piece.now.parts →
        IsTreeOf plan.now.kind plan.now.piece_length (flat_map (bytes_of_part contents) piece.now.parts) tree →
        result ≡ (if has_v2 plan.now.kind then Some (hash_of_parts plan.now contents piece.now.parts) else None) }
{
    let Some(tree) = tree else {
        return None;
    };
    let Some(part) = piece.parts.as_slice().first() else {
        return None;
    };
    merkle_hash(tree, plan.lengths()[part.file as usize])
}

/// The Merkle hash of the bytes of a tree, a piece of a file that has `size` bytes.
fn merkle_hash(tree: FedTree, size: u64) -> Option<Hash>
    ensures { tree.bytes ≢ [] → length tree.bytes ≤ tree.piece_length →
        result ≡ Some (merkle_hash tree.piece_length size tree.bytes) }
{
    root_of_short_content();
    if size > tree.piece_length() {
        return tree.piece_roots().first().copied();
    }
    let sums = tree.finish()?;
    let root = sums.0;
    Some(root)
}
