//! Laws over the definitions alone.

ghost use Rattle.std.specs.Prelude.{◌≡◌, ℕ, suc, ◌+◌, ◌*◌, ◌-◌, ◌^◌, ◌<◌, ◌≤◌, ◌↔◌, IsTrue, All, List, [], ◌∷◌, ◌++◌};
ghost use Rattle.std.specs.Prelude.{length, map, slice_index_or};
ghost use Rattle.std.specs.Int.{div_ceil, is_power_of_two};
ghost use Rattle.std.specs.List.{flat_map, range_with_len};
ghost use Rattle.tor_merkle.specs.Block.{run_at, leaves};
ghost use Rattle.tor_merkle.specs.Layer.{IsPieceLength, pieces_root, piece_level, piece_roots, piece_layer};
ghost use Rattle.tor_merkle.specs.Proof.{proof_count, proof_level};
ghost use Rattle.tor_merkle.specs.Stack.{padded_root, padded_subtree};
ghost use Rattle.tor_merkle.specs.Subtree.{height, node_of, zero_subtree};
ghost use Rattle.tor_merkle.specs.declared.layer.TheConstants.{MANY};

use crate::{BLOCK_LENGTH, MAX_LENGTH, MAX_PIECE_LENGTH, MIN_PIECE_LENGTH};

/// A piece length is a power of two from 16,384 to 2^30.
pub fn piece_length_bounds()
    ensures { (n : ℕ) → IsPieceLength n
        ↔ (IsTrue (is_power_of_two n) × (MIN_PIECE_LENGTH ≤ n) × (n ≤ MAX_PIECE_LENGTH)) }
{}

/// Each piece length divides the greatest.
pub fn piece_lengths_divide_the_greatest()
    ensures { (n : ℕ) → IsPieceLength n → (count : ℕ) × (MAX_PIECE_LENGTH ≡ count * n) }
{}

/// Each piece of a content has one root.
pub fn count_of_piece_roots()
    ensures { (content : List ℕ) (piece_length : ℕ) →
        length (piece_roots content piece_length) ≡ div_ceil (length content) piece_length }
{}

/// If a content is cut after a whole piece, the roots of its pieces are those of both parts.
pub fn piece_roots_of_joined()
    ensures { (a b : List ℕ) (piece_length k : ℕ) → IsPieceLength piece_length → length a ≡ k * piece_length →
        piece_roots (a ++ b) piece_length ≡ piece_roots a piece_length ++ piece_roots b piece_length }
{}

/// If a content is cut into units of so many whole pieces, the last perhaps shorter, the roots of its pieces are those
/// of the units, one unit after another.
pub fn piece_roots_of_units()
    ensures { (content : List ℕ) (piece_length span : ℕ) → IsPieceLength piece_length → 0 < span →
        flat_map (λ unit. piece_roots unit piece_length) (map (run_at (span * piece_length) content)
        (range_with_len 0 (div_ceil (length content) (span * piece_length)))) ≡ piece_roots content piece_length }
{}

/// A content of at most one piece has one root, which covers a whole piece: zero leaves stand past its own.
pub fn root_of_short_content()
    ensures { (content : List ℕ) (piece_length : ℕ) → IsPieceLength piece_length →
        0 < length content → length content ≤ piece_length →
        piece_roots content piece_length ≡ padded_subtree (piece_level piece_length) 0 (leaves content) ∷ [] }
{}

/// The root of a content longer than a piece is that of its layer, which has the roots of all its pieces.
pub fn root_of_long_content()
    ensures root { (content : List ℕ) (piece_length : ℕ) → IsPieceLength piece_length → piece_length < length content →
        pieces_root content ≡ padded_root (piece_level piece_length) (piece_roots content piece_length) }
    ensures layer { (content : List ℕ) (piece_length : ℕ) → piece_length < length content →
        piece_layer content piece_length ≡ piece_roots content piece_length }
{}

/// The root of a content has 32 bytes, and so has the root of each of its pieces.
pub fn roots_have_32_bytes()
    ensures content { (content : List ℕ) → length (pieces_root content) ≡ 32 }
    ensures pieces { (content : List ℕ) (piece_length : ℕ) →
        All (λ root. length root ≡ 32) (piece_roots content piece_length) }
{}

/// [`crate::layer_root`] takes the roots of the pieces of any content of 1 to 2^50 bytes, at the level of a piece.
pub fn piece_roots_fit_a_layer()
    ensures level { (piece_length : ℕ) → IsPieceLength piece_length → piece_level piece_length ≤ 16 }
    ensures some { (content : List ℕ) (piece_length : ℕ) → IsPieceLength piece_length → 0 < length content →
        0 < length (piece_roots content piece_length) }
    ensures small { (content : List ℕ) (piece_length : ℕ) → IsPieceLength piece_length → length content ≤ MAX_LENGTH →
        length (piece_roots content piece_length) ≤ 2 ^ (36 - piece_level piece_length) }
{}

/// [`crate::verify`] takes the count and the level of the proofs of any file of at most 2^50 bytes.
pub fn proofs_are_low()
    ensures { (size piece_length : ℕ) → IsPieceLength piece_length → size ≤ MAX_LENGTH →
        proof_level size piece_length + height (proof_count size piece_length) ≤ 36 }
{}

/// The height of a tree over n hashes is the least k with n at most 2^k.
pub fn heights_are_least()
    ensures covers { (n : ℕ) → n ≤ 2 ^ height n }
    ensures least { (n k : ℕ) → n ≤ 2 ^ k → height n ≤ k }
{}

/// The root over a run of hashes is the node of the roots over its halves; past the end stand zero subtrees.
pub fn roots_of_runs()
    ensures one { (level i : ℕ) (hashes : List (List ℕ)) →
        padded_subtree 0 level (run_at 1 hashes i) ≡ slice_index_or hashes i (zero_subtree level) }
    ensures halves { (level k i : ℕ) (hashes : List (List ℕ)) →
        padded_subtree (suc k) level (run_at (2 ^ suc k) hashes i)
        ≡ node_of (padded_subtree k level (run_at (2 ^ k) hashes (2 * i)))
        (padded_subtree k level (run_at (2 ^ k) hashes (2 * i + 1))) }
    ensures whole { (level : ℕ) (hashes : List (List ℕ)) →
        padded_subtree (height (length hashes)) level (run_at (2 ^ height (length hashes)) hashes 0)
        ≡ padded_root level hashes }
{}

/// A content that fits into a subtree has the root over its leaves that it has over the roots of its pieces of 2^j
/// blocks, past whose end stand zero subtrees.
pub fn subtrees_over_pieces()
    ensures { (content : List ℕ) (j k : ℕ) → length content ≤ BLOCK_LENGTH * 2 ^ (k + j) →
        padded_subtree (k + j) 0 (leaves content)
        ≡ padded_subtree k j (piece_roots content (BLOCK_LENGTH * 2 ^ j)) }
{}

/// The root of a content longer than 2^k blocks is that over its runs of so many, each of which has the root over its
/// leaves, followed by zero subtrees.
pub fn roots_over_units()
    ensures { (content : List ℕ) (k : ℕ) → BLOCK_LENGTH * 2 ^ k < length content →
        pieces_root content ≡ padded_root k (map (λ unit. padded_subtree k 0 (leaves unit))
        (map (run_at (BLOCK_LENGTH * 2 ^ k) content)
        (range_with_len 0 (div_ceil (length content) (BLOCK_LENGTH * 2 ^ k))))) }
{}

/// A block, and the limits of a piece and of a file, in bytes.
pub fn lengths_of_blocks_and_pieces()
    ensures block { BLOCK_LENGTH ≡ 16384 }
    ensures shortest { MIN_PIECE_LENGTH ≡ 16384 }
    ensures longest { MAX_PIECE_LENGTH ≡ 2 ^ 30 }
    ensures file { MAX_LENGTH ≡ 2 ^ 50 }
{}

/// From so many hashes on a root is joined eight nodes at a time.
pub fn least_joined_by_eight()
    ensures { MANY ≡ 16 }
{}
