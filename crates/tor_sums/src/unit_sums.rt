//! What one unit sums up to in its file.
ghost use Rattle.std.specs.Prelude.{◌≡◌, ◌≢◌, ◌^◌, ◌<◌, ◌≤◌, ◌++◌, ◌∷◌, [], ℕ, All, IsSomeAnd, List, None, Some, IfErr};
ghost use Rattle.std.specs.Prelude.{IfOk, MatchResult, length, slice_index_or};
ghost use Rattle.std.specs.List.{AllByRecursion};
ghost use Rattle.std.specs.Option.{ForSome};
ghost use Rattle.tor_merkle.specs.Layer.{IsPieceLength, piece_roots};
ghost use Rattle.tor_plan.specs.PlanFacts.{IsPlan};
ghost use Rattle.tor_plan.specs.WithinEntries.{IsInFile, unit_length};
ghost use Rattle.tor_plan.specs.declared.units.Part.{Part};
ghost use Rattle.tor_source.specs.Source.{SourceFacts};
ghost use Rattle.tor_sums.specs.Fault.{IsFault, PartFailsWithin, unit_fault, wanted_unit_fault};
ghost use Rattle.tor_sums.specs.steps.Given.{IsGivenRead};
ghost use Rattle.tor_sums.specs.steps.Hashes.{level_in, level_of, node_over};
ghost use Rattle.tor_sums.specs.steps.Reads.{HasParts};
ghost use Rattle.tor_sums.specs.steps.Owing.{Owes};
ghost use Rattle.tor_sums.specs.steps.Run.{HasRoomAt, IsUnitOf, IsUnitToSum, OwesUnit, bare_node, node_in};

use crate::errors::EngineError;
use crate::file_bytes::FileBytes;
use crate::hasher::Hashed;
use crate::owing::{OwingSums, room_for_sums};
use crate::unit_tree::tree_of_unit;
use std::alloc::Global;
use tor_merkle::laws::{count_of_piece_roots, piece_roots_fit_a_layer};
use tor_merkle::{FedTree, Hash, layer_subtree, piece_level};
use tor_plan::{Plan, PlanUnit, Run};

/// What one unit sums up to.
#[derive(Debug, Drop)]
pub struct UnitSums {
    /// Its number, from 0.
    pub unit: u64,
    /// The root of its file if it is alone there (BEP 52, "pieces root"), else the node of the file's tree that covers
    /// it, over zero leaves past the end; zeros in V1.
    pub hash: Hash,
    /// What it has of its file's layer, in order (BEP 52, "piece layers"); none in V1.
    pub layer: Vec<Hash>,
    /// The joined SHA-1 of each piece, 20 bytes a piece (BEP 3, "info dictionary": `pieces`); none in V2.
    pub pieces: Vec<u8>,
}

impl UnitSums {
    /// From its number, what its bytes hash to, and its level, if it is not alone in its file.
    pub fn new(alloc: Global, unit: u64, hashed: Hashed, level: Option<u32>) -> UnitSums
        requires { ForSome hashed.tree (λ tree. ForSome level (HasRoomAt tree.piece_length (length tree.bytes))) }
        ensures unit { result.unit ≡ unit }
        ensures node { ForSome hashed.tree (λ tree. tree.bytes ≢ [] →
            node_in result ≡ node_over tree.piece_length level tree.bytes) }
        ensures empty { ForSome hashed.tree (λ tree. tree.bytes ≡ [] → node_in result ≡ bare_node) }
        ensures bare { hashed.tree ≡ None → node_in result ≡ bare_node }
        ensures pieces { result.pieces ≡ hashed.pieces }
    {
        let Hashed { tree, pieces } = hashed;
        let node = match tree {
            Some(tree) => node_over(tree, level),
            None => None,
        };
        let (hash, layer) = match node {
            Some(node) => node,
            None => ([0; 32], Vec::new(alloc)),
        };
        UnitSums {
            unit,
            hash,
            layer,
            pieces,
        }
    }
}

/// The node over the bytes of a tree, and what they have of the layer; none if there is no byte.
fn node_over(tree: FedTree, level: Option<u32>) -> Option<(Hash, Vec<Hash>)>
    requires { ForSome level (HasRoomAt tree.piece_length (length tree.bytes)) }
    ensures some { tree.bytes ≢ [] → IsSomeAnd result (λ node.
        (node.0, node.1.items) ≡ node_over tree.piece_length level tree.bytes) }
    ensures none { tree.bytes ≡ [] → result ≡ None }
{
    match level {
        Some(level) => node_at(tree, level),
        None => tree.finish(),
    }
}

/// The node over the bytes of a tree at a level of a higher tree, and what they have of the layer; none if there is no
/// byte.
fn node_at(tree: FedTree, level: u32) -> Option<(Hash, Vec<Hash>)>
    requires { HasRoomAt tree.piece_length (length tree.bytes) level }
    ensures some { tree.bytes ≢ [] → IsSomeAnd result (λ node.
        (node.0, node.1.items) ≡ node_over tree.piece_length (Some level) tree.bytes) }
    ensures none { tree.bytes ≡ [] → result ≡ None }
{
    count_of_piece_roots();
    piece_roots_fit_a_layer();
    let piece_length = tree.piece_length();
    let layer = tree.piece_roots();
    if layer.is_empty() {
        return None;
    }
    Some(node_over_pieces(piece_length, level, layer))
}

/// The node over bytes whose pieces have these roots, at a level of a higher tree, and the roots.
pub fn node_over_pieces(piece_length: u64, level: u32, layer: Vec<Hash>) -> (Hash, Vec<Hash>)
    requires pieces { IsPieceLength piece_length }
    requires some { 0 < length layer.items }
    requires room { (bytes : List ℕ) × HasRoomAt piece_length (length bytes) level
        × (layer.items ≡ piece_roots bytes piece_length) }
    ensures { (bytes : List ℕ) → HasRoomAt piece_length (length bytes) level →
        layer.items ≡ piece_roots bytes piece_length →
        (result.0, result.1.items) ≡ node_over piece_length (Some level) bytes }
{
    let below = piece_level(piece_length);
    let hash = layer_subtree(&layer, below, level - below);
    (hash, layer)
}

/// The level of the units of files that have several.
pub(crate) fn level_of(trees: &[Run]) -> Option<u32>
    ensures { result ≡ level_of trees.now }
{
    match trees.first() {
        Some(run) => Some(run.level),
        None => None,
    }
}

/// The level of a unit; none if it is alone in its file.
fn level_in(plan: &Plan, unit: &PlanUnit) -> Option<u32>
    requires { IsUnitOf plan.now unit.now }
    ensures level { (part : Part) → unit.now.parts ≡ part ∷ [] →
        result ≡ level_in (level_of plan.now.trees) (slice_index_or plan.now.lengths part.file 0) part.length }
    ensures tree { ForSome result (λ level. level_of plan.now.trees ≡ Some level) }
{
    let Some(part) = unit.parts.as_slice().first() else {
        return None;
    };
    if part.length < plan.lengths()[part.file as usize] {
        level_of(&plan.forest().trees)
    } else {
        None
    }
}

/// Reads one unit, and gives what it sums up to once it has the sums of its pieces, for which it has room.
pub fn sum_unit<S: FileBytes>(
    alloc: Global,
    source: &S,
    plan: &Plan,
    number: u64,
    unit: &PlanUnit,
    worker: &mut OwingSums,
) -> Result<UnitSums, EngineError<S::Fault>>
    requires planned { IsPlan plan.now }
    requires unit { IsUnitToSum plan.now unit.now }
    requires owing { (owed : List ℕ) × Owes plan.now owed worker.old }
    ensures owing { (owed : List ℕ) → Owes plan.now owed worker.old → IfOk result (λ summed. (own : List ℕ)
        × OwesUnit (S.is_steady source.now) plan.now unit.now summed own × Owes plan.now (owed ++ own) worker.new) }
    ensures number { IfOk result (λ summed. summed.unit ≡ number) }
    ensures fault { (facts : SourceFacts S.Fault) → S.is_steady source.now facts → HasParts facts unit.now.parts →
        MatchResult result (λ _. unit_fault facts unit.now ≡ None) (IsFault (unit_fault facts unit.now)) }
    ensures wanted { (facts : SourceFacts S.Fault) → S.is_steady source.now facts →
        AllByRecursion (PartFailsWithin facts) unit.now.parts → MatchResult result
        (λ _. wanted_unit_fault facts unit.now ≡ None) (IsFault (wanted_unit_fault facts unit.now)) }
    ensures gave { (lengths : List ℕ) → All (IsInFile lengths) unit.now.parts →
        IfErr result (IsGivenRead (S.answers source.now) lengths) }
{
    let tree = match tree_of_unit(alloc, source, plan, unit, worker) {
        Ok(tree) => tree,
        Err(error) => return Err(error),
    };
    let pieces = room_for_sums(alloc, plan, unit_length(unit))?;
    Ok(UnitSums::new(alloc, number, Hashed { tree, pieces }, level_in(plan, unit)))
}

/// How many bytes a unit has, zeros among them.
pub fn unit_length(unit: &PlanUnit) -> u64
    requires { unit_length unit.now ≤ 2 ^ 40 }
    ensures { result ≡ unit_length unit.now }
{
    let mut count = unit.zeros;
    'parts: for part in unit.parts.as_slice() {
        count += part.length + part.zeros;
    }
    count
}
