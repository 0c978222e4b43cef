//! What the files of a plan sum up to.
ghost use Rattle.std.specs.Prelude.{◌≡◌, ◌-◌, ◌*◌, ◌^◌, ◌<◌, ◌≤◌, [], ◌∷◌, IfOk, List, ℕ, None, Option, Some};
ghost use Rattle.std.specs.Prelude.{length, map, min, replicate, slice_index_or, true, if◌then◌else◌};
ghost use Rattle.std.specs.Int.{div_ceil};
ghost use Rattle.std.specs.List.{AllByRecursion, flat_map};
ghost use Rattle.std.specs.Option.{ForSome};
ghost use Rattle.tor_merkle.specs.Layer.{piece_layer, root_of};
ghost use Rattle.tor_merkle.specs.declared.TheConstants.{BLOCK_LENGTH, MAX_LENGTH};
ghost use Rattle.tor_plan.specs.PlanFacts.{IsPlan};
ghost use Rattle.tor_sums.specs.Sums.{AreSumsOf, AreSumsOfPlan, lists_of};
ghost use Rattle.tor_sums.specs.declared.unit_sums.UnitSums.{UnitSums};
ghost use Rattle.tor_sums.specs.steps.Hashes.{level_of, nodes_of_unit};
ghost use Rattle.tor_sums.specs.steps.Roots.{roots_of_trees};
ghost use Rattle.tor_sums.specs.steps.Run.{AreSumsOfUnits, node_in};
ghost use Rattle.tor_sums.specs.steps.Trees.{AreLeftInPlan, AreTreesOf};
ghost use Rattle.tor_tree.specs.Kinds.{has_v1, has_v2};
ghost use Rattle.tor_tree.specs.declared.kinds.Kind.{Kind};
ghost use Rattle.tor_v1.specs.Piece.{piece_sums};

use crate::joined::{layer_of_units, pieces_of_units};
use crate::trees::{FileTrees, Trees, trees_of};
use crate::unit_sums::{UnitSums, level_of};
use std::alloc::{AllocError, Global};
use tor_merkle::{BLOCK_LENGTH, Hash};
use tor_plan::Plan;

/// What files sum up to, file by file in the order of the plan.
#[derive(Debug, Drop)]
pub struct Sums {
    /// In bytes.
    pub lengths: Vec<u64>,
    /// The pieces root of each file, 32 bytes; none of an empty one, and none in V1 (BEP 52, "pieces root").
    pub roots: Vec<Option<Hash>>,
    /// For each file, the hashes of the layer where one covers one piece, in the order of the pieces; none of a file
    /// of at most one piece, and none in V1 (BEP 52, "piece layers").
    pub layers: Vec<Vec<Hash>>,
    /// The joined SHA-1 of each piece of the whole content, 20 bytes a piece (BEP 3, "info dictionary": `pieces`);
    /// empty in V2.
    pub pieces: Vec<u8>,
}

/// What the files of a plan sum up to, from what all its units do, and the roots of the trees over them.
pub fn sums_of_units(
    alloc: Global,
    plan: &Plan,
    units: &[UnitSums],
    roots: &[Option<Hash>],
) -> Result<Sums, AllocError>
    requires planned { IsPlan plan.now }
    requires roots { roots.now ≡ roots_of_trees (map (λ unit. unit.hash) units.now) plan.now.trees }
    ensures summed { (contents : List (List ℕ)) → map length contents ≡ plan.now.lengths →
        AreSumsOfUnits plan.now contents plan.now.units (map node_in units.now)
        (flat_map (λ unit. unit.pieces.items) units.now) →
        IfOk result (AreSumsOfPlan plan.now contents) }
    ensures lengths { IfOk result (λ sums. sums.lengths.items ≡ plan.now.lengths) }
    ensures pieces { IfOk result (λ sums. sums.pieces.items ≡ flat_map (λ unit. unit.pieces.items) units.now) }
{
    let lengths = Vec::from_slice(alloc, plan.lengths())?;
    let trees = trees_of_plan(alloc, plan, &lengths, units, roots)?;
    sums_with(alloc, lengths, units, trees)
}

/// What files of these lengths sum up to, from what all their units do, and from their trees, if the kind has them.
pub fn sums_with(
    alloc: Global,
    lengths: Vec<u64>,
    units: &[UnitSums],
    trees: Option<Trees>,
) -> Result<Sums, AllocError>
    ensures summed { (kind : Kind) (piece_length : ℕ) (contents : List (List ℕ)) (joined : List ℕ) →
        map length contents ≡ lengths.items → AreTreesOf kind piece_length contents trees →
        flat_map (λ unit. unit.pieces.items) units.now
        ≡ (if has_v1 kind then piece_sums piece_length joined else []) →
        IfOk result (AreSumsOf kind piece_length contents joined) }
    ensures lengths { IfOk result (λ sums. sums.lengths ≡ lengths) }
    ensures pieces { IfOk result (λ sums. sums.pieces.items ≡ flat_map (λ unit. unit.pieces.items) units.now) }
{
    let pieces = pieces_of_units(alloc, units)?;
    let Trees { roots, layers } = trees_or_none(alloc, lengths.len(), trees)?;
    Ok(Sums {
        lengths,
        roots,
        layers,
        pieces,
    })
}

/// The trees of so many files, or no root and no hash of a layer for each.
fn trees_or_none(alloc: Global, count: usize, trees: Option<Trees>) -> Result<Trees, AllocError>
    ensures { (kind : Kind) (piece_length : ℕ) (contents : List (List ℕ)) → length contents ≡ count →
        AreTreesOf kind piece_length contents trees → IfOk result (λ all.
        (all.roots.items ≡ map (λ content. if has_v2 kind then root_of content else None) contents)
        × (lists_of all.layers.items
        ≡ map (λ content. if has_v2 kind then piece_layer content piece_length else []) contents)) }
{
    match trees {
        Some(trees) => Ok(trees),
        None => no_trees(alloc, count),
    }
}

/// No root and no hash of a layer for each of so many files.
fn no_trees(alloc: Global, count: usize) -> Result<Trees, AllocError>
    ensures roots { IfOk result (λ trees. trees.roots.items ≡ replicate count None) }
    ensures layers { IfOk result (λ trees. lists_of trees.layers.items ≡ replicate count []) }
{
    let mut roots = Vec::with_capacity(alloc, count)?;
    let mut layers = Vec::with_capacity(alloc, count)?;
    'files: for _ in 0..count {
        roots.push(None)?;
        layers.push(Vec::new(alloc))?;
    }
    Ok(Trees { roots, layers })
}

/// The trees of the files of a plan, if its kind has them.
fn trees_of_plan(
    alloc: Global,
    plan: &Plan,
    lengths: &[u64],
    units: &[UnitSums],
    tops: &[Option<Hash>],
) -> Result<Option<Trees>, AllocError>
    requires planned { IsPlan plan.now }
    requires lengths { lengths.now ≡ plan.now.lengths }
    requires tops { tops.now ≡ roots_of_trees (map (λ unit. unit.hash) units.now) plan.now.trees }
    ensures { (contents : List (List ℕ)) → map length contents ≡ plan.now.lengths →
        (has_v2 plan.now.kind ≡ true → map node_in units.now
        ≡ flat_map (nodes_of_unit plan.now.piece_length (level_of plan.now.trees) contents) plan.now.units) →
        IfOk result (AreTreesOf plan.now.kind plan.now.piece_length contents) }
{
    if !plan.kind().has_v2() {
        return Ok(None);
    }
    let files = PlannedTrees {
        level: level_of(&plan.forest().trees),
        rest: units,
        tops,
    };
    let trees = trees_of(alloc, lengths, files)?;
    Ok(Some(trees))
}

/// The files of a plan that are left: what their units sum up to, of which several stand at the level, and the roots of
/// the trees over them.
#[derive(Drop)]
struct PlannedTrees<'a> {
    level: Option<u32>,
    rest: &'a [UnitSums],
    tops: &'a [Option<Hash>],
}

impl<'a> FileTrees for PlannedTrees<'a> {
    ghost may_tell = { λ files sizes.
        ForSome files.level (λ k. k ≤ 36) × AllByRecursion (λ size. size ≤ MAX_LENGTH) sizes };

    ghost are_of = { λ files piece_length contents.
        AreLeftInPlan files.level piece_length contents files.rest.now files.tops.now };

    fn next(&mut self, alloc: Global, size: u64) -> Result<(Option<Hash>, Vec<Hash>), AllocError> {
        let count = count_of_units(size, self.level) as usize;
        let (own, later) = self.rest.split_at(count.min(self.rest.len()));
        let (root, tops) = root_of_file(own, self.tops);
        self.rest = later;
        self.tops = tops;
        let layer = layer_of_units(alloc, own)?;
        Ok((root, layer))
    }
}

/// How many units a file has, of which several stand at the level.
fn count_of_units(size: u64, level: Option<u32>) -> u64
    requires low { ForSome level (λ k. k ≤ 36) }
    requires small { size ≤ MAX_LENGTH }
    ensures several { ForSome level (λ k. result ≡ div_ceil size (BLOCK_LENGTH * 2 ^ k)) }
    ensures few { ForSome level (λ k. result ≤ 2 ^ (36 - k)) }
    ensures one { level ≡ None → result ≡ min 1 size }
{
    match level {
        Some(level) => size.div_ceil(BLOCK_LENGTH as u64 * (1 << level)),
        None => size.min(1),
    }
}

/// The root of a file: that of its one unit, or of the first of these trees; and the trees that are left.
fn root_of_file<'a>(
    units: &[UnitSums],
    tops: &'a [Option<Hash>],
) -> (Option<Hash>, &'a [Option<Hash>])
    ensures none { length units.now ≡ 0 → (result.0 ≡ None) × (result.1.now ≡ tops.now) }
    ensures one { (d : UnitSums) → length units.now ≡ 1 →
        (result.0 ≡ Some (slice_index_or units.now 0 d).hash) × (result.1.now ≡ tops.now) }
    ensures several { (top : Option (List ℕ)) (more : List (Option (List ℕ))) → 1 < length units.now →
        tops.now ≡ top ∷ more → (result.0 ≡ top) × (result.1.now ≡ more) }
{
    match (units.first(), tops.split_first()) {
        (Some(_), Some((top, more))) if units.len() > 1 => (*top, more),
        (Some(one), _) => (Some(one.hash), tops),
        (None, _) => (None, tops),
    }
}
