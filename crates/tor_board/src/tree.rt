//! The trees over runs of units, and where their words and slots stand.
ghost use Rattle.std.specs.Prelude.{◌≡◌, ◌≢◌, ℕ, ◌+◌, ◌-◌, ◌*◌, ◌/◌, ◌^◌, ◌<◌, ◌≤◌, IfSome, IfNone};
ghost use Rattle.tor_board.specs.Trees.{middle, word_of, slot_of, slot_at};
ghost use Rattle.tor_board.specs.Rising.{risen, raised};
ghost use Rattle.tor_board.specs.Shapes.{AreStarts, IsShape, IsTreeOf};
ghost use Rattle.tor_board.specs.steps.Row.{IsLow};
ghost use Rattle.tor_board.specs.declared.tree.Tree.{Tree};

use tor_merkle::{Hash, pair, zero};

/// The tree over the hashes of a run of units.
#[derive(Clone, Copy)]
pub(crate) struct Tree {
    /// Its place among the trees of the forest, in the order in which they were handed in.
    pub(crate) number: u64,
    /// How many units the trees before it have.
    pub(crate) offset: u64,
    /// The number of its first unit.
    pub(crate) first: u64,
    /// How many units it has.
    pub(crate) count: u64,
    /// The level of a unit.
    pub(crate) level: u32,
    /// How many levels it has above its units.
    pub(crate) height: u32,
}

/// The first unit of a tree, and the tree's number.
pub(crate) type Start = (u64, u64);

/// A spot of a tree, so many levels above the units, and the hash that has come there.
#[derive(Clone, Copy)]
pub(crate) struct Spot {
    pub(crate) level: u32,
    pub(crate) index: u64,
    pub(crate) hash: Hash,
}

/// What a board is made for: so many units, and the trees over runs of them.
#[derive(Drop)]
pub struct Shape {
    pub(crate) units: u64,
    pub(crate) trees: Vec<Tree>,
}

impl Shape {
    /// The tree that has a unit, if one has, by where the trees start in the order of their units.
    pub(crate) fn tree_of(&self, starts: &[Start], unit: u64) -> Option<Tree>
        requires shape { (words : ℕ) × (slots : ℕ) × IsShape words slots self.now }
        requires starts { AreStarts self.now.trees.items starts.now }
        ensures some { IfSome result (λ t. IsTreeOf self.now t × (t.first ≤ unit) × (unit < t.first + t.count)) }
        ensures none { IfNone result ((t : Tree) → IsTreeOf self.now t → (j : ℕ) → j < t.count → unit ≢ t.first + j) }
    {
        let mut low = 0;
        let mut high = starts.len();
        // The trees before `low` begin at or before the unit, those from `high` on after it.
        'halves: while low < high {
            let middle = low + (high - low) / 2;
            if starts[middle].0 <= unit {
                low = middle + 1;
            } else {
                high = middle;
            }
        }
        if low == 0 {
            return None;
        }
        let (_, number) = starts[low - 1];
        let tree = self.trees[number as usize];
        if unit - tree.first < tree.count {
            Some(tree)
        } else {
            None
        }
    }
}

/// The middle of that index of the level above: how many units stand left of it.
pub(crate) fn middle(level: u32, index: u64) -> u64
    requires { (level ≤ 36) × ((2 * index + 1) * 2 ^ level < 2 ^ 63) }
    ensures { result ≡ middle level index }
{
    (2 * index + 1) * (1 << level)
}

impl Tree {
    /// Where a hash rises to, as long as no unit stands beside it: each level pairs it with a zero subtree.
    pub(crate) fn risen(&self, start: Spot) -> Spot
        requires low { IsLow self.now }
        requires within { (start.level ≤ self.now.height) × (start.index * 2 ^ start.level < self.now.count) }
        ensures level { result.level ≡ (risen self.now (self.now.height - start.level) start.level start.index).0 }
        ensures index { result.index ≡ (risen self.now (self.now.height - start.level) start.level start.index).1 }
        ensures hash { result.hash
            ≡ raised self.now (self.now.height - start.level) start.level start.index start.hash }
    {
        let mut spot = start;
        'levels: while spot.level < self.height
            && middle(spot.level, spot.index / 2) >= self.count
        {
            spot = Spot {
                level: spot.level + 1,
                index: spot.index / 2,
                hash: pair(&spot.hash, &zero(self.level + spot.level)),
            };
        }
        spot
    }

    /// The slot of a spot that is a side of a node, or the whole tree.
    pub(crate) fn slot_at(&self, level: u32, index: u64) -> usize
        requires low { IsLow self.now }
        requires within { (level ≤ self.now.height) × (index * 2 ^ level < self.now.count) }
        requires offset { self.now.offset ≤ 2 ^ 62 }
        ensures { result ≡ slot_at self.now level index }
    {
        let slot = if level == self.height {
            2 * self.offset
        } else {
            2 * (self.offset + middle(level, index / 2)) + index % 2
        };
        slot as usize
    }

    /// The word of a node.
    pub(crate) fn word(&self, middle: u64) -> usize
        requires { (self.now.offset ≤ 2 ^ 62) × (middle < 2 ^ 62) }
        ensures { result ≡ word_of self.now middle }
    {
        (2 + self.offset + middle) as usize
    }

    /// The slot of a node's left (0) or right (1) side.
    pub(crate) fn side_slot(&self, middle: u64, side: u64) -> usize
        requires { (self.now.offset ≤ 2 ^ 62) × (middle < 2 ^ 62) × (side < 2) }
        ensures { result ≡ slot_of self.now middle side }
    {
        (2 * (self.offset + middle) + side) as usize
    }
}
