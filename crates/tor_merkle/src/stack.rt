//! The root of a tree over hashes that come one after another, in a fixed amount of memory.

ghost use Rattle.std.specs.Prelude.{◌≡◌, ◌+◌, ◌-◌, ◌^◌, ◌<◌, ◌≤◌, ◌↔◌, IsTrue, [], ◌∷◌, ◌++◌, length};
ghost use Rattle.tor_merkle.specs.Stack.{padded_root, padded_subtree};

use crate::digits::{height_of, lowest_one};
use crate::hash::{Hash, pair, zero};
use crate::trail::History;
use std::marker::Model;

/// The levels of a tree of at most 2^36 leaves.
const LEVELS: usize = 37;

/// Roots of subtrees of `2^level` leaves each, pushed from the left. It keeps at most one hash a
/// level, so it never takes memory.
#[derive(Drop)]
pub struct Stack {
    level: u32,
    count: u64,
    tops: [Hash; LEVELS],
    pushed: History<Hash>,
}

impl Model for Stack {
    ghost use Rattle.tor_merkle.specs.Stack.{Subtrees};
    ghost use Rattle.tor_merkle.specs.steps.Tops.{KeepsTops};

    ghost Value = { Subtrees };

    ghost view = { λ s. record { level = s.level; hashes = s.pushed.items } };

    ghost invariant = { λ s. KeepsTops s.level s.count s.tops s.pushed.items };
}

impl Stack {
    /// A stack of no hash, for subtrees of `2^level` leaves.
    pub fn new(level: u32) -> Stack
        requires { level ≤ 36 }
        ensures empty { result.hashes ≡ [] }
        ensures level { result.level ≡ level }
    {
        Stack {
            level,
            count: 0,
            tops: [[0; 32]; LEVELS],
            pushed: History::new(),
        }
    }

    /// Adds the root of the next subtree. A stack has room for those of `2^36` leaves.
    pub fn push(&mut self, hash: Hash)
        requires { length self.old.hashes < 2 ^ (36 - self.old.level) }
        ensures hashes { self.new.hashes ≡ self.old.hashes ++ hash ∷ [] }
        ensures level { self.new.level ≡ self.old.level }
    {
        let pushed = self.pushed.with(&[hash]);
        let mut top = hash;
        let mut digit = 0;
        let mut rest = self.count;
        'carries: while rest % 2 == 1 {
            top = pair(&self.tops[digit], &top);
            rest /= 2;
            digit += 1;
        }
        self.tops[digit] = top;
        self.count += 1;
        self.pushed = pushed;
    }

    /// How many hashes were pushed.
    pub fn len(&self) -> u64
        ensures { result ≡ length self.now.hashes }
    {
        self.count
    }

    /// Whether no hash was pushed.
    pub fn is_empty(&self) -> bool
        ensures { IsTrue result ↔ (self.now.hashes ≡ []) }
    {
        self.count == 0
    }

    /// The root of the tree over the hashes pushed, followed by zero subtrees up to a power of two (BEP 52,
    /// "pieces root").
    pub fn root(&self) -> Hash
        requires { 0 < length self.now.hashes }
        ensures { result ≡ padded_root self.now.level self.now.hashes }
    {
        self.subtree(height_of(self.count))
    }

    /// The root over `2^height` hashes: those pushed, followed by zero subtrees.
    pub fn subtree(&self, height: u32) -> Hash
        requires some { 0 < length self.now.hashes }
        requires wide { length self.now.hashes ≤ 2 ^ height }
        requires low { self.now.level + height ≤ 36 }
        ensures { result ≡ padded_subtree height self.now.level self.now.hashes }
    {
        let (lowest, odd) = lowest_one(self.count);
        let mut top = self.tops[lowest as usize];
        let mut index = odd - 1;
        'climb: for digit in lowest..height {
            top = if index % 2 == 1 {
                pair(&self.tops[digit as usize], &top)
            } else {
                pair(&top, &zero(self.level + digit))
            };
            index /= 2;
        }
        top
    }
}
