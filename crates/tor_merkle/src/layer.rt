//! The root of a tree over hashes that lie in a slice. Whole levels of it are hashed eight nodes at a time.

ghost use Rattle.std.specs.Prelude.{◌≡◌, ◌+◌, ◌-◌, ◌^◌, ◌<◌, ◌≤◌, length};
ghost use Rattle.tor_merkle.specs.Stack.{padded_root, padded_subtree};

use crate::digits::height_of;
use crate::eight::first_eight;
use crate::hash::Hash;
use crate::stack::Stack;

// Fewer hashes are joined pair by pair.
const MANY: usize = 16;

/// The root of the tree over `hashes`, roots of subtrees of `2^level` leaves, followed by zero
/// subtrees up to a power of two (BEP 52, "piece layers").
pub fn layer_root(hashes: &[Hash], level: u32) -> Hash
    requires level { level ≤ 36 }
    requires some { 0 < length hashes.now }
    requires small { length hashes.now ≤ 2 ^ (36 - level) }
    ensures { result ≡ padded_root level hashes.now }
{
    layer_subtree(hashes, level, height_of(hashes.len() as u64))
}

/// The root over `2^height` roots of subtrees of `2^level` leaves: `hashes`, followed by zero subtrees.
pub fn layer_subtree(hashes: &[Hash], level: u32, height: u32) -> Hash
    requires some { 0 < length hashes.now }
    requires wide { length hashes.now ≤ 2 ^ height }
    requires low { level + height ≤ 36 }
    ensures { result ≡ padded_subtree height level hashes.now }
{
    if hashes.len() < MANY {
        return stack_of(hashes, level).subtree(height);
    }
    // The root is three levels above eight nodes.
    let above = height - 3;
    let nodes = first_eight(hashes, level, above);
    stack_of(&nodes, level + above).subtree(3)
}

// A stack to which all of them were pushed.
fn stack_of(hashes: &[Hash], level: u32) -> Stack
    requires level { level ≤ 36 }
    requires small { length hashes.now ≤ 2 ^ (36 - level) }
    ensures hashes { result.hashes ≡ hashes.now }
    ensures level { result.level ≡ level }
{
    let mut stack = Stack::new(level);
    'pushes: for hash in hashes {
        stack.push(*hash);
    }
    stack
}
