//! Blocks whose leaves are computed side by side.

ghost use Rattle.std.specs.Prelude.{◌≡◌, ◌+◌, ◌^◌, ◌≤◌, ◌++◌, length, take};
ghost use Rattle.std.specs.Int.{div_ceil};
ghost use Rattle.tor_merkle.specs.Block.{leaves};
ghost use Rattle.tor_merkle.specs.declared.TheConstants.{BLOCK_LENGTH};
ghost use Rattle.tor_merkle.specs.declared.run.TheConstants.{RUN_LENGTH};

use crate::BLOCK_LENGTH;
use crate::hash::Hash;
use crate::pieces::PieceTree;
use tor_hashes::{block_hashes, last_block_hashes};

// The leaves of so many bytes, eight blocks, are computed at once.
pub(crate) const RUN_LENGTH: usize = 8 * BLOCK_LENGTH;

// Fewer blocks are hashed sooner one by one than as eight.
pub(crate) const LEAST_RUN: usize = 3 * BLOCK_LENGTH;

// Adds the leaves of at most eight blocks, of which the last may be shorter.
pub(crate) fn push_run(tree: &mut PieceTree, run: &[u8])
    requires few { length run.now ≤ RUN_LENGTH }
    requires small { length tree.old.leaves + length (leaves run.now) ≤ 2 ^ 36 }
    requires room { div_ceil (length tree.old.leaves + length (leaves run.now)) (2 ^ tree.old.height)
        ≤ tree.old.capacity }
    ensures height { tree.new.height ≡ tree.old.height }
    ensures leaves { tree.new.leaves ≡ tree.old.leaves ++ leaves run.now }
    ensures capacity { tree.old.capacity ≤ tree.new.capacity }
{
    let hashes = run_leaves(run);
    let (own, _) = hashes.as_slice().split_at(run.len().div_ceil(BLOCK_LENGTH));
    tree.push_all(own);
}

// The leaves of at most eight blocks, of which the last may be shorter; those that follow are of no block.
fn run_leaves(run: &[u8]) -> [Hash; 8]
    requires { length run.now ≤ RUN_LENGTH }
    ensures eight { length result ≡ 8 }
    ensures leaves { take (div_ceil (length run.now) BLOCK_LENGTH) result ≡ leaves run.now }
{
    if run.len() == RUN_LENGTH {
        return block_hashes(run);
    }
    last_block_hashes(run)
}
