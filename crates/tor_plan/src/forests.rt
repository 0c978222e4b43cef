//! Which units are the leaves of one file's tree.
ghost use Rattle.std.specs.Prelude.{◌≡◌, ◌+◌, ◌*◌, ◌^◌, ◌<◌, ◌≤◌, IfOk, length, sum_by};
ghost use Rattle.std.specs.Int.{div_ceil};
ghost use Rattle.tor_merkle.specs.declared.TheConstants.{BLOCK_LENGTH};
ghost use Rattle.tor_plan.specs.Forest.{trees_from};

use std::alloc::{AllocError, Global};
use tor_merkle::BLOCK_LENGTH;

/// The units of one file that has more than one.
#[derive(Clone, Copy, Debug, PartialEq, Eq)]
pub struct Run {
    /// The number of its first unit.
    pub first: u64,
    /// How many units it has.
    pub count: u64,
    /// The level of a tree node that covers one whole unit. Blocks are at level 0.
    pub level: u32,
}

/// The files whose trees join the hashes of several units.
#[derive(Debug, Drop)]
pub struct Forest {
    /// In the order of their units.
    pub trees: Vec<Run>,
}

/// The trees of files that are cut every `size` bytes, each by itself.
pub(crate) fn trees_of(alloc: Global, lengths: &[u64], size: u64) -> Result<Vec<Run>, AllocError>
    requires whole { BLOCK_LENGTH ≤ size }
    requires few { sum_by (λ m. div_ceil m size) lengths.now < 2 ^ 64 }
    ensures { IfOk result (λ trees. trees.items ≡ trees_from size 0 lengths.now) }
{
    let level = (size / BLOCK_LENGTH as u64).ilog2();
    let mut first = 0;
    let mut trees = Vec::new(alloc);
    'files: for length in lengths {
        let count = length.div_ceil(size);
        if count > 1 {
            trees.push(Run {
                first,
                count,
                level,
            })?;
        }
        first += count;
    }
    Ok(trees)
}
