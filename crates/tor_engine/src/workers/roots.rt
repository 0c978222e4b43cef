//! The roots of trees over units, from the hashes of the units.
ghost use Rattle.std.specs.Prelude.{◌≡◌, IfOk, length, map};
ghost use Rattle.tor_plan.specs.Forest.{AreRuns};
ghost use Rattle.tor_sums.specs.steps.Roots.{roots_of_trees};

use crate::workers::unit_work::UnitWork;
use std::alloc::{AllocError, Global};
use tor_merkle::{Hash, layer_root};
use tor_plan::Run;

/// The root of each tree, over the hashes of all units.
pub(crate) fn roots_of_trees(
    alloc: Global,
    trees: &[Run],
    hashes: &[Hash],
) -> Result<Vec<Option<Hash>>, AllocError>
    requires { AreRuns (length hashes.now) 0 trees.now }
    ensures { IfOk result (λ roots. roots.items ≡ roots_of_trees hashes.now trees.now) }
{
    let mut roots = Vec::with_capacity(alloc, trees.len())?;
    'trees: for run in trees {
        let (_, later) = hashes.split_at(run.first as usize);
        let (own, _) = later.split_at(run.count as usize);
        roots.push(Some(layer_root(own, run.level)))?;
    }
    Ok(roots)
}

/// The hash of each unit in the tree of its file, from what the units sum up to.
pub(crate) fn hashes_of<W: UnitWork>(work: &W, sums: &[W::Sums]) -> Result<Vec<Hash>, AllocError>
    ensures { IfOk result (λ hashes. hashes.items ≡ map (W.hash_in work.now) sums.now) }
{
    let mut hashes = Vec::with_capacity(work.alloc(), sums.len())?;
    'sums: for one in sums {
        hashes.push(work.hash_of(one))?;
    }
    Ok(hashes)
}
