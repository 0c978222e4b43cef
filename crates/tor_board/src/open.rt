//! A new board.
ghost use Rattle.std.specs.Prelude.{◌≡◌, ◌≤◌, ◌^◌, IfOk};
ghost use Rattle.tor_board.specs.Seats.{knows, unit_count, forest_of, IsSeatOf};
ghost use Rattle.tor_board.specs.Shapes.{AreApart, AreStarts};
ghost use Rattle.tor_board.specs.steps.Row.{trees_from, units_in};
ghost use Rattle.tor_board.specs.Desks.{first};

use crate::board::{Board, LEAST_FAILED, NONE_FAILED};
use crate::seat::Seat;
use crate::tree::{Shape, Start, Tree};
use atomic_table::Table;
use std::alloc::{AllocError, Global};
use tor_merkle::height_of;
use tor_plan::{Forest, Run};

// The room of the first seat.
const SEATS: u32 = 256;

impl Board {
    /// A board of so many units and the trees over them, whose runs are apart, in any order, and its first seat.
    pub fn open(alloc: Global, forest: &Forest, units: u64) -> Result<(Board, Seat), AllocError>
        requires runs { AreApart units forest.now.trees.items }
        requires units { units ≤ 2 ^ 62 }
        ensures seat { IfOk result (λ r. IsSeatOf r.0 r.1 × (knows r.1 ≡ first)) }
        ensures board { IfOk result (λ r. (unit_count r.0 ≡ units) × (forest_of r.0 ≡ forest.now.trees.items)) }
    {
        let (trees, units_in_trees) = trees_of(alloc, &forest.trees, units)?;
        let starts = starts_of(alloc, &trees)?;
        let mut words = vec![in alloc; 0; 2 + units_in_trees]?;
        words[LEAST_FAILED] = NONE_FAILED;
        let slots = vec![in alloc; [0; 32]; 2 * units_in_trees]?;
        let roots = vec![in alloc; None; trees.len()]?;
        let shape = Shape { units, trees };
        let Ok((table, inner)) = Table::new(alloc, &words, slots, &shape) else {
            return Err(AllocError);
        };
        let seat = Seat {
            inner,
            room: SEATS,
            done: false,
        };
        Ok((
            Board {
                table,
                shape,
                starts,
                roots,
            },
            seat,
        ))
    }
}

// The trees of these runs, and how many units they have.
fn trees_of(alloc: Global, runs: &[Run], units: u64) -> Result<(Vec<Tree>, usize), AllocError>
    requires runs { AreApart units runs.now }
    requires units { units ≤ 2 ^ 62 }
    ensures trees { IfOk result (λ r. r.0.items ≡ trees_from 0 0 runs.now) }
    ensures units_in_trees { IfOk result (λ r. r.1 ≡ units_in runs.now) }
{
    let mut trees = Vec::new(alloc);
    let mut number = 0;
    let mut offset = 0;
    'runs: for run in runs {
        trees.push(Tree {
            number,
            offset,
            first: run.first,
            count: run.count,
            level: run.level,
            height: height_of(run.count),
        })?;
        number += 1;
        offset += run.count;
    }
    Ok((trees, offset as usize))
}

// Where the trees start, in the order of their units.
fn starts_of(alloc: Global, trees: &[Tree]) -> Result<Vec<Start>, AllocError>
    ensures { IfOk result (λ starts. AreStarts trees.now starts.items) }
{
    let mut starts = Vec::new(alloc);
    'trees: for tree in trees {
        starts.push((tree.first, tree.number))?;
    }
    starts.sort_unstable();
    Ok(starts)
}
