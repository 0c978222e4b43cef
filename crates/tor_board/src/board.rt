//! The board that workers share.
ghost use Rattle.std.specs.Prelude.{◌≡◌, length, replicate, None};
ghost use Rattle.tor_board.specs.Shapes.{AreStarts, IsShape};

use crate::rule::BoardRule;
use crate::tree::{Shape, Start};
use crate::view::View;
use atomic_table::Table;
use std::alloc::Global;
use thiserror::Error;
use tor_merkle::Hash;

/// The word that counts the claims.
pub(crate) const CLAIMS: usize = 0;

/// The word of the least failed unit.
pub(crate) const LEAST_FAILED: usize = 1;

/// What that word is while no unit has failed.
pub(crate) const NONE_FAILED: u64 = u64::MAX;

/// Units that workers claim, each once, and the trees over their hashes. It is not let go, but closed.
pub struct Board {
    pub(crate) table: Table<Hash, View, Shape, BoardRule, Global>,
    pub(crate) shape: Shape,
    // In the order of the trees' units.
    pub(crate) starts: Vec<Start>,
    pub(crate) roots: Vec<Option<Hash>>,
    ghost bare: { roots.items ≡ replicate (length shape.trees.items) None },
    ghost sized: { table.shared.key ≡ shape },
    ghost shaped: { IsShape table.shared.table_id.words table.shared.table_id.slots shape },
    ghost started: { AreStarts shape.trees.items starts.items },
}

/// Why a seat is not split.
#[derive(Debug, Drop, Error)]
pub enum SplitError {
    /// S1: its room is one.
    #[error("S1 TooManySeats")]
    TooManySeats,
}
