//! The rule of the board's table, and what each step on it tells.
//!
//! Only the prover reads these structs, of which no value is ever made: a call on the table names one, as in
//! `fetch_add::<Claim>`, so that its step is known to keep the rule. The step is the same whatever is named.
ghost use Rattle.std.specs.Prelude.{ℕ, List, [], Option, None};
ghost use Rattle.tor_board.specs.declared.tree.Tree.{Tree};

use crate::tree::Shape;
use crate::view::View;
use atomic_table::{Join, Play, Split, TableRule};
use std::marker::{Brand, PhantomData};
use tor_merkle::Hash;

/// The rule that every step keeps.
pub struct BoardRule;

impl TableRule<Hash, View, Shape> for BoardRule {
    ghost use Rattle.tor_board.specs.Rule.{Keeps};
    ghost use Rattle.tor_board.specs.Views.{first};

    ghost holds = { Keeps };

    ghost first = { λ shape. first shape.units };
}

/// One load of the least failed unit.
pub struct Look;

impl Play<Hash, View> for Look {
    ghost use Rattle.tor_board.specs.Plays.{looked};

    ghost then = { looked };
}

/// One fetch_add on the number of claims.
pub struct Claim;

impl Play<Hash, View> for Claim {
    ghost use Rattle.tor_board.specs.Plays.{claimed};

    ghost then = { claimed };
}

/// One fetch_add on a node's arrivals.
pub struct Arrive;

impl Play<Hash, View> for Arrive {
    ghost use Rattle.tor_board.specs.Plays.{arrived};

    ghost then = { arrived };
}

/// One load, at which the root of a tree is told.
pub struct Seal;

impl Play<Hash, View> for Seal {
    ghost use Rattle.tor_board.specs.Plays.{sealed};

    ghost then = { sealed };
}

/// One fetch_min on the least failed unit.
pub struct Fail;

impl Play<Hash, View> for Fail {
    ghost use Rattle.tor_board.specs.Plays.{failed};

    ghost then = { failed };
}

/// One load after two seats became one.
pub struct Merge;

impl Play<Hash, View> for Merge {
    ghost use Rattle.tor_board.specs.steps.Merging.{merged};

    ghost then = { merged };
}

/// How a seat is cut in two.
pub struct Halves;

impl Split<View> for Halves {
    ghost use Rattle.tor_board.specs.Views.{keeping, fresh};

    ghost left = { keeping };

    ghost right = { fresh };
}

/// How two seats become one.
pub struct Both;

impl Join<View> for Both {
    ghost use Rattle.tor_board.specs.Views.{both, spent};

    ghost both = { both };

    ghost spent = { spent };
}

/// What is handed in: a load has no operand for it, so the caller of the step names it.
pub trait Handing {
    ghost tree: { Option Tree };

    ghost unit: { ℕ };

    ghost hash: { List ℕ };
}

impl Handing for Brand {
    ghost tree = { None };

    ghost unit = { 0 };

    ghost hash = { [] };
}

/// One load, at which a unit is given.
pub struct Hand<J: Handing> {
    of: PhantomData<J>,
}

impl<J: Handing> Play<Hash, View> for Hand<J> {
    ghost use Rattle.tor_board.specs.Plays.{gave};

    ghost then = { gave J.tree J.unit J.hash };
}
