//! Sums of pieces that are owed, and given to what they are owed to.
ghost use Rattle.std.specs.Prelude.{◌≡◌, ◌≤◌, ℕ, List, drop, length, sum_by, take};
ghost use Rattle.tor_sums.specs.steps.Owing.{owed_to_unit, paid_each, paid_one};

use crate::unit_sums::UnitSums;

/// What sums of pieces are owed to: `UnitSums` (below); of a recheck `UnitPieces` (`piece_work.rt` of `tor_engine`),
/// and each of its pieces, `FoundPiece` (`piece_hash.rt`).
pub trait Owed {
    /// How many bytes of sums.
    ghost owed: { Self → ℕ };

    /// What it is once it has these.
    ghost paid: { Self → List ℕ → Self };

    /// Takes its own of these sums, the first ones, and gives back the sums after them.
    fn take_own<'a>(&mut self, sums: &'a [u8]) -> &'a [u8]
        requires { owed self.old ≤ length sums.now }
        ensures paid { self.new ≡ paid self.old (take (owed self.old) sums.now) }
        ensures rest { result.now ≡ drop (owed self.old) sums.now };
}

/// Gives each its own of these sums, which stand one after another, and gives back the sums after them.
pub fn pay<'a, T: Owed>(items: &mut [T], sums: &'a [u8]) -> &'a [u8]
    requires { sum_by T.owed items.old ≤ length sums.now }
    ensures paid { items.new ≡ paid_each T.owed T.paid items.old sums.now }
    ensures rest { result.now ≡ drop (sum_by T.owed items.old) sums.now }
{
    let mut rest = sums;
    'items: for item in items.iter_mut() {
        rest = item.take_own(rest);
    }
    rest
}

/// It has room for its own.
impl Owed for UnitSums {
    ghost owed = { owed_to_unit };

    ghost paid = { paid_one };

    fn take_own<'a>(&mut self, sums: &'a [u8]) -> &'a [u8] {
        let (own, rest) = sums.split_at(self.pieces.len());
        self.pieces.as_mut_slice().copy_from_slice(own);
        rest
    }
}
