//! What takes an input part by part, as it is read.
ghost use Rattle.std.specs.Prelude.{◌≡◌, ◌-◌, ◌≤◌, ◌++◌, [], ℕ, List, length, OnOk, Vec};
ghost use Rattle.std.specs.declared.alloc.Global.{Global};
ghost use Rattle.tor_source.specs.Taking.{kept_both, kept_none};

use std::alloc::AllocError;

/// What takes the parts of an input, in order: a vector, which keeps them; `Dropped`, which does not; `FedSums`
/// (`tor_meta`), which hashes them; `Front` and `Text` (`tor_cli`), which keep what comes first.
pub trait Intake {
    /// These bytes lead from one state to another.
    ghost takes: { Self → List ℕ → Self → Type 0 };

    /// So many bytes may still come.
    ghost may_take: { Self → ℕ → Type 0 };

    /// Takes the next part.
    fn take(&mut self, part: &[u8]) -> Result<(), AllocError>
        requires { (n : ℕ) × (length part.now ≤ n) × may_take self.old n }
        ensures taken { OnOk result (takes self.old part.now self.new) }
        ensures rest { OnOk result ((n : ℕ) → may_take self.old n → may_take self.new (n - length part.now)) };

    ghost takes_none: { (s : Self) → takes s [] s };

    ghost takes_both: { (s t u : Self) (front rest : List ℕ) →
        takes s front t → takes t rest u → takes s (front ++ rest) u };
}

/// Keeps the bytes.
impl Intake for Vec<u8> {
    ghost takes = { λ s bytes t. t.items ≡ s.items ++ bytes };

    ghost may_take = { λ _ _. Unit {0} };

    ghost takes_none = { kept_none };

    ghost takes_both = { kept_both };

    fn take(&mut self, part: &[u8]) -> Result<(), AllocError> {
        self.extend_from_slice(part)
    }
}

/// Keeps nothing.
#[derive(Drop)]
pub struct Dropped;

impl Intake for Dropped {
    ghost takes = { λ _ _ _. Unit {0} };

    ghost may_take = { λ _ _. Unit {0} };

    ghost takes_none = { λ _. tt };

    ghost takes_both = { λ _ _ _ _ _ _ _. tt };

    fn take(&mut self, _part: &[u8]) -> Result<(), AllocError> {
        Ok(())
    }
}
