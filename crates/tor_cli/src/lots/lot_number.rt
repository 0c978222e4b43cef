//! One lot of so many.
ghost use Rattle.std.specs.Prelude.{◌<◌, ◌≤◌};
ghost use Rattle.tor_parts.specs.declared.lot_text.TheConstants.{MAX_LOTS};

/// Which lot of a plan, or of a torrent, a machine works at.
#[derive(Clone, Copy)]
pub struct LotNumber {
    /// Counted from 0.
    pub number: u32,
    /// Of how many: from 1 to 65,536.
    pub lots: u32,
    ghost within: { number < lots },
    ghost few: { lots ≤ MAX_LOTS },
}
