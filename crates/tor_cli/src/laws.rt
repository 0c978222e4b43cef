//! Laws over the definitions alone.
ghost use Rattle.std.specs.Prelude.{◌≡◌, ◌≢◌, ◌≤◌, ℕ, All, List};
ghost use Rattle.tor_report.specs.Escape.{delete, escaped};

/// A text of the user's has no control byte where it stands in a line.
pub fn escaped_texts_have_no_control_byte()
    ensures { (text : List ℕ) → All (λ byte. (32 ≤ byte) × (byte ≢ delete)) (escaped text) }
{}
