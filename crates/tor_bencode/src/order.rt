//! The order of the keys of a dictionary.

ghost use Rattle.std.specs.Prelude.{◌≡◌, ◌↔◌, IsTrue};
ghost use Rattle.std.specs.Ordering.{nat_cmp};
ghost use Rattle.std.specs.Cmp.Lexicographic.{slice_cmp};
ghost use Rattle.std.specs.declared.cmp.Ordering.TheVariants.{Less};

/// Whether a key comes before another: keys are compared as raw bytes, and one that begins
/// another comes first (BEP 3, "bencoding").
pub(crate) fn comes_before(first: &[u8], second: &[u8]) -> bool
    ensures { IsTrue result ↔ (slice_cmp nat_cmp first.now second.now ≡ Less) }
{
    first.cmp(second).is_lt()
}
