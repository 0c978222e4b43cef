//! Paths in order.
ghost use Rattle.std.specs.Prelude.{◌≡◌};
ghost use Rattle.tor_tree.specs.Path.{path_cmp};

use std::cmp::Ordering;
use tor_tree::FilePath;

/// Which of two paths is first: name by name, each by its bytes.
pub fn compare(one: &FilePath, other: &FilePath) -> Ordering
    ensures { result ≡ path_cmp one.now other.now }
{
    one.cmp(other)
}
