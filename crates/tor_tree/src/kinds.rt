//! Which sides a torrent has.
ghost use Rattle.std.specs.Prelude.{◌≡◌};
ghost use Rattle.tor_tree.specs.Kinds.{has_v1, has_v2};

/// Which sides a torrent has: the lists of BEP 3, the trees of BEP 52, or both.
#[derive(Clone, Copy, Debug, PartialEq, Eq)]
pub enum Kind {
    V1,
    V2,
    Hybrid,
}

impl Kind {
    /// Whether it has the keys of BEP 3.
    pub fn has_v1(self) -> bool
        ensures { result ≡ has_v1 self }
    {
        matches!(self, Kind::V1 | Kind::Hybrid)
    }

    /// Whether it has the keys of BEP 52.
    pub fn has_v2(self) -> bool
        ensures { result ≡ has_v2 self }
    {
        matches!(self, Kind::V2 | Kind::Hybrid)
    }
}
