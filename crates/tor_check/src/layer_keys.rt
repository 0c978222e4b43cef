//! The dictionary of piece layers (BEP 52, "piece layers").
ghost use Rattle.std.specs.Prelude.{◌≡◌, codes, option_map};
ghost use Rattle.std.specs.Option.{ForSome};
ghost use Rattle.tor_bencode.specs.Find.{value_of};
ghost use Rattle.tor_bencode.specs.Lawful.{HasRisingKeys};
ghost use Rattle.tor_bencode.specs.steps.RisingProp.{rising_props};
ghost use Rattle.tor_bencode.specs.RefView.{view};

use tor_bencode::ItemRef;
use tor_bencode::laws::values_have_rising_keys;

/// The dictionary of the layers, and the piece length. Layers that are absent have no key.
#[derive(Clone, Copy)]
pub struct Layers<'t, 'a> {
    pub item: Option<&'t ItemRef<'a>>,
    /// In bytes.
    pub piece_length: u64,
    ghost rising: { ForSome item (λ item. HasRisingKeys (view item.now)) } by { Prim.hlevel rising_props },
}

/// The layers that a root has, in pieces of this length.
pub fn layers_of<'t, 'a>(root: &'t ItemRef<'a>, piece_length: u64) -> Layers<'t, 'a>
    requires { HasRisingKeys (view root.now) }
    ensures item { option_map (λ item. view item.now) result.item ≡ value_of (codes "piece layers") (view root.now) }
    ensures piece_length { result.piece_length ≡ piece_length }
{
    values_have_rising_keys();
    Layers {
        item: root.get(b"piece layers"),
        piece_length,
    }
}
