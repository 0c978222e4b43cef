//! The numbers of refusals and of faults.
ghost use Rattle.std.specs.Prelude.{◌≡◌};
ghost use Rattle.tor_c.specs.Numbers.{fault_number, refusal_number};

use tor_bencode::Fault;
use tor_check::Refusal;

/// The number of a refusal: 1 of `V1`, and so on.
pub fn refusal_number(refusal: &Refusal) -> u32
    ensures { result ≡ refusal_number refusal.now }
{
    match refusal {
        Refusal::Bencode { .. } => 1,
        Refusal::RootShape => 2,
        Refusal::InfoShape => 3,
        Refusal::MetaVersion => 4,
        Refusal::PieceLength => 5,
        Refusal::Name => 6,
        Refusal::LengthAndFiles => 7,
        Refusal::FileShape => 8,
        Refusal::FileLength => 9,
        Refusal::Duplicate => 10,
        Refusal::FileAndFolder => 11,
        Refusal::NoFiles => 12,
        Refusal::TooLarge => 13,
        Refusal::Symlink => 14,
        Refusal::PiecesLength => 15,
        Refusal::MixedNode => 16,
        Refusal::RootHash => 17,
        Refusal::LayersAbsent => 18,
        Refusal::LayerAbsent => 19,
        Refusal::LayerLength => 20,
        Refusal::LayerRoot => 21,
        Refusal::FilesDiffer => 22,
        Refusal::Alignment => 23,
        Refusal::Memory => 24,
        Refusal::AttrDiffer => 25,
    }
}

/// The number of a fault of bencode: 1 of `B1`, and so on.
pub fn fault_number(fault: Fault) -> u32
    ensures { result ≡ fault_number fault }
{
    match fault {
        Fault::Truncated => 1,
        Fault::BadByte => 2,
        Fault::BadInteger => 3,
        Fault::IntegerRange => 4,
        Fault::BadLength => 5,
        Fault::KeyNotBytes => 6,
        Fault::KeyOrder => 7,
        Fault::TooDeep => 8,
        Fault::Trailing => 9,
    }
}
