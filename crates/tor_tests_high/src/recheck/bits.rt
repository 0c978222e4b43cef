//! Bits of pieces that no recheck shows one by one: past the end, of so many that room has to be made, and short of it.
//! Bitfields are tried on the built program (`tests/found.py`).
use crate::check::telling::is;
use std::alloc::{AllocError, Global};
use std::fmt::Write;
use tor_view::Bits;

fn push_hex(text: &mut String, bytes: &[u8]) -> Result<(), AllocError> {
    for byte in bytes {
        write!(text, "{byte:02x}")?;
    }
    Ok(())
}

/// The bitfield in hexadecimal.
fn hex_of(alloc: Global, bits: &Bits) -> Result<String, AllocError> {
    let bytes = bits.to_bytes(alloc)?;
    let mut text = String::new(alloc);
    push_hex(&mut text, &bytes)?;
    Ok(text)
}

/// Whether this is the bitfield in hexadecimal.
pub(crate) fn is_hex(alloc: Global, bits: &Bits, hex: &str) -> bool {
    is(hex_of(alloc, bits), hex)
}

/// Whether the bits, read one by one, are those of these pieces, and there is none after the last.
pub(crate) fn are_read_back(bits: &Bits, pieces: &str) -> bool {
    for (index, piece) in pieces.as_bytes().iter().enumerate() {
        if bits.get(index as u64) != Some(*piece == b'1') {
            return false;
        }
    }
    bits.get(bits.len()).is_none()
}

fn add_bits(bits: &mut Bits, count: u32, each: u32) -> Result<(), AllocError> {
    for index in 0..count {
        bits.push(index % each.max(1) == 0)?;
    }
    Ok(())
}

/// So many bits, of which each so many is set, in room for none.
pub(crate) fn bits_of(alloc: Global, count: u32, each: u32) -> Result<Bits, AllocError> {
    let mut bits = Bits::with_capacity(alloc, 0)?;
    add_bits(&mut bits, count, each)?;
    Ok(bits)
}

fn is_none_past_the_end(bits: &Bits) -> bool {
    bits.get(7) == Some(true) && bits.get(8).is_none() && bits.get(u64::MAX).is_none()
}

/// Whether the bits are 200,000, of which each third one is set.
fn are_thirds(bits: &Bits) -> bool {
    bits.len() == 200_000
        && bits.count_set() == 66_667
        && bits.get(199_998) == Some(true)
        && bits.get(199_999) == Some(false)
}

fn count_of_bytes(alloc: Global, bits: &Bits) -> usize {
    match bits.to_bytes(alloc) {
        Ok(bytes) => bytes.len(),
        Err(_) => 0,
    }
}

fn is_grown(alloc: Global) -> bool {
    match bits_of(alloc, 200_000, 3) {
        Ok(bits) => are_thirds(&bits) && count_of_bytes(alloc, &bits) == 25_000,
        Err(_) => false,
    }
}

fn is_none_past_eight(alloc: Global) -> bool {
    match bits_of(alloc, 8, 1) {
        Ok(bits) => is_none_past_the_end(&bits),
        Err(_) => false,
    }
}

fn is_none_of_none(alloc: Global) -> bool {
    match bits_of(alloc, 0, 1) {
        Ok(bits) => bits.is_empty(),
        Err(_) => false,
    }
}

fn hold(alloc: Global) -> bool {
    is_none_past_eight(alloc) && is_none_of_none(alloc) && is_grown(alloc)
}

#[test]
fn makes_room_and_has_no_bit_past_the_end(rt: HostRuntime) {
    assert!(rt; hold(rt.alloc()));
}
