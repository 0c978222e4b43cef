//! One bit a piece, packed as the bitfield of BEP 3 ("peer messages").

ghost use Rattle.std.specs.Prelude.{◌≡◌, ◌≢◌, ℕ, ◌/◌, ◌<◌, ◌↔◌, [], ◌∷◌, ◌++◌};
ghost use Rattle.std.specs.Prelude.{true, IsTrue, IfOk, OnOk, OnErr, length, slice_get};
ghost use Rattle.tor_view.specs.Bitfield.{bitfield, set_count};
ghost use Rattle.tor_view.specs.steps.Packed.{packed_bit, AreBytes, KeepsBits, Grows};

use std::alloc::{AllocError, Global};
use std::marker::Model;

/// One bit a piece, piece 0 first: whether it is there and right. Eight pieces take a byte.
#[derive(Drop)]
pub struct Bits {
    count: u64,
    bytes: Vec<u8>,
}

impl Model for Bits {
    ghost use Rattle.std.specs.Prelude.{List, Bool};
    ghost use Rattle.tor_view.specs.steps.Packed.{packed_bits, KeepsBits};

    ghost Value = { List Bool };

    ghost view = { λ b. packed_bits b.bytes.items b.count };

    ghost invariant = { λ b. KeepsBits b.bytes.items b.count };
}

impl Bits {
    /// No bit yet, with room for those of `count` pieces.
    pub fn with_capacity(alloc: Global, count: u64) -> Result<Bits, AllocError>
        ensures { IfOk result (λ bits. bits ≡ []) }
    {
        Ok(Bits {
            count: 0,
            bytes: Vec::with_capacity(alloc, count.div_ceil(8) as usize)?,
        })
    }

    /// Adds the bit of the next piece. If memory is wanting, the bits stay as they were.
    pub fn push(&mut self, bit: bool) -> Result<(), AllocError>
        ensures ok { OnOk result (self.new ≡ self.old ++ bit ∷ []) }
        ensures err { OnErr result (self.new ≡ self.old) }
    {
        // No memory holds so many bits.
        if self.count == u64::MAX {
            return Err(AllocError);
        }
        add_bit(&mut self.bytes, self.count, bit)?;
        self.count += 1;
        Ok(())
    }

    /// How many pieces there are.
    pub fn len(&self) -> u64
        ensures { result ≡ length self.now }
    {
        self.count
    }

    /// Whether there is no piece.
    pub fn is_empty(&self) -> bool
        ensures { IsTrue result ↔ (self.now ≡ []) }
    {
        self.count == 0
    }

    /// The bit of the piece at `index`, and none from [`Bits::len`] on.
    pub fn get(&self, index: u64) -> Option<bool>
        ensures { result ≡ slice_get self.now index }
    {
        if index >= self.count {
            return None;
        }
        let byte = self.bytes[(index / 8) as usize];
        Some((byte >> (7 - index % 8)) & 1 == 1)
    }

    /// How many pieces are there and right.
    pub fn count_set(&self) -> u64
        ensures { result ≡ set_count self.now }
    {
        let mut set = 0;
        'pieces: for index in 0..self.count {
            if self.get(index) == Some(true) {
                set += 1;
            }
        }
        set
    }

    /// The bitfield of BEP 3 ("peer messages"): piece 0 is the high bit of the first byte, and the bits past the
    /// last piece are zero.
    pub fn to_bytes(&self, alloc: Global) -> Result<Vec<u8>, AllocError>
        ensures { IfOk result (λ bytes. bytes.items ≡ bitfield self.now) }
    {
        Vec::from_slice(alloc, &self.bytes)
    }
}

/// Adds the bit of the next piece to the bytes of `count` bits.
fn add_bit(bytes: &mut Vec<u8>, count: u64, bit: bool) -> Result<(), AllocError>
    requires { KeepsBits bytes.old.items count }
    ensures ok { OnOk result (Grows bytes.old.items bytes.new.items count bit) }
    ensures err { OnErr result (bytes.new.items ≡ bytes.old.items) }
{
    if count % 8 == 0 {
        bytes.push(0)?;
    }
    if bit {
        set_bit(bytes, count);
    }
    Ok(())
}

/// Sets the bit of this piece.
fn set_bit(bytes: &mut [u8], piece: u64)
    requires within { piece / 8 < length bytes.old }
    requires small { AreBytes bytes.old }
    ensures here { packed_bit bytes.new piece ≡ true }
    ensures others { (i : ℕ) → i ≢ piece → packed_bit bytes.new i ≡ packed_bit bytes.old i }
    ensures small { AreBytes bytes.new }
{
    bytes[(piece / 8) as usize] |= 1u8 << (7 - piece % 8);
}
