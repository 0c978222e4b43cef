//! The constants of SHA-1 (FIPS 180-4, 4.2.1 and 5.3.1).

/// K of the rounds below 20.
pub(crate) const K0: u32 = 0x5a827999;

/// K of the rounds from 20 and below 40.
pub(crate) const K20: u32 = 0x6ed9eba1;

/// K of the rounds from 40 and below 60.
pub(crate) const K40: u32 = 0x8f1bbcdc;

/// K of the rounds from 60 on.
pub(crate) const K60: u32 = 0xca62c1d6;

/// The initial hash value.
pub(crate) const INITIAL: [u32; 5] = [0x67452301, 0xefcdab89, 0x98badcfe, 0x10325476, 0xc3d2e1f0];
