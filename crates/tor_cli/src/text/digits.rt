//! Hashes in hexadecimal digits.

ghost use Rattle.std.specs.Prelude.{◌≡◌, ◌↔◌, ℕ, List, IsTrue, IfSome, Some};
ghost use Rattle.hex.specs.Hex.{encode_lower};
ghost use Rattle.tor_cli.specs.proof.ProofText.{IsHash, IsRootText};

use hex::{FromHex, encode_to_slice};
use tor_merkle::Hash;

/// The hash of which these are the lower-case digits.
pub fn read_hash(text: &[u8]) -> Option<Hash>
    ensures written { IfSome result (λ hash. IsHash hash × (encode_lower hash ≡ text.now)) }
    ensures read { (hash : List ℕ) → IsHash hash → encode_lower hash ≡ text.now → result ≡ Some hash }
{
    match of_either_case(text) {
        Some(hash) if spells(&hash, text) => Some(hash),
        _ => None,
    }
}

/// The hash of which these are the digits, of either case.
pub fn read_root(text: &str) -> Option<Hash>
    ensures written { IfSome result (IsRootText text.now) }
    ensures read { (hash : List ℕ) → IsRootText text.now hash → result ≡ Some hash }
{
    let mut digits = <[u8; 64]>::try_from(text.as_bytes()).ok()?;
    digits.make_ascii_lowercase();
    read_hash(&digits)
}

/// The hash of lower-case digits, and of others too.
fn of_either_case(text: &[u8]) -> Option<Hash>
    ensures hash { IfSome result IsHash }
    ensures read { (hash : List ℕ) → IsHash hash → encode_lower hash ≡ text.now → result ≡ Some hash }
{
    <[u8; 32] as FromHex>::from_hex(text).ok()
}

/// Whether these are the lower-case digits of a hash.
fn spells(hash: &Hash, text: &[u8]) -> bool
    ensures { IsTrue result ↔ (encode_lower hash.now ≡ text.now) }
{
    let mut digits = [0; 64];
    match encode_to_slice(hash.as_slice(), digits.as_mut_slice()) {
        Ok(()) => digits.as_slice() == text,
        Err(_) => unreachable!(),
    }
}
