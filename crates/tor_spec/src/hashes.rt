//! The info hashes of a torrent (BEP 3, BEP 52), and its magnet link (BEP 9, "magnet URI format").
ghost use Rattle.hex.specs.Hex.{encode_lower};
ghost use Rattle.std.specs.Prelude.{◌≡◌, ◌++◌, List, Some, IfOk, IsSome, codes};
ghost use Rattle.std.specs.String.{string_bytes};
ghost use Rattle.tor_bencode.specs.Data.{Data};
ghost use Rattle.tor_bencode.specs.Find.{value_of};
ghost use Rattle.tor_bencode.specs.Lawful.{IsLawful};
ghost use Rattle.tor_bencode.specs.Spelling.{spelling};
ghost use Rattle.tor_spec.specs.Hashes.{AreInfoHashes, HasHash, HasInfo, magnet_link, topics};

use hex::encode;
use sha1::Sha1;
use sha2::{Digest, Sha256};
use std::alloc::{AllocError, Global};
use tor_bencode::laws::span_of_a_value;
use tor_bencode::span;
use tor_merkle::Hash;
use tor_tree::Kind;

/// The info hashes of a torrent.
#[derive(Clone, Copy, Debug, PartialEq, Eq)]
pub struct Hashes {
    /// The SHA-1 of the value of `info`, if the torrent has the keys of BEP 3.
    pub v1: Option<[u8; 20]>,
    /// The SHA-256 of the value of `info`, if it has those of BEP 52.
    pub v2: Option<Hash>,
}

/// The info hashes of the bytes of a torrent of this kind, whose root has `info`. It takes no memory.
pub fn info_hashes(bytes: &[u8], kind: Kind) -> Hashes
    requires { HasInfo bytes.now }
    ensures { (root info : Data) → IsLawful root → bytes.now ≡ spelling root →
        value_of (codes "info") root ≡ Some info → AreInfoHashes kind (spelling info) result }
{
    let info = raw_info(bytes);
    match kind {
        Kind::V1 => Hashes {
            v1: Some(Sha1::digest(info)),
            v2: None,
        },
        Kind::V2 => Hashes {
            v1: None,
            v2: Some(Sha256::digest(info)),
        },
        Kind::Hybrid => Hashes {
            v1: Some(Sha1::digest(info)),
            v2: Some(Sha256::digest(info)),
        },
    }
}

/// The bytes of the value of `info`.
fn raw_info(bytes: &[u8]) -> &[u8]
    requires { HasInfo bytes.now }
    ensures { (root info : Data) → IsLawful root → bytes.now ≡ spelling root →
        value_of (codes "info") root ≡ Some info → result.now ≡ spelling info }
{
    span_of_a_value();
    let Some((start, end)) = span(bytes, b"info") else {
        unreachable!();
    };
    &bytes[start..end]
}

/// The magnet link of a torrent with these info hashes, of which there is one at least.
pub fn magnet(alloc: Global, hashes: &Hashes) -> Result<String, AllocError>
    requires { HasHash hashes.now }
    ensures { IfOk result (λ link. string_bytes link ≡ magnet_link hashes.now) }
{
    let mut link = String::from_str(alloc, "magnet:?")?;
    push_topics(alloc, &mut link, hashes)?;
    Ok(link)
}

/// Writes a topic for each hash.
fn push_topics(alloc: Global, link: &mut String, hashes: &Hashes) -> Result<(), AllocError>
    ensures { IfOk result (λ _. string_bytes link.new ≡ string_bytes link.old ++ topics hashes.now.v1 hashes.now.v2) }
{
    match (&hashes.v1, &hashes.v2) {
        (Some(v1), Some(v2)) => {
            push_topic(alloc, link, "xt=urn:btih:", v1.as_slice())?;
            push_topic(alloc, link, "&xt=urn:btmh:1220", v2.as_slice())?;
            Ok(())
        }
        (Some(v1), None) => {
            push_topic(alloc, link, "xt=urn:btih:", v1.as_slice())?;
            Ok(())
        }
        (None, Some(v2)) => {
            push_topic(alloc, link, "xt=urn:btmh:1220", v2.as_slice())?;
            Ok(())
        }
        (None, None) => Ok(()),
    }
}

/// Writes what stands before a hash, and the hash in lower-case hex digits.
fn push_topic(alloc: Global, link: &mut String, before: &str, hash: &[u8]) -> Result<(), AllocError>
    ensures { IfOk result (λ _.
        string_bytes link.new ≡ string_bytes link.old ++ (before.now ++ encode_lower hash.now)) }
{
    link.push_str(before)?;
    let digits = encode(alloc, hash)?;
    link.push_str(digits.as_str())
}
