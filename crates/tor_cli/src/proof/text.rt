//! The text of a proof of a piece: made, and read.

ghost use Rattle.std.specs.Prelude.{◌≡◌, ◌++◌, ◌<◌, ◌≤◌, ◌^◌, ℕ, List, length, flat_map, codes, string_bytes};
ghost use Rattle.std.specs.Prelude.{IfOk, OnOk, IfSome};
ghost use Rattle.std.specs.List.{All};
ghost use Rattle.std.specs.Option.{IsSomeAnd};
ghost use Rattle.tor_cli.specs.proof.ProofText.{IsHash, IsProof, index_line, hash_line, sibling_line, proof_text};

use crate::text::digits::read_hash;
use crate::text::fronts::{after, cut};
use crate::text::numbers::{count_digits, read_number};
use hex::encode;
use std::alloc::{AllocError, Global};
use std::fmt::Write;
use tor_merkle::{Hash, Proof};

/// How many siblings a proof has at the most: as many as the largest tree has levels.
const MAX_SIBLINGS: usize = 36;

/// A line for the index of the piece, one for its hash, and one for each sibling, lowest first.
#[tactic(auto, unfolding(crate::specs::proof::ProofText::proof_text))]
pub fn proof_text(
    alloc: Global,
    index: u64,
    hash: &Hash,
    proof: &Proof,
) -> Result<String, AllocError>
    ensures text { IfOk result (λ text. string_bytes text ≡ proof_text index hash.now proof.now.siblings.items) }
    ensures hashes { IfOk result (λ _. IsHash hash.now × All IsHash proof.now.siblings.items) }
{
    let mut text = index_line(alloc, index)?;
    push_hash(alloc, &mut text, "hash ", hash)?;
    for sibling in &proof.siblings {
        push_hash(alloc, &mut text, "sibling ", sibling)?;
    }
    Ok(text)
}

#[tactic(auto, using(crate::proofs::Numerals::base_ten_decimal))]
fn index_line(alloc: Global, index: u64) -> Result<String, AllocError>
    ensures { IfOk result (λ line. string_bytes line ≡ index_line index) }
{
    format!(in alloc; "index {index}\n")
}

fn push_hash(alloc: Global, text: &mut String, word: &str, hash: &Hash) -> Result<(), AllocError>
    ensures text { OnOk result (string_bytes text.new ≡ string_bytes text.old ++ hash_line word.now hash.now) }
    ensures hash { OnOk result (IsHash hash.now) }
{
    let digits = encode(alloc, hash.as_slice())?;
    writeln!(text, "{word}{digits}")
}

/// The index, the hash and the siblings of which this is the text.
pub fn read_proof(alloc: Global, text: &[u8]) -> Result<Option<(u64, Hash, Proof)>, AllocError>
    ensures written { IfOk result (λ read. IfSome read (λ r.
        IsProof r.0 r.1 r.2.siblings.items × (proof_text r.0 r.1 r.2.siblings.items ≡ text.now))) }
    ensures read { (index : ℕ) (hash : List ℕ) (siblings : List (List ℕ)) → IsProof index hash siblings
        → proof_text index hash siblings ≡ text.now → IfOk result (λ read. IsSomeAnd read (λ r.
        (r.0 ≡ index) × (r.1 ≡ hash) × (r.2.siblings.items ≡ siblings))) }
{
    let Some(head) = read_head(text) else {
        return Ok(None);
    };
    let (index, hash, lines) = head;
    match read_siblings(alloc, lines)? {
        Some(siblings) => Ok(Some((index, hash, Proof { siblings }))),
        None => Ok(None),
    }
}

/// The index and the hash, and the lines after them.
fn read_head(text: &[u8]) -> Option<(u64, Hash, &[u8])>
    ensures written { IfSome result (λ r. (r.0 < 2 ^ 64) × IsHash r.1
        × (text.now ≡ index_line r.0 ++ (hash_line (codes "hash ") r.1 ++ r.2.now))) }
    ensures read { (index : ℕ) (hash rest : List ℕ) → index < 2 ^ 64 → IsHash hash
        → text.now ≡ index_line index ++ (hash_line (codes "hash ") hash ++ rest)
        → IsSomeAnd result (λ r. (r.0 ≡ index) × (r.1 ≡ hash) × (r.2.now ≡ rest)) }
{
    let (index, lines) = read_index(text)?;
    let (hash, lines) = read_line(b"hash ", lines)?;
    Some((index, hash, lines))
}

fn read_index(text: &[u8]) -> Option<(u64, &[u8])>
    ensures written { IfSome result (λ r. (r.0 < 2 ^ 64) × (text.now ≡ index_line r.0 ++ r.1.now)) }
    ensures read { (index : ℕ) (rest : List ℕ) → index < 2 ^ 64 → text.now ≡ index_line index ++ rest
        → IsSomeAnd result (λ r. (r.0 ≡ index) × (r.1.now ≡ rest)) }
{
    let line = after(b"index ", text)?;
    let (digits, rest) = cut(line, count_digits(line), b"\n")?;
    Some((read_number(digits)?, rest))
}

/// The siblings, a line for each.
fn read_siblings(alloc: Global, text: &[u8]) -> Result<Option<Vec<Hash>>, AllocError>
    ensures written { IfOk result (λ read. IfSome read (λ siblings.
        All IsHash siblings.items × (text.now ≡ flat_map sibling_line siblings.items)
        × (length siblings.items ≤ 36))) }
    ensures read { (siblings : List (List ℕ)) → All IsHash siblings → length siblings ≤ 36
        → text.now ≡ flat_map sibling_line siblings
        → IfOk result (λ read. IsSomeAnd read (λ r. r.items ≡ siblings)) }
{
    let mut siblings = Vec::new(alloc);
    let mut lines = text;
    'lines: while !lines.is_empty() {
        if siblings.len() == MAX_SIBLINGS {
            return Ok(None);
        }
        let Some(line) = read_line(b"sibling ", lines) else {
            return Ok(None);
        };
        let (sibling, more) = line;
        siblings.push(sibling)?;
        lines = more;
    }
    Ok(Some(siblings))
}

/// The hash of a line that begins with a word, and the lines after it.
fn read_line<'a>(word: &[u8], text: &'a [u8]) -> Option<(Hash, &'a [u8])>
    ensures written { IfSome result (λ r. IsHash r.0 × (text.now ≡ hash_line word.now r.0 ++ r.1.now)) }
    ensures read { (hash rest : List ℕ) → IsHash hash → text.now ≡ hash_line word.now hash ++ rest
        → IsSomeAnd result (λ r. (r.0 ≡ hash) × (r.1.now ≡ rest)) }
{
    let (digits, rest) = cut(after(word, text)?, 64, b"\n")?;
    Some((read_hash(digits)?, rest))
}
