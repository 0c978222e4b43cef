//! What the words of `tor verify` claim: of which root, length and piece length a proof is.
ghost use Rattle.std.specs.Prelude.{◌≡◌, ◌<◌, ◌≤◌, ℕ, IfErr, IfOk, IfSome, Some};
ghost use Rattle.tor_cli.specs.proof.Proving.{IsBadClaim, IsClaimIn, IsLengthText, IsPieceLengthText};
ghost use Rattle.tor_merkle.specs.Layer.{IsPieceLength};
ghost use Rattle.tor_merkle.specs.declared.TheConstants.{MAX_LENGTH};

use crate::proof::words::VerifyOptions;
use crate::text::digits::read_root;
use crate::text::numbers::read_number;
use std::fmt;
use tor_merkle::{Hash, MAX_LENGTH, is_piece_length};

/// What a proof is judged by.
#[derive(Clone, Copy)]
pub struct Claim {
    /// The root of the file.
    pub root: Hash,
    /// The bytes of the file.
    pub length: u64,
    /// In bytes.
    pub piece_length: u64,
}

/// Which argument is none of its kind: of `verify`, `--attrs` or `--files-from`.
#[derive(Clone, Copy)]
pub enum ArgumentFault {
    Root,
    Length,
    PieceLength,
    /// The file has no text of a proof.
    Proof,
    /// It has no text of letters, or not of these files.
    Attrs,
    /// The list of files does not end where a path does.
    Files,
}

impl fmt::Display for ArgumentFault {
    fn fmt<W: fmt::Write>(&self, f: &mut fmt::Formatter<W>) -> fmt::Result {
        f.write_str(match self {
            ArgumentFault::Root => "bad root",
            ArgumentFault::Length => "bad length",
            ArgumentFault::PieceLength => "bad piece length",
            ArgumentFault::Proof => "bad proof",
            ArgumentFault::Attrs => "bad attrs",
            ArgumentFault::Files => "bad files",
        })
    }
}

/// The claim that the words make, or the first that makes none.
pub fn claim_of(options: &VerifyOptions<'_>) -> Result<Claim, ArgumentFault>
    ensures claimed { IfOk result (IsClaimIn options.now) }
    ensures refused { IfErr result (IsBadClaim options.now) }
{
    let Some(root) = read_root(options.root) else {
        return Err(ArgumentFault::Root);
    };
    let Some(length) = length_in(options.length) else {
        return Err(ArgumentFault::Length);
    };
    let Some(piece_length) = piece_length_in(options.piece_length) else {
        return Err(ArgumentFault::PieceLength);
    };
    Ok(Claim {
        root,
        length,
        piece_length,
    })
}

/// The length of which these are the shortest digits, from 1 to 2^50.
pub fn length_in(text: &str) -> Option<u64>
    ensures value { IfSome result (IsLengthText text.now) }
    ensures each { (n : ℕ) → IsLengthText text.now n → result ≡ Some n }
{
    match read_number(text.as_bytes()) {
        Some(n) if 0 < n && n <= MAX_LENGTH => Some(n),
        _ => None,
    }
}

/// The piece length of which these are the shortest digits.
pub fn piece_length_in(text: &str) -> Option<u64>
    ensures value { IfSome result (IsPieceLengthText text.now) }
    ensures each { (n : ℕ) → IsPieceLengthText text.now n → result ≡ Some n }
{
    match read_number(text.as_bytes()) {
        Some(n) if is_piece_length(n) => Some(n),
        _ => None,
    }
}
