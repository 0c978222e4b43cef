//! `tor verify`: whether the proof in a file holds.
ghost use Rattle.std.specs.Prelude.{◌≡◌, ◌≤◌, ℕ, List, Option, IfErr, IfOk, option_map};
ghost use Rattle.tor_cli.specs.proof.Proving.{DoesVerify, IsAnswered, IsAnsweredOf, IsAnsweredWith, OfPieceBytes};
ghost use Rattle.tor_cli.specs.proof.Proving.{StopsVerifying, answer_line, holds_in};
ghost use Rattle.tor_cli.specs.proof.ProofText.{IsProof, proof_text};
ghost use Rattle.tor_merkle.specs.Layer.{IsPieceLength};
ghost use Rattle.tor_merkle.specs.declared.TheConstants.{MAX_LENGTH};
ghost use Rattle.tor_cli.specs.steps.Answering.{IsNotAnswered};
ghost use Rattle.tor_cli.specs.steps.Writing.{writing};

use crate::answer::Answer;
use crate::fault::Fault;
use crate::foreign::read_front;
use crate::proof::claim::{ArgumentFault, Claim, claim_of};
use crate::proof::text::read_proof;
use crate::proof::words::VerifyOptions;
use std::alloc::Global;
use std::io::Write;
use tor_merkle::{Hash, Proof, proof_count, proof_level};
use tor_source::InputFault;
use tor_spec::write_out;
use tor_view::is_piece;

/// So many bytes of PROOF are held at the most. The longest text of a proof has 2,725.
const MOST_OF_PROOF: usize = 4096;

/// Writes whether the proof in the file holds for what the words claim; and, if they name a file with the bytes of the
/// piece, whether these are the ones that it is of.
pub fn verify<W: Write>(
    system: &HostRuntime,
    options: &VerifyOptions<'_>,
    out: &mut W,
) -> Result<Answer, Fault>
    ensures answered { (reader : Option (List ℕ)) → IfOk result (λ answer. DoesVerify options.now answer (writing reader
        (W.contents out.old) (W.contents out.new))) }
    ensures stopped { (reader : Option (List ℕ)) → IfErr result (StopsVerifying options.now (writing reader
        (W.contents out.old) (W.contents out.new))) }
{
    let alloc = system.alloc();
    let claim = claim_of(options)?;
    let bytes = read_front(alloc, system, options.proof, MOST_OF_PROOF)?;
    let piece = bytes_of_piece(system, options.bytes, claim.piece_length)?;
    let answer = answer_with(alloc, &claim, &bytes, &piece)?;
    write_out(out, answer_line(answer).as_bytes())?;
    Ok(answer)
}

fn answer_line(answer: Answer) -> &'static str
    ensures { result.now ≡ answer_line answer }
{
    match answer {
        Answer::Yes => "yes\n",
        Answer::No => "no\n",
    }
}

/// The bytes of the piece, if a file has them: of a file with more than a piece has, one more than that.
fn bytes_of_piece(
    system: &HostRuntime,
    place: Option<&str>,
    piece_length: u64,
) -> Result<Option<Vec<u8>>, InputFault>
    ensures { IfOk result (λ piece. OfPieceBytes (option_map (λ name. name.now) place.entry)
        (λ told. option_map (λ bytes. bytes.items) piece ≡ told)) }
{
    match place {
        Some(place) => {
            let most = piece_length.saturating_add(1) as usize;
            Ok(Some(read_front(system.alloc(), system, place, most)?))
        }
        None => Ok(None),
    }
}

/// Whether the proof holds whose text the bytes are, and is of the piece that has these bytes, if they are judged.
fn answer_with(
    alloc: Global,
    claim: &Claim,
    bytes: &[u8],
    piece: &Option<Vec<u8>>,
) -> Result<Answer, Fault>
    requires allowed { IsPieceLength claim.now.piece_length }
    requires small { claim.now.length ≤ MAX_LENGTH }
    ensures answered { IfOk result
        (IsAnsweredWith claim.now bytes.now (option_map (λ bytes. bytes.items) piece.now)) }
    ensures stopped { IfErr result (IsNotAnswered bytes.now) }
{
    match piece {
        Some(piece) => answer_of_piece(alloc, claim, bytes, piece),
        None => answer_to(alloc, claim, bytes),
    }
}

/// Whether the proof holds whose text the bytes are, and is of the piece that has the other bytes.
fn answer_of_piece(
    alloc: Global,
    claim: &Claim,
    bytes: &[u8],
    piece: &[u8],
) -> Result<Answer, Fault>
    requires allowed { IsPieceLength claim.now.piece_length }
    requires small { claim.now.length ≤ MAX_LENGTH }
    ensures answered { IfOk result (IsAnsweredOf claim.now bytes.now piece.now) }
    ensures stopped { IfErr result (IsNotAnswered bytes.now) }
{
    let (index, hash, proof) = proof_in(alloc, bytes)?;
    let has_hash = is_piece(alloc, claim.length, claim.piece_length, index, &hash, piece)?;
    if has_hash && holds(claim, index, &hash, &proof) {
        Ok(Answer::Yes)
    } else {
        Ok(Answer::No)
    }
}

/// Whether the proof holds whose text the bytes are.
fn answer_to(alloc: Global, claim: &Claim, bytes: &[u8]) -> Result<Answer, Fault>
    requires allowed { IsPieceLength claim.now.piece_length }
    requires small { claim.now.length ≤ MAX_LENGTH }
    ensures answered { IfOk result (IsAnswered claim.now bytes.now) }
    ensures stopped { IfErr result (IsNotAnswered bytes.now) }
{
    let (index, hash, proof) = proof_in(alloc, bytes)?;
    if holds(claim, index, &hash, &proof) {
        Ok(Answer::Yes)
    } else {
        Ok(Answer::No)
    }
}

/// The proof whose text the bytes are.
fn proof_in(alloc: Global, bytes: &[u8]) -> Result<(u64, Hash, Proof), Fault>
    ensures read { IfOk result (λ read. IsProof read.0 read.1 read.2.siblings.items
        × (proof_text read.0 read.1 read.2.siblings.items ≡ bytes.now)) }
    ensures stopped { IfErr result (IsNotAnswered bytes.now) }
{
    match read_proof(alloc, bytes)? {
        Some(read) => Ok(read),
        None => Err(Fault::Argument(ArgumentFault::Proof)),
    }
}

/// Whether a proof holds for what is claimed.
fn holds(claim: &Claim, index: u64, hash: &Hash, proof: &Proof) -> bool
    requires allowed { IsPieceLength claim.now.piece_length }
    requires small { claim.now.length ≤ MAX_LENGTH }
    ensures { result ≡ holds_in claim.now index hash.now proof.now.siblings.items }
{
    tor_merkle::laws::proofs_are_low();
    let count = proof_count(claim.length, claim.piece_length);
    let level = proof_level(claim.length, claim.piece_length);
    tor_merkle::verify(&claim.root, count, level, index, hash, proof)
}
