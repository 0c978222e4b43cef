//! `tor prove`: the proof of one piece of the torrent in a file.
ghost use Rattle.std.specs.Prelude.{ℕ, List, Option, IfErr, IfOk, OnOk, string_bytes};
ghost use Rattle.tor_cli.specs.proof.Proving.{DoesProve, IsNotProved, IsProofOf, StopsProving};
ghost use Rattle.tor_cli.specs.steps.Writing.{writing};

use crate::fault::Fault;
use crate::foreign::read_file;
use crate::proof::text::proof_text;
use crate::proof::words::ProveOptions;
use std::alloc::Global;
use std::io::Write;
use tor_check::{prove_piece, validate};
use tor_spec::write_out;

/// Writes the proof of this piece. Nothing is written before the torrent was judged.
pub fn prove<W: Write>(
    system: &HostRuntime,
    options: &ProveOptions<'_>,
    out: &mut W,
) -> Result<(), Fault>
    ensures proved { (reader : Option (List ℕ)) → OnOk result (DoesProve options.now (writing reader
        (W.contents out.old) (W.contents out.new))) }
    ensures stopped { (reader : Option (List ℕ)) → IfErr result (StopsProving options.now (writing reader
        (W.contents out.old) (W.contents out.new))) }
{
    let alloc = system.alloc();
    let bytes = read_file(alloc, system, options.torrent)?;
    let text = text_of_piece(alloc, &bytes, options.file, options.index)?;
    Ok(write_out(out, text.as_bytes())?)
}

/// The text of the proof of a piece of the torrent that the bytes are.
fn text_of_piece(alloc: Global, bytes: &[u8], file: u64, index: u64) -> Result<String, Fault>
    ensures proved { IfOk result (λ text. IsProofOf file index bytes.now (string_bytes text)) }
    ensures stopped { IfErr result (IsNotProved file index bytes.now) }
{
    let torrent = match validate(alloc, bytes) {
        Ok(torrent) => torrent,
        Err(refusal) => return Err(Fault::from(refusal)),
    };
    let (hash, proof) = match prove_piece(alloc, &torrent, file, index) {
        Ok(proved) => proved,
        Err(error) => return Err(Fault::from(error)),
    };
    Ok(proof_text(alloc, index, &hash, &proof)?)
}
