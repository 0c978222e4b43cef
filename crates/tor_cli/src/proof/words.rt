//! What the words of the commands over proofs of pieces ask for: `tor prove FILE FILENUMBER INDEX` and
//! `tor verify ROOT LENGTH PIECELENGTH PROOF [BYTES]`.
ghost use Rattle.clap.specs.Words.{found_of, rows_of};
ghost use Rattle.std.specs.Prelude.{IfSome};
ghost use Rattle.tor_cli.specs.Words.{IsPieceIn, IsProofIn};

use clap::ArgMatches;

/// Of which piece a proof is wanted.
#[derive(Clone, Copy)]
pub struct ProveOptions<'a> {
    /// The file with the torrent.
    pub torrent: &'a str,
    /// The number of the file in the torrent, from 0.
    pub file: u64,
    /// The number of the piece in the file, from 0.
    pub index: u64,
}

/// What a proof is judged by, as it stands in the words.
#[derive(Clone, Copy)]
pub struct VerifyOptions<'a> {
    pub root: &'a str,
    pub length: &'a str,
    pub piece_length: &'a str,
    /// The file with the proof.
    pub proof: &'a str,
    /// The file with the bytes of the piece, if they are judged too.
    pub bytes: Option<&'a str>,
}

/// The piece that stands in the words; none if `clap` let through words that have none.
pub fn prove_options<'a>(matches: &ArgMatches<'a>) -> Option<ProveOptions<'a>>
    ensures { IfSome result (λ options. IsPieceIn options (rows_of (found_of matches.now))) }
{
    Some(ProveOptions {
        torrent: matches.get_str("file")?,
        file: matches.get_one::<u64>("file-number")?,
        index: matches.get_one::<u64>("index")?,
    })
}

/// What a proof is judged by, of the words; none if `clap` let through words that have none.
pub fn verify_options<'a>(matches: &ArgMatches<'a>) -> Option<VerifyOptions<'a>>
    ensures { IfSome result (λ options. IsProofIn options (rows_of (found_of matches.now))) }
{
    Some(VerifyOptions {
        root: matches.get_str("root")?,
        length: matches.get_str("length")?,
        piece_length: matches.get_str("piece-length")?,
        proof: matches.get_str("proof")?,
        bytes: matches.get_str("bytes"),
    })
}
