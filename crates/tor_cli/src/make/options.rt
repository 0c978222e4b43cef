//! What the words of `tor make` ask for.
ghost use Rattle.clap.specs.Words.{first_of, found_of, rows_of};
ghost use Rattle.std.specs.Prelude.{◌≡◌, IfSome, IsSome, None, Some, codes};
ghost use Rattle.tor_tree.specs.declared.kinds.Kind.{Kind};
ghost use Rattle.tor_cli.specs.Words.{AreOptionsIn, AreTorrentOptionsIn, HasWorkers, IsLengthIn, IsWorkersIn};
ghost use Rattle.tor_cli.specs.Words.{way_word, word_of};
ghost use Rattle.tor_cli.specs.declared.make.piece_length.PieceLength.TheVariants.{Auto};
ghost use Rattle.tor_cli.specs.declared.make.way.Way.{Way};
ghost use Rattle.tor_cli.specs.declared.make.way.Way.TheVariants.{Shared};
ghost use Rattle.tor_sums.specs.declared.how.How.TheVariants.{One};

use crate::make::piece_length::{PieceLength, piece_length_of};
use crate::make::way::Way;
use crate::workers::workers_of;
use clap::ArgMatches;
use std::thread::Threads;
use tor_engine::How;
use tor_tree::Kind;

/// How `tor make` is to make a torrent.
#[derive(Clone, Copy)]
pub struct MakeOptions<'a> {
    pub kind: Kind,
    pub name: &'a str,
    pub piece_length: PieceLength,
    /// The tracker's URL.
    pub announce: Option<&'a str>,
    pub is_private: bool,
    /// Of a hybrid of files in a folder the last that is not empty has padding too.
    pub tail: bool,
    /// Who hashes files.
    pub way: Way,
    /// The pieces that a worker hashes as one unit of work.
    pub span: u32,
    /// It goes out only if the files still have each piece of it afterwards.
    pub check_after: bool,
    /// The file that the torrent goes to; standard output if there is none.
    pub out: Option<&'a str>,
    /// The file or folder that it is made of; standard input if there is none.
    pub place: Option<&'a str>,
    /// The file that has the letters of its files; none has letters if there is none.
    pub attrs: Option<&'a str>,
    /// The file that lists which files of the folder it is made of, or `-` for standard input; all if there is none.
    pub list: Option<&'a str>,
}

/// The options that say what the torrent is to have, beside its files and who hashes them; none if `clap` let through
/// words that give no option its value. One worker hashes, of standard input.
pub(crate) fn torrent_options<'a>(matches: &ArgMatches<'a>) -> Option<MakeOptions<'a>>
    ensures asked { IfSome result (AreTorrentOptionsIn (rows_of (found_of matches.now))) }
    ensures shared { IfSome result (λ options. options.way ≡ Shared One) }
{
    Some(MakeOptions {
        kind: kind_in(matches)?,
        name: matches.get_str("name")?,
        piece_length: piece_length_in(matches)?,
        announce: matches.get_str("announce"),
        is_private: matches.get_flag("private"),
        tail: matches.get_flag("tail"),
        way: Way::Shared(How::One),
        span: matches.get_one::<u32>("span")?,
        check_after: false,
        out: matches.get_str("out"),
        place: None,
        attrs: matches.get_str("attrs"),
        list: matches.get_str("files-from"),
    })
}

/// The options that stand in the words; none if `clap` let through words that give no option its value, as a number of
/// workers that is none.
pub fn make_options<'a, T: Threads>(rt: &T, matches: &ArgMatches<'a>) -> Option<MakeOptions<'a>>
    requires { first_of (codes "plan") (rows_of (found_of matches.now)) ≡ None }
    ensures { IfSome result (AreOptionsIn (rows_of (found_of matches.now))) }
{
    let torrent = torrent_options(matches)?;
    Some(MakeOptions {
        way: way_in(rt, matches)?,
        check_after: matches.get_flag("check-after"),
        place: matches.get_str("path"),
        ..torrent
    })
}

/// The piece length that stands in the words; `auto` only beside the files that it is to suit.
pub(crate) fn piece_length_in(matches: &ArgMatches<'_>) -> Option<PieceLength>
    ensures word { IfSome result (IsLengthIn (rows_of (found_of matches.now))) }
    ensures files { IfSome result
        (λ length. length ≡ Auto → IsSome (first_of (codes "path") (rows_of (found_of matches.now)))) }
{
    let length = piece_length_of(matches.get_str("piece-length")?)?;
    match length {
        PieceLength::Auto => {
            matches.get_str("path")?;
            Some(length)
        }
        PieceLength::Bytes(_) => Some(length),
    }
}

fn kind_in(matches: &ArgMatches<'_>) -> Option<Kind>
    ensures { IfSome result
        (λ kind. first_of (codes "kind") (rows_of (found_of matches.now)) ≡ Some (word_of kind)) }
{
    kind_of(matches.get_str("kind")?)
}

/// Who hashes, by two of the words.
pub(crate) fn way_in<T: Threads>(rt: &T, matches: &ArgMatches<'_>) -> Option<Way>
    ensures word { IfSome result
        (λ way. first_of (codes "how") (rows_of (found_of matches.now)) ≡ Some (way_word way)) }
    ensures workers { IfSome result (λ way. IsWorkersIn (rows_of (found_of matches.now)) (HasWorkers way)) }
{
    let word = matches.get_str("how")?;
    let workers = workers_of(rt, matches.get_str("workers")?)?;
    way_of(word, workers)
}

fn kind_of(word: &str) -> Option<Kind>
    ensures value { IfSome result (λ kind. word_of kind ≡ word.now) }
    ensures each { (kind : Kind) → word.now ≡ word_of kind → result ≡ Some kind }
{
    match word {
        "v1" => Some(Kind::V1),
        "v2" => Some(Kind::V2),
        "hybrid" => Some(Kind::Hybrid),
        _ => None,
    }
}

/// One worker ignores the number of workers.
fn way_of(word: &str, workers: u32) -> Option<Way>
    ensures value { IfSome result (λ way. (way_word way ≡ word.now) × HasWorkers way workers) }
    ensures each { (way : Way) → word.now ≡ way_word way → HasWorkers way workers → result ≡ Some way }
{
    match word {
        "one" => Some(Way::Shared(How::One)),
        "halves" => Some(Way::Shared(How::Halves(workers))),
        "board" => Some(Way::Shared(How::Board(workers))),
        "streams" => Some(Way::Streams(workers)),
        _ => None,
    }
}
