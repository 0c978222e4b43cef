//! What the words of `tor check FILE` ask for.
ghost use Rattle.clap.specs.Words.{found_of, rows_of};
ghost use Rattle.std.specs.Prelude.{◌≡◌, IfSome};
ghost use Rattle.tor_cli.specs.Words.{IsCheckIn, telling_of};

use crate::check::telling::Telling;
use clap::ArgMatches;

/// Which torrent is judged, and what is told of it.
#[derive(Clone, Copy)]
pub struct CheckOptions<'a> {
    /// The file with the torrent.
    pub torrent: &'a str,
    pub telling: Telling,
}

/// What is to be told, of the words; none if `clap` let through words that have none.
pub fn check_options<'a>(matches: &ArgMatches<'a>) -> Option<CheckOptions<'a>>
    ensures { IfSome result (λ options. IsCheckIn options (rows_of (found_of matches.now))) }
{
    Some(CheckOptions {
        torrent: matches.get_str("file")?,
        telling: telling_of(
            matches.get_flag("roots"),
            matches.get_flag("null"),
            matches.get_flag("json"),
        ),
    })
}

/// What the flags `--roots`, `--null` and `--json` ask for; no two of them stand beside each other.
fn telling_of(roots: bool, null: bool, json: bool) -> Telling
    ensures { result ≡ telling_of roots null json }
{
    match (roots, null, json) {
        (true, _, _) => Telling::Roots,
        (false, _, true) => Telling::Record,
        (false, true, false) => Telling::Paths,
        (false, false, false) => Telling::Lines,
    }
}
