//! What the words of `tor edit` ask for.
ghost use Rattle.clap.specs.Words.{found_of, rows_of};
ghost use Rattle.std.specs.Prelude.{IfSome};
ghost use Rattle.tor_cli.specs.Words.{IsEditIn};

use clap::ArgMatches;

/// Which torrent gets which tracker.
#[derive(Clone, Copy)]
pub struct EditOptions<'a> {
    /// The file with the torrent.
    pub torrent: &'a str,
    /// The URL of its tracker; none if it is to have none.
    pub tracker: Option<&'a str>,
    /// The file that the torrent goes to; standard output if there is none.
    pub out: Option<&'a str>,
}

/// What is to be edited, of the words; none if `clap` let through words that have none.
pub fn edit_options<'a>(matches: &ArgMatches<'a>) -> Option<EditOptions<'a>>
    ensures { IfSome result (λ options. IsEditIn options (rows_of (found_of matches.now))) }
{
    let tracker = matches.get_str("announce");
    if matches.get_flag("no-announce") != tracker.is_none() {
        return None;
    }
    Some(EditOptions {
        torrent: matches.get_str("file")?,
        tracker,
        out: matches.get_str("out"),
    })
}
