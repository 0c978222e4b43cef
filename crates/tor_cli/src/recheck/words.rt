//! What the words of `tor recheck FILE PATH` ask for.
ghost use Rattle.clap.specs.Words.{first_of, found_of, rows_of};
ghost use Rattle.std.specs.Prelude.{◌≡◌, ◌&&◌, not, Bool, IfSome, None, codes, false};
ghost use Rattle.tor_cli.specs.Words.{IsFlag, IsRecheckIn};

use crate::recheck::listing::{FileListing, Form, form_of, listing_of};
use crate::workers::workers_of;
use clap::ArgMatches;
use std::thread::Threads;

/// Which torrent is rechecked, against what, and what is printed of it.
#[derive(Clone, Copy)]
pub struct RecheckOptions<'a> {
    /// The file with the torrent.
    pub torrent: &'a str,
    /// The file or folder that has the torrent's files.
    pub place: &'a str,
    pub listing: FileListing,
    pub form: Form,
    /// How many workers hash.
    pub workers: u32,
    /// What cannot be read is not there, and the rest goes on.
    pub keeps_going: bool,
    /// A file is read through links below PATH; if not, one behind a link is not there.
    pub follows_links: bool,
}

/// What is to be rechecked, of the words; none if `clap` let through words that have none, as a number of workers that
/// is none.
pub fn recheck_options<'a, T: Threads>(
    rt: &T,
    matches: &ArgMatches<'a>,
) -> Option<RecheckOptions<'a>>
    requires whole { first_of (codes "part") (rows_of (found_of matches.now)) ≡ None }
    requires pieces { (given : Bool) → IsFlag (rows_of (found_of matches.now)) (codes "extra") given →
        given ≡ false }
    ensures { IfSome result (λ options. IsRecheckIn options (rows_of (found_of matches.now))) }
{
    let bad = matches.get_flag("bad");
    let null = matches.get_flag("null");
    if stands_alone(null, bad) {
        return None;
    }
    Some(RecheckOptions {
        torrent: matches.get_str("file")?,
        place: matches.get_str("path")?,
        listing: listing_of(matches.get_flag("files"), bad, null),
        form: form_of(matches.get_flag("brief"), matches.get_flag("json")),
        workers: workers_of(rt, matches.get_str("workers")?)?,
        keeps_going: matches.get_flag("keep-going"),
        follows_links: !matches.get_flag("no-links"),
    })
}

/// Whether `--null` is given, and not `--bad`.
fn stands_alone(null: bool, bad: bool) -> bool
    ensures { result ≡ (null && not bad) }
{
    null && !bad
}
