//! What the words of `tor recheck --part K/N FILE PATH` ask for.
ghost use Rattle.clap.specs.Words.{found_of, rows_of};
ghost use Rattle.std.specs.Prelude.{IfSome};
ghost use Rattle.tor_cli.specs.Words.{IsLotRecheckIn};

use crate::lots::lot_number::LotNumber;
use crate::lots::number::lot_of;
use crate::recheck::listing::{Form, form_of};
use crate::workers::workers_of;
use clap::ArgMatches;
use std::thread::Threads;

/// Which lot of which torrent is rechecked, against what, and what is printed of it.
#[derive(Clone, Copy)]
pub struct LotRecheckOptions<'a> {
    /// The file with the torrent.
    pub torrent: &'a str,
    /// The file or folder that has the torrent's files.
    pub place: &'a str,
    pub lot: LotNumber,
    pub form: Form,
    /// How many workers hash.
    pub workers: u32,
    /// A file is read through links below PATH; if not, one behind a link is not there.
    pub follows_links: bool,
}

/// What is to be rechecked, of the words; none if they name no lot, or no number of workers, or ask for paths.
pub fn lot_recheck_options<'a, T: Threads>(
    rt: &T,
    matches: &ArgMatches<'a>,
) -> Option<LotRecheckOptions<'a>>
    ensures { IfSome result (λ options. IsLotRecheckIn options (rows_of (found_of matches.now))) }
{
    if matches.get_flag("null") {
        return None;
    }
    Some(LotRecheckOptions {
        torrent: matches.get_str("file")?,
        place: matches.get_str("path")?,
        lot: lot_of(matches.get_str("part")?)?,
        form: form_of(matches.get_flag("brief"), matches.get_flag("json")),
        workers: workers_of(rt, matches.get_str("workers")?)?,
        follows_links: !matches.get_flag("no-links"),
    })
}
