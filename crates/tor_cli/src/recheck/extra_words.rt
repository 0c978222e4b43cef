//! What the words of `tor recheck --extra FILE PATH` ask for.
ghost use Rattle.clap.specs.Words.{first_of, found_of, rows_of};
ghost use Rattle.std.specs.Prelude.{◌≡◌, Bool, IfSome, None, codes, true};
ghost use Rattle.tor_cli.specs.Words.{IsExtraIn, IsFlag};

use crate::scan::words::{ScanForm, scan_form_of};
use clap::ArgMatches;

/// Below which place files are looked for that are none of a torrent's, and what is printed of them.
#[derive(Clone, Copy)]
pub struct ExtraOptions<'a> {
    /// The file with the torrent.
    pub torrent: &'a str,
    /// The folder.
    pub place: &'a str,
    pub form: ScanForm,
}

/// What is to be told, of the words that ask for these files; none if `clap` let through words that have none.
pub fn extra_options<'a>(matches: &ArgMatches<'a>) -> Option<ExtraOptions<'a>>
    requires whole { first_of (codes "part") (rows_of (found_of matches.now)) ≡ None }
    requires extra { (given : Bool) → IsFlag (rows_of (found_of matches.now)) (codes "extra") given → given ≡ true }
    ensures { IfSome result (λ options. IsExtraIn options (rows_of (found_of matches.now))) }
{
    Some(ExtraOptions {
        torrent: matches.get_str("file")?,
        place: matches.get_str("path")?,
        form: scan_form_of(matches.get_flag("null"), matches.get_flag("json")),
    })
}
