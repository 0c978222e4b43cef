//! What the words of `tor plan` ask for.
ghost use Rattle.clap.specs.Words.{found_of, rows_of};
ghost use Rattle.std.specs.Prelude.{IfSome};
ghost use Rattle.tor_cli.specs.Words.{IsPlanIn};

use crate::lots::plan_options::PlanOptions;
use crate::make::options::torrent_options;
use clap::ArgMatches;

/// What is to be planned, of the words; none if `clap` let through words that have none.
pub fn plan_options<'a>(matches: &ArgMatches<'a>) -> Option<PlanOptions<'a>>
    ensures { IfSome result (λ options. IsPlanIn options (rows_of (found_of matches.now))) }
{
    Some(PlanOptions {
        torrent: torrent_options(matches)?,
        place: matches.get_str("path")?,
    })
}
