//! What the words of `tor make --plan PLAN --part K/N PATH` ask for.
ghost use Rattle.clap.specs.Words.{found_of, rows_of};
ghost use Rattle.std.specs.Prelude.{IfSome};
ghost use Rattle.tor_cli.specs.Words.{IsLotIn};

use crate::lots::lot_number::LotNumber;
use crate::lots::number::lot_of;
use crate::make::options::way_in;
use crate::make::way::Way;
use clap::ArgMatches;
use std::thread::Threads;
use tor_engine::How;

/// Which lot of which plan is hashed, and by whom.
#[derive(Clone, Copy)]
pub struct LotOptions<'a> {
    /// The file with the plan.
    pub plan: &'a str,
    pub lot: LotNumber,
    pub how: How,
    /// The file that the lot goes to; standard output if there is none.
    pub out: Option<&'a str>,
    /// The file or folder that has the plan's files.
    pub place: &'a str,
}

/// What is to be hashed, of the words; none if they name no lot, or workers behind streams.
pub fn lot_options<'a, T: Threads>(rt: &T, matches: &ArgMatches<'a>) -> Option<LotOptions<'a>>
    ensures { IfSome result (λ options. IsLotIn options (rows_of (found_of matches.now))) }
{
    let lot = lot_of(matches.get_str("part")?)?;
    match way_in(rt, matches)? {
        Way::Shared(how) => Some(LotOptions {
            plan: matches.get_str("plan")?,
            lot,
            how,
            out: matches.get_str("out"),
            place: matches.get_str("path")?,
        }),
        Way::Streams(_) => None,
    }
}
