//! What the words of `tor join PLAN PART..` ask for.
ghost use Rattle.clap.specs.Words.{all_of, found_of, rows_of};
ghost use Rattle.std.specs.Prelude.{◌≡◌, [], IfOk, IfSome, codes, map, unwrap_or};
ghost use Rattle.tor_cli.specs.Words.{IsJoinIn};

use clap::ArgMatches;
use std::alloc::{AllocError, Global};

/// Which plan and parts are joined.
#[derive(Drop)]
pub struct JoinOptions<'a> {
    /// The file with the plan.
    pub plan: &'a str,
    /// The files with the parts.
    pub parts: Vec<&'a str>,
    /// The file that the torrent goes to; standard output if there is none.
    pub out: Option<&'a str>,
}

/// What is to be joined, of the words; none if `clap` let through words that have none.
pub fn join_options<'a>(
    alloc: Global,
    matches: &ArgMatches<'a>,
) -> Result<Option<JoinOptions<'a>>, AllocError>
    ensures { IfOk result (λ found. IfSome found (λ options. IsJoinIn options (rows_of (found_of matches.now)))) }
{
    let Some(plan) = matches.get_str("plan") else {
        return Ok(None);
    };
    let parts = parts_in(alloc, matches)?;
    Ok(Some(JoinOptions {
        plan,
        parts,
        out: matches.get_str("out"),
    }))
}

fn parts_in<'a>(alloc: Global, matches: &ArgMatches<'a>) -> Result<Vec<&'a str>, AllocError>
    ensures { IfOk result (λ parts. unwrap_or (all_of (codes "part") (rows_of (found_of matches.now))) []
        ≡ map (λ part. part.now) parts.items) }
{
    match matches.get_strs("part") {
        Some(parts) => Vec::from_slice(alloc, parts),
        None => Ok(Vec::new(alloc)),
    }
}
