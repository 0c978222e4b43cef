//! The whole command line.
ghost use Rattle.clap.specs.Words.{app_of};
ghost use Rattle.std.specs.Prelude.{◌≡◌, IfOk};
ghost use Rattle.tor_words.specs.CommandLine.{Parsers, tor_app};

use crate::command_table::with_tables;
use crate::commands::{piece_commands, torrent_commands};
use clap::Command;
use std::alloc::{AllocError, Global};

// What the help ends with.
const MORE: &str = "\
Exit status: 0 done; 1 refused, answered no, or not all pieces are there and right; 2 usage; 3 read or write fault;
4 memory or a thread refused. More: the man page and the manual";

/// The command line of `tor`: what it takes, and its help. `Err` if memory is refused.
pub fn tor_command<'a>(alloc: Global) -> Result<Command<'a>, AllocError>
    ensures { IfOk result (λ command. (parsers : Parsers) × (app_of command ≡ tor_app parsers)) }
{
    let top = Command::new(alloc, "tor")
        .version("1.2.0")
        .about("Make, validate and recheck BitTorrent metainfo files, and prove single pieces")
        .after_help(MORE)
        .subcommand_required(true)
        .bin_name("tor")?;
    let over_torrents = with_tables(alloc, top, &torrent_commands())?;
    with_tables(alloc, over_torrents, &piece_commands())
}
