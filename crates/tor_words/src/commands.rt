//! The commands, those over whole torrents first.
ghost use Rattle.std.specs.Prelude.{◌≡◌};
ghost use Rattle.tor_words.specs.CommandLine.{Parsers, piece_apps, torrent_apps};
ghost use Rattle.tor_words.specs.Rules.{apps_of};

mod check;
mod edit;
mod join;
mod magnet;
mod make;
mod prove;
mod recheck;
mod scan;
mod shared;
mod verify;

use crate::command_table::CommandTable;
use crate::commands::check::check_table;
use crate::commands::edit::edit_table;
use crate::commands::join::join_table;
use crate::commands::magnet::magnet_table;
use crate::commands::make::{make_table, plan_table};
use crate::commands::prove::prove_table;
use crate::commands::recheck::recheck_table;
use crate::commands::scan::scan_table;
use crate::commands::verify::verify_table;

/// The commands over whole torrents.
pub fn torrent_commands() -> [CommandTable<'static>; 7]
    ensures { (parsers : Parsers) × (apps_of result ≡ torrent_apps parsers) }
{
    [
        make_table(),
        plan_table(),
        join_table(),
        scan_table(),
        check_table(),
        magnet_table(),
        edit_table(),
    ]
}

/// The commands over single pieces.
pub fn piece_commands() -> [CommandTable<'static>; 3]
    ensures { apps_of result ≡ piece_apps }
{
    [prove_table(), verify_table(), recheck_table()]
}
