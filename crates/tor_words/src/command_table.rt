//! A command with its words.
ghost use Rattle.clap.specs.Words.{app_of, new_app};
ghost use Rattle.std.specs.Prelude.{◌≡◌, IfOk};
ghost use Rattle.tor_words.specs.CommandLine.{explained, with_commands};
ghost use Rattle.tor_words.specs.Rules.{app_of_table, apps_of};

use crate::argument::{argument_of_word, arguments_of_words};
use crate::word::{Takes, Word};
use clap::Command;
use std::alloc::{AllocError, Global};

/// A command, as its table has it.
#[derive(Clone, Copy)]
pub struct CommandTable<'a> {
    pub name: &'a str,
    /// What the help tells of it, and what it tells after the words.
    pub about: &'a str,
    pub more: Option<&'a str>,
    pub words: &'a [Word<'a>],
}

// Each command has it.
const EXPLAIN: Word<'static> = Word {
    name: "explain",
    takes: Takes::Nothing,
    beside: &[],
    without: &[],
    help: "If the command fails, print where and why on a second line",
};

/// The command, and these below it.
pub fn with_tables<'a>(
    alloc: Global,
    command: Command<'a>,
    tables: &[CommandTable<'a>],
) -> Result<Command<'a>, AllocError>
    ensures { IfOk result (λ added. app_of added ≡ with_commands (app_of command.entry) (apps_of tables.now)) }
{
    let mut command = command;
    'tables: for table in tables {
        command = command.subcommand(command_of_table(alloc, table)?)?;
    }
    Ok(command)
}

/// The command, which takes `--explain` too.
fn command_of_table<'a>(alloc: Global, table: &CommandTable<'a>) -> Result<Command<'a>, AllocError>
    ensures { IfOk result (λ command. app_of command ≡ explained (app_of_table table.now)) }
{
    let mut words = arguments_of_words(alloc, table.words)?;
    words.push(argument_of_word(alloc, &EXPLAIN)?)?;
    bare_command(alloc, table).args(words)
}

/// The command without its words.
fn bare_command<'a>(alloc: Global, table: &CommandTable<'a>) -> Command<'a>
    ensures { app_of result ≡ new_app table.now.name.now }
{
    let command = Command::new(alloc, table.name).about(table.about);
    match table.more {
        Some(more) => command.after_help(more),
        None => command,
    }
}
