//! The command line of `tor`: its commands, their words, and what the help tells of them. What the words ask for is for
//! `tor_cli` to read.
//!
//! - `commands.rt`: all commands; its folder has a table for each, and in `shared.rt` the words that several have.
//! - `word.rt`: a word, as it stands in a table; `argument.rt`: the word as the kit's `clap` has it.
//! - `command_table.rt`: a table, and the command of it; `command_line.rt`: all commands, below the program's own name.
#![tactic(auto)]

mod argument;
mod command_line;
mod command_table;
mod commands;
mod word;

pub use command_line::tor_command;
