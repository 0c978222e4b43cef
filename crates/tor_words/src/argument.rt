//! A word of a command as the kit's `clap` has it.
ghost use Rattle.std.specs.Prelude.{[], IfOk};
ghost use Rattle.tor_words.specs.Bounds.{other_of};
ghost use Rattle.tor_words.specs.CommandLine.{argument_of, flag_of, may_argument, option_of};
ghost use Rattle.tor_words.specs.Rules.{AreArgumentsOf, IsArgumentOf, HasNoOthers, rule_of_takes};
ghost use Rattle.tor_words.specs.declared.word.Takes.TheVariants.{NumberOr, ValueOr};

use crate::word::{Takes, Word};
use clap::{Arg, ArgAction, value_parser};
use std::alloc::{AllocError, Global};

/// The words of a table.
pub fn arguments_of_words<'a>(alloc: Global, words: &[Word<'a>]) -> Result<Vec<Arg<'a>>, AllocError>
    ensures { IfOk result (λ args. AreArgumentsOf args.items words.now) }
{
    let mut args = Vec::new(alloc);
    'words: for word in words {
        args.push(argument_of_word(alloc, word)?)?;
    }
    Ok(args)
}

/// A word, which stands beside others as its table says.
pub fn argument_of_word<'a>(alloc: Global, word: &Word<'a>) -> Result<Arg<'a>, AllocError>
    ensures { IfOk result (λ arg. IsArgumentOf arg word.now) }
{
    let free = argument_of_takes(alloc, word)?;
    free.requires_all(word.beside)?
        .conflicts_with_all(word.without)
}

/// A word by what it takes, before it is told beside which others it stands.
fn argument_of_takes<'a>(alloc: Global, word: &Word<'a>) -> Result<Arg<'a>, AllocError>
    ensures { IfOk result (HasNoOthers (rule_of_takes word.now.name.now word.now.takes) (other_of word.now.takes)) }
{
    match word.takes {
        Takes::Nothing => Ok(flag_of(alloc, word)),
        Takes::Value { shown } => Ok(option_of(alloc, word, shown)),
        Takes::Wanted { shown } => Ok(option_of(alloc, word, shown).required(true)),
        Takes::WantedUnless { shown, other } => {
            option_of(alloc, word, shown).required_unless_present(other)
        }
        Takes::ValueOr { shown, default } => Ok(option_with_default(alloc, word, shown, default)),
        Takes::NameOr {
            shown,
            names,
            default,
        } => Ok(option_with_default(alloc, word, shown, default).value_parser(names)),
        Takes::NumberOr { shown, default } => Ok(number_with_default(alloc, word, shown, default)),
        Takes::Argument { number, shown } => Ok(argument_of(alloc, word, number, shown)),
        Takes::MayArgument { number, shown } => Ok(numbered_of(alloc, word, number, shown)),
        Takes::NumberArgument { number, shown } => {
            let argument = argument_of(alloc, word, number, shown);
            Ok(argument.value_parser(value_parser!(u64)))
        }
        Takes::Arguments { number, shown } => {
            Ok(numbered_of(alloc, word, number, shown).action(ArgAction::Append))
        }
    }
}

/// An option without a value.
fn flag_of<'a>(alloc: Global, word: &Word<'a>) -> Arg<'a>
    ensures { HasNoOthers (flag_of word.now.name.now) [] result }
{
    Arg::new(alloc, word.name)
        .long(word.name)
        .action(ArgAction::SetTrue)
        .help(word.help)
}

/// An option with a value.
fn option_of<'a>(alloc: Global, word: &Word<'a>, shown: &'a str) -> Arg<'a>
    ensures { HasNoOthers (option_of word.now.name.now) [] result }
{
    Arg::new(alloc, word.name)
        .long(word.name)
        .value_name(shown)
        .help(word.help)
}

/// An option with a value: `default`, if the option is not there.
fn option_with_default<'a>(
    alloc: Global,
    word: &Word<'a>,
    shown: &'a str,
    default: &'a str,
) -> Arg<'a>
    ensures { HasNoOthers (rule_of_takes word.now.name.now (ValueOr shown.entry default.entry)) [] result }
{
    option_of(alloc, word, shown).default_value(default)
}

/// An option with a number of 32 bits for a value: `default`, if the option is not there.
fn number_with_default<'a>(
    alloc: Global,
    word: &Word<'a>,
    shown: &'a str,
    default: &'a str,
) -> Arg<'a>
    ensures { HasNoOthers (rule_of_takes word.now.name.now (NumberOr shown.entry default.entry)) [] result }
{
    option_with_default(alloc, word, shown, default).value_parser(value_parser!(u32))
}

/// The word of this number, from 1, which has to be there.
fn argument_of<'a>(alloc: Global, word: &Word<'a>, number: usize, shown: &'a str) -> Arg<'a>
    ensures { HasNoOthers (argument_of word.now.name.now number) [] result }
{
    numbered_of(alloc, word, number, shown).required(true)
}

/// The word of this number, from 1.
fn numbered_of<'a>(alloc: Global, word: &Word<'a>, number: usize, shown: &'a str) -> Arg<'a>
    ensures { HasNoOthers (may_argument word.now.name.now number) [] result }
{
    Arg::new(alloc, word.name)
        .index(number)
        .value_name(shown)
        .help(word.help)
}
