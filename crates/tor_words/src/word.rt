//! A word of a command, as it stands in the table of the command.

/// A word of a command.
#[derive(Clone, Copy)]
pub struct Word<'a> {
    /// Its name, by which its value is asked for. An option is written with two dashes before it.
    pub name: &'a str,
    pub takes: Takes<'a>,
    /// It stands only beside all of these.
    pub beside: &'a [&'a str],
    /// It stands beside none of these.
    pub without: &'a [&'a str],
    /// What the help tells of it.
    pub help: &'a str,
}

/// What a word takes. The help shows its value as `shown`.
#[derive(Clone, Copy)]
pub enum Takes<'a> {
    /// An option without a value.
    Nothing,
    /// An option with a value.
    Value {
        shown: &'a str,
    },
    /// An option with a value, which has to be there.
    Wanted {
        shown: &'a str,
    },
    /// An option with a value, which has to be there unless that other option is.
    WantedUnless {
        shown: &'a str,
        other: &'a str,
    },
    /// An option with a value, which is `default` if it is not there.
    ValueOr {
        shown: &'a str,
        default: &'a str,
    },
    /// An option with one of these names for a value.
    NameOr {
        shown: &'a str,
        names: &'a [&'a str],
        default: &'a str,
    },
    /// An option with a number of 32 bits for a value.
    NumberOr {
        shown: &'a str,
        default: &'a str,
    },
    /// No option: the word of this number, from 1, which has to be there.
    Argument {
        number: usize,
        shown: &'a str,
    },
    /// The word of this number, which may be there.
    MayArgument {
        number: usize,
        shown: &'a str,
    },
    /// The word of this number, a number of 64 bits, which has to be there.
    NumberArgument {
        number: usize,
        shown: &'a str,
    },
    /// The word of this number and those after it.
    Arguments {
        number: usize,
        shown: &'a str,
    },
}
