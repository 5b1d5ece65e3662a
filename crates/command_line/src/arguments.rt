//! The arguments of a subcommand, as rows of a table.

use clap::builder::ValueParser;
use clap::{Arg, ArgAction, value_parser};
use std::alloc::{AllocError, Global};

/// An argument of a subcommand.
#[derive(Clone, Copy)]
pub struct Argument {
    /// The name by which its value is found. An option is spelt `--id`.
    pub id: &'static str,
    /// What is given.
    pub kind: Kind,
    /// What `-h` says of it.
    pub help: &'static str,
    /// What `--help` says of it; empty where that is the same.
    pub long_help: &'static str,
}

/// An argument as a row of a table: its name, what is given, and what `-h` says of it; then what `--help` says, where that is more.
#[macro_export]
macro_rules! argument {
    ($id:literal: $kind:ident $(($($of:expr),+))? => $help:expr) => {
        $crate::argument!($id: $kind $(($($of),+))? => $help, "")
    };
    ($id:literal: $kind:ident $(($($of:expr),+))? => $help:expr, $long_help:expr) => {
        $crate::Argument {
            id: $id,
            kind: $crate::Kind::$kind $(($($of),+))?,
            help: $help,
            long_help: $long_help,
        }
    };
}

/// What is given as an argument. An option with a value has the name of the value in the help.
#[derive(Clone, Copy)]
pub enum Kind {
    /// A word, which has to be there.
    Word,
    /// A word, which may be left out.
    OptionalWord,
    /// A word, which has to be there unless this other argument is.
    WordUnless(&'static str),
    /// One of these words, which has to be there.
    WordOf(&'static [&'static str]),
    /// An option without a value.
    Flag,
    /// An option without a value, which is spelt by this letter too.
    ShortFlag(char),
    /// An option without a value, which all subcommands have.
    GlobalFlag,
    /// An option without a value, which is taken with this other option alone.
    FlagWith(&'static str),
    /// An option with a text.
    Text(&'static str),
    /// An option with a text, which is spelt by this letter too.
    ShortText(&'static str, char),
    /// An option that the help doesn't list, without a value.
    HiddenFlag,
    /// An option that the help doesn't list, with a text.
    HiddenText(&'static str),
    /// An option with a text, which isn't taken with the second argument.
    TextWithout(&'static str, &'static str),
    /// An option with a number of 0 to 65535.
    Small(&'static str),
    /// An option with a number of 0 to 4294967295.
    Large(&'static str),
    /// An option with a text, which may be given again, is spelt by this letter too, and isn't taken with the second argument.
    Texts(&'static str, char, &'static str),
}

impl Argument {
    /// The argument as `clap` takes it.
    pub(crate) fn described<'a>(self, alloc: Global) -> Result<Arg<'a>, AllocError> {
        let arg = Arg::new(alloc, self.id)
            .help(self.help)
            .long_help(text_or(self.long_help, self.help));
        match self.kind {
            Kind::Word => Ok(arg.required(true)),
            Kind::OptionalWord => Ok(arg),
            Kind::WordUnless(other) => arg.required_unless_present(other),
            Kind::WordOf(words) => Ok(arg.required(true).value_parser(ValueParser::Names(words))),
            kind => option_of(arg.long(self.id), kind),
        }
    }
}

/// The option as one of this kind.
fn option_of<'a>(arg: Arg<'a>, kind: Kind) -> Result<Arg<'a>, AllocError> {
    match kind {
        Kind::Text(name) => Ok(arg.value_name(name)),
        Kind::HiddenText(name) => Ok(arg.value_name(name).hide(true)),
        Kind::ShortText(name, letter) => Ok(arg.value_name(name).short(letter)),
        Kind::TextWithout(name, other) => arg.value_name(name).conflicts_with(other),
        Kind::Small(name) => Ok(arg.value_name(name).value_parser(value_parser!(u16))),
        Kind::Large(name) => Ok(arg.value_name(name).value_parser(value_parser!(u32))),
        Kind::Texts(name, letter, other) => arg
            .value_name(name)
            .short(letter)
            .action(ArgAction::Append)
            .conflicts_with(other),
        _ => flag_of(arg.action(ArgAction::SetTrue), kind),
    }
}

/// The option without a value as one of this kind.
fn flag_of<'a>(flag: Arg<'a>, kind: Kind) -> Result<Arg<'a>, AllocError> {
    match kind {
        Kind::ShortFlag(letter) => Ok(flag.short(letter)),
        Kind::GlobalFlag => Ok(flag.global(true)),
        Kind::HiddenFlag => Ok(flag.hide(true)),
        Kind::FlagWith(other) => flag.requires_arg(other),
        _ => Ok(flag),
    }
}

/// The first text, or the other one where that is empty.
pub(crate) fn text_or(text: &'static str, other: &'static str) -> &'static str {
    if text.is_empty() { other } else { text }
}
