//! A program as its command line is described: its texts, its options and its subcommands, as rows of a table.

use crate::arguments::{Argument, text_or};
use clap::Command;
use std::alloc::{AllocError, Global};

/// A program, mostly with subcommands.
#[derive(Clone, Copy)]
pub struct Program<'p> {
    /// Its name.
    pub name: &'static str,
    /// What it does, in one line.
    pub about: &'static str,
    /// What `--version` prints after its name.
    pub version: &'static str,
    /// What stands at the end of its help.
    pub after_help: &'static str,
    /// The options that stand before the subcommand; where there are no subcommands, all arguments.
    pub options: &'static [Argument],
    /// The subcommands, in the order of the help.
    pub subcommands: &'p [Subcommand],
}

/// The program as `clap` takes it.
pub(crate) fn described<'a>(
    alloc: Global,
    program: Program<'_>,
) -> Result<Command<'a>, AllocError> {
    let command = Command::new(alloc, program.name)
        .about(program.about)
        .version(program.version)
        .after_help(program.after_help)
        .subcommand_required(!program.subcommands.is_empty());
    let mut command = with_arguments(alloc, command, program.options)?;
    for subcommand in program.subcommands {
        command = command.subcommand(subcommand.described(alloc)?)?;
    }
    Ok(command)
}

/// The command with these arguments too.
pub(crate) fn with_arguments<'a>(
    alloc: Global,
    command: Command<'a>,
    arguments: &[Argument],
) -> Result<Command<'a>, AllocError> {
    let mut command = command;
    for argument in arguments {
        command = command.arg(argument.described(alloc)?)?;
    }
    Ok(command)
}

/// A subcommand, with its help texts and its arguments.
#[derive(Clone, Copy)]
pub struct Subcommand {
    /// Its name.
    pub name: &'static str,
    /// What it does, in one line.
    pub about: &'static str,
    /// What `--help` says of it at its head; empty where that is the same, and nothing but its arguments follows.
    pub long_about: &'static str,
    /// What stands at the end of the help.
    pub after_help: &'static str,
    /// What stands at the end of `--help`; empty where that is the same.
    pub after_long_help: &'static str,
    /// Its arguments, in the order of the help.
    pub arguments: &'static [Argument],
}

/// A subcommand as a row of a table: its name, what it does, the texts of its help, and its arguments.
#[macro_export]
macro_rules! subcommand {
    ($name:literal: $about:expr, long: $long:expr, after: $after:expr, [$($argument:expr),*]) => {
        $crate::subcommand!($name: $about, long: $long, after: $after, answers: "", [$($argument),*])
    };
    ($name:literal: $about:expr, long: $long:expr, after: $after:expr, answers: $answers:expr, [$($argument:expr),*]) => {
        $crate::Subcommand {
            name: $name,
            about: $about,
            long_about: $long,
            after_help: $after,
            after_long_help: $answers,
            arguments: &[$($argument),*],
        }
    };
}

impl Subcommand {
    /// The subcommand as `clap` takes it.
    fn described<'a>(self, alloc: Global) -> Result<Command<'a>, AllocError> {
        let mut command = Command::new(alloc, self.name).about(self.about);
        if !self.long_about.is_empty() {
            command = command
                .long_about(self.long_about)
                .after_help(self.after_help)
                .after_long_help(text_or(self.after_long_help, self.after_help));
        }
        with_arguments(alloc, command, self.arguments)
    }
}
