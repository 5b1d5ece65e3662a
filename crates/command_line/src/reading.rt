//! Reads the words of a command line.

use crate::given::ParsedArguments;
use crate::program::{Program, described, with_arguments};
use clap::error::ErrorKind;
use clap::{Command, Error};
use std::alloc::{AllocError, Global};
use std::convert::AsStr;

/// Reads a command line of this program. The first word is the program's name.
///
/// # Errors
///
/// What is wrong with the words; or the text of the help or the version, where that is asked for; or memory was refused.
pub fn read_words<'a, S: AsStr>(
    alloc: Global,
    program: Program<'_>,
    words: &'a [S],
) -> Result<ParsedArguments<'a>, Error> {
    let matches = described(alloc, program)?.try_get_matches_from(words)?;
    Ok(ParsedArguments::of(matches))
}

/// Refuses words that were read: this text, and the usage of the subcommand of this name, or of the program where it has none.
pub fn refuse(alloc: Global, program: Program<'_>, subcommand: &str, text: &str) -> Error {
    refusal(alloc, program, subcommand, text).unwrap_or_else(Error::from)
}

fn refusal(
    alloc: Global,
    program: Program<'_>,
    subcommand: &str,
    text: &str,
) -> Result<Error, AllocError> {
    let called = program.name;
    let name = format!(in alloc; "{called} {subcommand}")?;
    let mut rows = program.subcommands.iter();
    let mut command = match rows.find(|row| row.name == subcommand) {
        Some(row) => with_arguments(alloc, Command::new(alloc, name.as_str()), row.arguments)?,
        None => described(alloc, program)?,
    };
    let refused = command.error(ErrorKind::ValueValidation, text);
    drop(command);
    refused
}
