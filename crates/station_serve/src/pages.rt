//! The subcommands that print of the program itself: `explain`, `completions` and `man`.

use command_line::{Argument, ParsedArguments, Subcommand, argument, subcommand};
use station_files::{Fault, write_complete};
use station_listing::{CODES, Code, find_code};
use std::alloc::{AllocError, Global};
use std::io::Write;

/// What the manual page begins with.
pub(crate) const MANUAL_HEAD: &str = ".TH SII_STATION 1
.SH NAME
sii_station \\- reprograms the SII EEPROMs of a line of EtherCAT slaves
";

const SHELLS: &[&str] = &["bash", "zsh", "fish"];

pub(crate) const EXPLAIN: Subcommand =
    subcommand!("explain": "Says what the code of a fault or a refusal means",
    long: "Prints what the code of a fault or a refusal means, why it comes and what to do about it. Without CODE it prints \
        that of all codes.",
    after: "Example:\n  sii_station explain 15\n  sii_station explain BadCheck",
    [argument!("CODE": OptionalWord => "The number or the name of a fault or a refusal")]);

pub(crate) const COMPLETE: Subcommand =
    subcommand!("completions": "Prints a script that makes a shell complete arguments",
    long: "Prints a script for bash, zsh or fish. With it the shell completes subcommands, options and file names.",
    after: "Example:\n  source <(sii_station completions bash)",
    [argument!("SHELL": WordOf(SHELLS) => "The shell: bash, zsh or fish")]);

pub(crate) const MAN: Subcommand = subcommand!("man": "Prints the manual page",
    long: "Prints the manual page in roff: the help of each subcommand.",
    after: "Example:\n  sii_station man > sii_station.1\n  man -l sii_station.1",
    []);

/// The code that `explain` is asked for by its number or its name, if one is; or why it is refused.
pub(crate) fn code_asked(given: &ParsedArguments<'_>) -> Result<Option<Code>, &'static str> {
    let wrong = "CODE is the number or the name of a fault or a refusal";
    given
        .text("CODE")
        .map(|text| find_code(text).ok_or(wrong))
        .transpose()
}

/// What this code means, why it comes and what to do about it; or this of all codes, with empty lines between.
pub(crate) fn explanation(alloc: Global, asked: Option<Code>) -> Result<String, AllocError> {
    let mut text = String::new(alloc);
    for code in &CODES {
        if asked.is_none_or(|one| one == *code) {
            let gap = if text.is_empty() { "" } else { "\n" };
            let (number, entry) = (code.number(), code.entry());
            let (name, explained) = (entry.name, entry.explanation);
            let paragraph = format!(in alloc; "{gap}{number} {name}: {explained}\n")?;
            text.push_str(paragraph.as_str())?;
        }
    }
    Ok(text)
}

/// Prints a text that was made in memory: nothing of it where memory was refused.
pub(crate) fn print_page<W: Write>(
    page: Result<String, AllocError>,
    output: &mut W,
) -> Result<(), Fault> {
    write_complete(page?.as_bytes(), output)
}
