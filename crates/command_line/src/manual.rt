//! A manual page, made of the help of each subcommand.

use crate::completions::{push_all, replaced};
use crate::program::Program;
use crate::reading::read_words;
use clap::error::ErrorKind;
use std::alloc::{AllocError, Global};

/// The manual page in roff: this head, then the program's help, and that of each subcommand, as `--help` prints them.
pub fn manual_page(alloc: Global, program: Program<'_>, head: &str) -> Result<String, AllocError> {
    let mut text = String::from_str(alloc, head)?;
    push_section(alloc, program, "", &[program.name, "--help"], &mut text)?;
    for subcommand in program.subcommands {
        let name = subcommand.name;
        push_section(
            alloc,
            program,
            name,
            &[program.name, name, "--help"],
            &mut text,
        )?;
    }
    Ok(text)
}

/// Adds the section of a subcommand, or with no name that of the program: what these words print, a backslash before each `-` and `\`, and nothing is
/// taken for a request.
fn push_section(
    alloc: Global,
    program: Program<'_>,
    name: &'static str,
    words: &[&str],
    text: &mut String,
) -> Result<(), AllocError> {
    push_all(text, &[".SH \"", program.name, " ", name, "\"\n.nf\n"])?;
    if let Err(asked) = read_words(alloc, program, words) {
        if asked.kind() == ErrorKind::OutOfMemory {
            return Err(AllocError);
        }
        let help = format!(in alloc; "{asked}")?;
        let help = replaced(alloc, help.as_str(), &[("\\", "\\e"), ("-", "\\-")])?;
        for line in help.as_str().lines() {
            push_all(text, &["\\&", line, "\n"])?;
        }
    }
    text.push_str(".fi\n")
}
