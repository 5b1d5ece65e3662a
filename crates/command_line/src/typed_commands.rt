//! Commands that are typed in place of a script file.
ghost use Rattle.std.specs.Prelude.{◌≡◌, IfOk};
ghost use Rattle.command_line.specs.Typed.{is_one_line, script_of};

use crate::argument;
use crate::arguments::Argument;
use crate::given::ParsedArguments;
use crate::input_script::{Script, TYPED};
use crate::program::Program;
use crate::reading::refuse;
use clap::Error;
use std::alloc::{AllocError, Global};

/// The help text on typed commands.
const COMMANDS: &str =
    "A command in place of the script file: the line that stands below [[command]] there,
such as 'alias = { slave = 2, value = 7 }' or 'swap = [0, 1]'. Each -e is one command;
they are submitted in order.";

/// The option with typed commands. It stands in place of the argument `SCRIPT`.
pub const TYPED_COMMANDS: Argument =
    argument!("command": Texts("COMMAND", 'e', "SCRIPT") => "A command in place of the script file, as 'alias = { slave = 2, value = 7 }'", COMMANDS);

/// The script whose commands are typed in these words, if any are.
///
/// # Errors
///
/// A command isn't one line of TOML on its own; or memory was refused.
pub fn read_typed(
    alloc: Global,
    program: Program<'_>,
    given: &ParsedArguments<'_>,
) -> Result<Option<Script>, Error> {
    let Some((_, found)) = given.matches.subcommand() else {
        return Ok(None);
    };
    let Some(commands) = found.get_strs("command") else {
        return Ok(None);
    };
    for command in commands {
        if let Some(flaw) = flaw_of(alloc, command)? {
            return Err(refuse(alloc, program, given.subcommand, flaw.as_str()));
        }
    }
    let (name, text) = (TYPED, Ok(typed_script(alloc, commands)?));
    Ok(Some(Script { name, text }))
}

/// What is wrong with a typed command that isn't one line of TOML on its own.
fn flaw_of(alloc: Global, line: &str) -> Result<Option<String>, AllocError> {
    if !is_line(line) {
        let flaw = "a command of -e is one line, as in a script below [[command]]";
        return Ok(Some(String::from_str(alloc, flaw)?));
    }
    match toml::table_from_str(alloc, line) {
        Ok(table) => {
            drop(table);
            Ok(None)
        }
        Err(error) if error.is_memory() => Err(AllocError),
        Err(error) => {
            let why = error.message();
            Ok(Some(format!(in alloc; "-e '{line}' is no TOML: {why}")?))
        }
    }
}

/// The line that begins a command of a script file.
const HEAD: &str = "[[command]]\n";

/// Returns whether a typed command is one line, so that it can't be more than one command of a script.
fn is_line(command: &str) -> bool
    ensures line { result ≡ is_one_line command.now }
{
    let bytes = command.as_bytes();
    !bytes.contains(&b'\n') && !bytes.contains(&b'\r')
}

/// Returns the text of a script file with these commands, in order: each one is the line after a `[[command]]`.
fn typed_script(alloc: Global, commands: &[&str]) -> Result<Vec<u8>, AllocError>
    ensures text { IfOk result (λ text. text.items ≡ script_of (λ command. command.now) commands.now) }
{
    let bodies = commands.join(alloc, "\n[[command]]\n")?;
    let mut text = Vec::new(alloc);
    text.extend_from_slice(HEAD.as_bytes())?;
    text.extend_from_slice(bodies.as_bytes())?;
    text.push(b'\n')?;
    Ok(text)
}
