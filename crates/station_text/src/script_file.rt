//! Reads the script file, which has the commands for a line.
ghost use Rattle.std.specs.Prelude.{◌≡◌, map};
ghost use Rattle.std.specs.List.{AllZip};
ghost use Rattle.toml.specs.View.{view, table_view};
ghost use Rattle.station_text.specs.Reading.{Reads};
ghost use Rattle.station_text.specs.ScriptText.{SpellsCommand, SpellsScript, SpellsScriptFile};

use crate::document::{find_values, has_only, read_document};
use crate::fault::{ValueFault, needed};
use crate::flaws::{TextTrouble, trouble_of};
use crate::script_command::{ScriptCommand, read_command};
use std::alloc::Global;
use thiserror::Error;
use toml::{Table, Value};

/// Why a text gives no script.
#[derive(Debug, Drop, Error)]
pub enum ScriptFault {
    /// Memory was refused.
    #[error("out of memory")]
    Memory,
    /// The text is not a script.
    #[error("the text is no script: command {command} is bad")]
    BadScript {
        /// The place of the first bad command, from 0, and 0 where the text as a whole is bad.
        command: usize,
        /// What is wrong there, unless memory was refused for that.
        trouble: Option<TextTrouble>,
    },
}

/// Reads a script in TOML: an array of tables `command`, each with one key, `alias`, `swap`, `category`, `image` or `group`. The image files
/// that it names are not read.
///
/// # Errors
///
/// `BadScript` with 0 where the text is not TOML, or has other keys than `command`, or no array there; then `BadScript` with the place of the
/// first bad command. `Memory` may come at any point.
pub fn read_script(alloc: Global, text: &str) -> Result<Vec<ScriptCommand>, ScriptFault>
    ensures { Reads ScriptFault.Memory (λ commands. commands.items) (SpellsScriptFile text.now) result }
{
    match script_in(alloc, text) {
        Ok(commands) => Ok(commands),
        Err(ValueFault::Memory) => Err(ScriptFault::Memory),
        Err(ValueFault::Malformed) => Err(bad_script(alloc, text, 0)),
        Err(ValueFault::BadCommand(place)) => Err(bad_script(alloc, text, place)),
    }
}

/// The fault for a text that is no script, whose first bad command has this place, from 0.
fn bad_script(alloc: Global, text: &str, command: usize) -> ScriptFault {
    let trouble = trouble_of(alloc, text, Some(command)).ok();
    ScriptFault::BadScript { command, trouble }
}

/// The commands of a script. What is wrong in it isn't reported.
fn script_in(alloc: Global, text: &str) -> Result<Vec<ScriptCommand>, ValueFault>
    ensures { Reads ValueFault.Memory (λ commands. commands.items) (SpellsScriptFile text.now) result }
{
    let table = read_document(alloc, text)?;
    commands_of(alloc, &table)
}

fn commands_of(alloc: Global, table: &Table) -> Result<Vec<ScriptCommand>, ValueFault>
    ensures { Reads ValueFault.Memory (λ commands. commands.items) (SpellsScript (table_view table.now)) result }
{
    if !has_only(table, &["command"]) {
        return Err(ValueFault::Malformed);
    }
    read_commands(alloc, needed!(find_values(table, "command")))
}

fn read_commands(alloc: Global, values: &[Value]) -> Result<Vec<ScriptCommand>, ValueFault>
    ensures { Reads ValueFault.Memory (λ commands. commands.items) (AllZip SpellsCommand (map view values.now)) result }
{
    let mut commands = Vec::with_capacity(alloc, values.len())?;
    for value in values {
        let place = commands.len();
        commands.push(command_at(alloc, place, value)?)?;
    }
    Ok(commands)
}

/// Reads the command at position `place` of the script, from 0.
fn command_at(alloc: Global, place: usize, value: &Value) -> Result<ScriptCommand, ValueFault>
    ensures { Reads ValueFault.Memory (λ command. command) (SpellsCommand (view value.now)) result }
{
    match read_command(alloc, value) {
        Err(ValueFault::Malformed) => Err(ValueFault::BadCommand(place)),
        read => read,
    }
}
