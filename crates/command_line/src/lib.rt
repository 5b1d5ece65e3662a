//! What a command line gives: a program's subcommands and their arguments, as rows of a table; the words that were typed, by the names of the
//! arguments; what makes a shell complete them, and the manual page, of the same rows; and a script that is no file of a store, since it comes
//! on standard input or its commands are typed.
#![tactic(auto)]

mod arguments;
mod completions;
mod escaped;
mod given;
mod input_script;
mod launched;
mod manual;
mod program;
mod reading;
mod typed_commands;
mod unread;

pub use arguments::{Argument, Kind};
/// Why a command line wasn't read.
pub use clap::Error as Unread;
pub use completions::{Shell, completion_script};
pub use escaped::Escaped;
pub use given::{ParsedArguments, number_in, small_in};
pub use input_script::{INPUT, InputScript, Script, TYPED};
pub use launched::{TEXT, TIMEOUT, WIRE};
pub use manual::manual_page;
pub use program::{Program, Subcommand};
pub use reading::{read_words, refuse};
pub use typed_commands::{TYPED_COMMANDS, read_typed};
pub use unread::{refuse_words, report_unread};
