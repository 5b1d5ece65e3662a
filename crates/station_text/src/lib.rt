//! Reads the texts of the program into values: hexadecimal text, the line file and the script file. Each has its own fault type. That of a line
//! file or a script says what is wrong in the text, and where.
#![tactic(auto)]

mod document;
mod fault;
mod flaws;
mod forms;
mod hexadecimal;
mod line_file;
mod places;
mod script_command;
mod script_file;
mod validating;

pub use flaws::TextTrouble;
pub use hexadecimal::{HexFault, hex_lines, read_hex};
pub use line_file::{LineFault, LineFile, read_line};
pub use places::line_at;
pub use script_command::{ScriptCommand, ScriptEdit, ScriptGroupEdit};
pub use script_file::{ScriptFault, read_script};
