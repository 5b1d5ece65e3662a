//! The options of a program whose standard input and output are a wire, as its launcher gives them.

use crate::argument;
use crate::arguments::Argument;

/// The launcher calls the program.
pub const WIRE: Argument =
    argument!("wire": HiddenFlag => "Standard input and output are the wire, as the launcher has opened it");

/// The file for the text.
pub const TEXT: Argument =
    argument!("text": HiddenText("FILE") => "The file that text is added to; it has to be there");

/// The time-out of a frame.
pub const TIMEOUT: Argument =
    argument!("timeout": Small("MS") => "After how many milliseconds a frame counts as lost, from its sending on");
