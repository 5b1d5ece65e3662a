//! One datagram.

ghost use Rattle.std.specs.Prelude.{◌≡◌};
ghost use Rattle.ecat_frame.specs.Command.{code_of, command_of};

use crate::command::Command;

/// A datagram of a frame (ETG.1000.4).
#[derive(Clone, Copy)]
pub struct Datagram<'a> {
    /// What the slaves are to do.
    pub command: Command,
    /// A number of the sender's choice, which slaves don't change.
    pub index: u8,
    /// A logical address, or ADP in the low 16 bits and ADO in the high 16.
    pub address: u32,
    /// The data, in a frame up to 1,486 bytes.
    pub content: &'a [u8],
    /// The working counter: the sum of what the slaves added.
    pub counter: u16,
    // `Other` never holds the code of a named variant.
    pub ghost named: { command_of (code_of command) ≡ command },
}
