//! Commands and addresses of datagrams (ETG.1000.4).

ghost use Rattle.std.specs.Prelude.{◌≡◌, ◌+◌, ◌*◌, ◌^◌, ◌++◌};
ghost use Rattle.std.specs.Int.{w16, w32, to_le_bytes};

/// The command of a datagram (ETG.1000.4).
///
/// A frame stores only the code. A code that has a named variant is always read as that variant, also if it was written as `Other`.
#[derive(Clone, Copy, PartialEq, Eq)]
pub enum Command {
    /// Configured address physical read, code 4.
    Fprd,
    /// Configured address physical write, code 5.
    Fpwr,
    /// Logical read and write, code 12.
    Lrw,
    /// Any other code.
    Other(u8),
}

impl Command {
    ghost use Rattle.ecat_frame.specs.Command.{code_of};

    /// The command's code, as it stands in a datagram.
    pub fn code(self) -> u8
        ensures { result ≡ code_of self }
    {
        match self {
            Command::Fprd => 4,
            Command::Fpwr => 5,
            Command::Lrw => 12,
            Command::Other(code) => code,
        }
    }
}

/// The command with this code.
impl From<u8> for Command {
    ghost use Rattle.std.specs.Prelude.{◌≡◌};
    ghost use Rattle.ecat_frame.specs.Command.{command_of};

    ghost from_gives = { λ code command. command ≡ command_of code };

    fn from(code: u8) -> Command {
        match code {
            4 => Command::Fprd,
            5 => Command::Fpwr,
            12 => Command::Lrw,
            _ => Command::Other(code),
        }
    }
}

/// The address field of an FP command (ETG.1000.4): ADP, the station address, in the low 16 bits, and ADO, the register, in the high 16.
pub fn fp(station: u16, register: u16) -> u32
    ensures value { result ≡ station + 2 ^ 16 * register }
    ensures bytes { to_le_bytes w32 result ≡ to_le_bytes w16 station ++ to_le_bytes w16 register }
{
    u32::from(station) | u32::from(register) << 16
}
