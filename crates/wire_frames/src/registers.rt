//! Commands and registers of slaves (ETG.1000.4).
ghost use Rattle.std.specs.Prelude.{◌≡◌, ◌<◌, ◌/◌};

use ecat_frame::Command;

/// Auto increment physical read, code 1.
pub const APRD: Command = Command::Other(1);

/// Auto increment physical write, code 2.
pub const APWR: Command = Command::Other(2);

/// Broadcast read, code 7.
pub const BRD: Command = Command::Other(7);

/// Broadcast write, code 8.
pub const BWR: Command = Command::Other(8);

/// The code of FPRD, configured address physical read.
pub const FPRD: u8 = 4;

/// The code of FPWR, configured address physical write.
pub const FPWR: u8 = 5;

/// The configured station address.
pub const STATION: u16 = 0x0010;

/// The high byte of DL control. In bit 0 a slave answers to its station alias too.
pub const DL_ALIAS: u16 = 0x0103;

/// AL status: bits 0 to 3 are the state.
pub const AL_STATUS: u16 = 0x0130;

/// The register of an FP command: the upper 16 bits of its address.
pub fn register_of(address: u32) -> usize
    ensures register { result ≡ address / 65536 }
    ensures small { result < 65536 }
{
    (address / 65536) as usize
}
