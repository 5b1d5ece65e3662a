//! A datagram for the EEPROM of a slave.
ghost use Rattle.std.specs.Prelude.{◌/◌, ◌^◌};
ghost use Rattle.wire_frames.specs.Sending.{InEeprom};

/// The registers of an EEPROM: a datagram for them has so many bytes at most.
pub(crate) const LONGEST: usize = 16;

/// A datagram that reads or writes registers of the EEPROM of a slave by its station address, before any slave has counted it.
#[derive(Clone, Copy)]
pub struct Order {
    /// Whether it writes registers. Otherwise it reads them.
    pub(crate) is_write: bool,
    pub(crate) index: u8,
    pub(crate) address: u32,
    /// How many bytes of the content it has.
    pub(crate) length: usize,
    pub(crate) content: [u8; LONGEST],
    ghost inside: { InEeprom (address / 2 ^ 16) length },
}
