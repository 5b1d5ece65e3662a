//! Commands and registers of slaves that stations for practice know (ETG.1000.4).

pub(crate) const APRD: u8 = 1;

pub(crate) const APWR: u8 = 2;

pub(crate) const FPRD: u8 = 4;

pub(crate) const FPWR: u8 = 5;

pub(crate) const BRD: u8 = 7;

pub(crate) const BWR: u8 = 8;

/// The configured station address, two bytes.
pub(crate) const STATION: usize = 0x0010;

/// The alias, two bytes, as it was when the power came.
pub(crate) const ALIAS: usize = 0x0012;

/// The byte whose bit 0 turns on alias addressing.
pub(crate) const ALIASING: usize = 0x0103;

/// The AL state.
pub(crate) const STATE: usize = 0x0130;

/// The first register of the EEPROM, of sixteen.
pub(crate) const EEPROM: usize = 0x0500;

/// Control and status of the EEPROM.
pub(crate) const CONTROL: usize = 0x0502;

/// The end of the registers.
pub(crate) const END: usize = 0x1000;

/// What the first nine registers show: type, revision and build, FMMUs, sync managers, RAM in KiB, ports, and the low byte of the features.
pub(crate) const KIND: [u8; 9] = [0x11, 0x00, 0x02, 0x00, 0x08, 0x08, 0x08, 0x0f, 0xfc];
