//! A model of an EtherCAT slave, as its slave controller appears on the line (ETG.1000.4): the EEPROM half, which serves the EEPROM
//! by registers, and the process half, which holds process data behind FMMUs.
#![tactic(auto)]

mod bytes;
mod eeprom_registers;
mod fmmu;
pub mod laws;
mod process_half;
mod rest;
mod rom_half;
mod station;
mod work;

pub use process_half::ProcessHalf;
pub use rest::{Rest, WordWrite};
pub use rom_half::RomHalf;
pub use station::{FIRST_STATION, station_address};
