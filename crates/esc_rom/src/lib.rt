//! EEPROM words through the slave's registers: opening, reading and writing one slave, and reading all slaves of a line.
#![tactic(auto)]

mod driving;
mod fault;
mod issuing;
pub mod laws;
mod line_reading;
mod opening;
mod owned;
mod reading;
mod settling;

pub use fault::RomFault;
pub use issuing::issue;
pub use line_reading::read_slaves;
pub use opening::open_slave;
pub use owned::{line_sizes, owns_all};
pub use reading::read_all;
pub use settling::settle;
