//! EtherCAT frames and their datagrams as bytes, without allocation (ETG.1000.4).
//!
//! Contracts see a [`Frame`] as the list of its datagrams, a [`Datagram`] by its values, and a command by its code.
#![tactic(auto)]

mod bytes;
mod command;
mod copies;
mod datagram;
mod fault;
mod frame;
mod laws;
mod reading;

pub use bytes::MAX_LEN;
pub use command::{Command, fp};
pub use copies::{DatagramHeader, OnlyDatagram, copy_content, copy_of, only_short};
pub use datagram::Datagram;
pub use fault::FrameFault;
pub use frame::{Datagrams, Frame};
pub use laws::{one_reading, spelling_is_read};
