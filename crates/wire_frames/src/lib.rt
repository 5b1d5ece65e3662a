//! EtherCAT frames over a wire: each has a number of its own, and is sent until it comes back. Datagrams to slaves, and their replies.
#![tactic(auto)]

mod asking;
mod ethernet;
mod faults;
mod handed;
mod numbered;
mod pace;
mod registers;
mod room;
mod stations;
mod timed;
mod wire;

pub use asking::{KEPT, Last, Reply, ask, count_answers, read_station, reply_at, sight};
pub use ethernet::EthernetWire;
pub use faults::{LineFault, Sighting, SlaveFault, SlaveTrouble};
pub use handed::Handed;
pub use numbered::{Carried, NumberedWire, Returned, number_of};
pub use pace::{ATTEMPTS, Pace, UNCOUNTED};
pub use registers::{AL_STATUS, APRD, APWR, BRD, BWR, DL_ALIAS, FPRD, FPWR, STATION, register_of};
pub use room::{FRAME_BYTES, Room};
pub use stations::Stations;
pub use timed::TimedWire;
pub use wire::Wire;
