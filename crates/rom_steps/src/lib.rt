//! Word access in steps, for a program that sends the datagrams itself: opening a slave, waiting for it, reading two words, issuing a
//! word and settling it, each as a value that says which datagram is next and takes in what came back (ETG.1000.4, slave information interface).
//!
//! A step takes no memory and makes no call. [`Access`] is the same as numbers, for a program in another language.
#![tactic(auto)]

mod access;
mod back;
pub mod calls;
mod datagram;
pub mod laws;
mod limits;
mod opening;
mod reading;
mod registers;
mod settling;
mod step;
mod taking;
mod waiting;

pub use access::Access;
pub use back::{Back, Rested, WordPair};
pub use datagram::{ToSend, next_of};
pub use limits::{POLLS, TRIES};
pub use registers::{ACCESS, CONTENT, CONTROL, write_content};
pub use step::{
    End, Step, Stop, begin_issue, begin_opening, begin_reading, begin_settling, begin_waiting,
};
pub use taking::{stop, take};
