//! The slaves of a line that was brought up on a wire, and a journal's file, as the device behind the shadow: it sends each frame and compares
//! its answer. `laws` says what a power cut leaves of a slave that follows its half.
#![tactic(auto)]

mod amending;
mod answers;
mod device;
mod faults;
mod fitting;
mod joining;
mod laws;
mod order;
mod ordering;
mod parts;
mod reach;
mod sending;

pub use device::{WireDevice, WireLog, WireSite};
pub use faults::{Difference, LeftAs, LineSeen, OpenWord, StopReason};
pub use laws::{
    brought_up_follows, defined_slave_serves, journal_follows, leave_no_more,
    moments_leave_no_more, slaves_follow,
};
pub use order::Order;
pub use parts::TellsPart;
pub use reach::{LiveLine, LockedLine, Reach, SharedLine};
pub use sending::Exchange;
