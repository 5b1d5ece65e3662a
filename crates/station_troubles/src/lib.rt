//! What a fault was about: keeps what is noted of the files beside the faults, and tells what belongs to a fault.
#![tactic(auto)]

mod noting;
mod telling;

pub use noting::Noting;
pub use telling::{CAPTURE_OR_OUTPUT, INPUT_OR_OUTPUT, OUTPUT, Reported, tell_more};
