//! The faults of work on a wire: their codes, what is reported of each, and the exit status.
#![tactic(auto)]

mod faults;
mod telling;

pub use faults::{WireFault, why_ended};
