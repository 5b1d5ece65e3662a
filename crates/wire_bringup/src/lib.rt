//! Bringing up a line of slaves on a wire: counting them, their station addresses and states, and the words of their EEPROMs; and handing the
//! EEPROMs back.
#![tactic(auto)]

mod addresses;
mod bringing_up;
mod found;
mod handing_back;
mod looking;

pub use bringing_up::bring_up;
pub use found::{FoundLine, FoundSlave, Sizes, SlaveState};
pub use handing_back::hand_back;
pub use looking::{LineStates, look_along};
