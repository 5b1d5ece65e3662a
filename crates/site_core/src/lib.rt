//! The interface to a line of slaves and a disk: its device calls, and what a power cut may leave at each point of time.
#![tactic(auto)]

mod answers;
mod fault;
pub mod laws;
mod site;

pub use answers::{Issued, Settled};
pub use fault::DeviceFault;
pub use site::Site;
