//! The book of commands as definitions, call by call, and the queue of words that remain to be written to one slave.
//!
//! The public modules are its laws: what its calls, its disk, a migration and its slaves keep, that whatever a power cut leaves of them leads
//! to the contents after a prefix of the commands, and how often words are written. A law is a function with an empty body: its contract is
//! the theorem.
#![tactic(auto)]

pub mod asking;
pub mod calls;
pub mod disk;
pub mod disk_actions;
pub mod disk_keeping;
mod down;
mod due;
pub mod entries;
mod fault;
pub mod leading;
mod next;
pub mod old_actions;
pub mod old_keeping;
pub mod old_opening;
pub mod opening;
mod queue;
mod refusal;
pub mod rom;
pub mod settling;
pub mod slaves;
mod status;
pub mod steps;
pub mod up;
pub mod wear;

pub use fault::{CoreFault, Fault};
pub use next::{DiskNext, RomNext, RomOutcome};
pub use queue::SlaveQueue;
pub use refusal::{QUEUE, SubmitRefusal};
pub use status::Status;
