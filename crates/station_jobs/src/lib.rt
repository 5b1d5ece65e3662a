//! The jobs of the disk thread, of a slave's thread and of the cyclic thread: the loops that do them, the records of them, and their outcomes.
#![tactic(auto)]

mod cycle;
mod cycle_notes;
mod cycling;
mod dispatch;
mod end;
mod flushing;
mod hook;
pub mod laws;
mod log;
mod matching;
mod notes;
mod working;

pub use cycle::{CycleJob, CycleNote, CycleOutcome};
pub use cycle_notes::{CycleLog, CycleNotes};
pub use cycling::{cycle_loop, zero_bytes};
pub use dispatch::{Dispatch, Turn};
pub use end::{End, Leads};
pub use flushing::flush;
pub use hook::{Hook, NoHook};
pub use log::{Assignment, DiskLog, Log, RomLog, SlaveLog};
pub use matching::{DiskEntry, RomEntry, are_same_actions, are_same_calls};
pub use notes::Notes;
pub use working::work;
