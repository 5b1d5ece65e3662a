//! The journal's bytes: the batches that are live in a file, and the bytes of a batch; and the laws of what is live as batches are
//! appended, retired and migrated. A law is a function with an empty body: its contract is the theorem.
#![tactic(auto)]

mod area;
pub mod batch_sizes;
mod fault;
mod fields;
pub mod file;
mod halves;
mod journal;
pub mod laws;
pub mod live_halves;
pub mod migration;
pub mod opening;
mod reading;
mod scanning;
mod writing;

pub use fault::JournalFault;
pub use fields::{
    AREA_START, OPEN, capacity, gate, generation, header, payload_length, slave_count, version,
};
pub use journal::{Batch, BatchList, Entry, EntryList, Form, Journal, RunList, Spelling};
pub use scanning::scan;
pub use writing::{CLOSED, encode_batch, size_of};
