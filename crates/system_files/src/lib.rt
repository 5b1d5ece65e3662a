//! The files of the operating system as a store: read and replaced as a whole, opened, locked and synced. Standard streams that are closed, and
//! where text goes in place of one that is a wire.
#![tactic(auto)]

mod file_store;
mod replacing;
mod streams;

pub use file_store::{FileStore, SystemFile};
pub use streams::{hold_streams, open_text};
