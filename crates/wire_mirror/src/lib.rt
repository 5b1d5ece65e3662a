//! The image files of the slaves on a wire follow what the slaves show: a word stands in its slave's file once the slave has shown it, and is
//! synced there before the journal is written again.
#![tactic(auto)]

mod images;
mod journal_file;
mod mirrored;

pub use images::{ImageCall, Images};
pub use journal_file::JournalFile;
pub use mirrored::Mirrored;
