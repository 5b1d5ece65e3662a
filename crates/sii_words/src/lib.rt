//! The words of a slave's EEPROM: word lists, check byte, identity, the contents of a whole line, runs of changed words, and redo. Below them
//! two lists that all crates use: one that contracts compare item by item, and one that exists in contracts alone.
#![tactic(auto)]

mod check_byte;
mod fault;
mod history;
mod identity;
mod image_file;
mod item_list;
pub mod laws;
mod layout;
mod plant;
mod redoing;
mod run;
mod size;
mod stretches;
mod words;

pub use fault::WordsFault;
pub use history::History;
pub use identity::Identity;
pub use image_file::ImageFile;
pub use item_list::ItemList;
pub use layout::{bytes_of_words, words_of_bytes};
pub use plant::{MAX_SLAVES, Plant};
pub use redoing::redo;
pub use run::Run;
pub use size::{MAX_WORDS, MIN_WORDS, is_device_size, is_image_size};
pub use stretches::{push_stretches, push_word};
pub use words::Words;

/// A list of 16-bit words. Contracts compare its words alone.
pub type WordList = ItemList<u16>;
