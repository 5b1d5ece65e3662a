//! Calls on EEPROM images as bytes, whose answers are code numbers: what a program in another language can call.
#![tactic(auto)]

mod alias;
mod category;
mod codes;
mod content;
mod editing;
mod head;
mod line;
mod validating;

pub use alias::set_alias;
pub use category::{CategoryPlace, find_category};
pub use content::{EntryRow, PdoRow, SyncManager, read_entry, read_manager, read_pdo, read_string};
pub use editing::{edit_category, edit_image};
pub use head::{Head, read_head};
pub use line::{ImageSizes, PlacedSegment, place_line};
pub use validating::validate_image;
