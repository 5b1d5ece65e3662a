//! Reading the EEPROMs of a line's slaves, before there is a shadow to compare with: by frames of one datagram, or of all slaves side by side.
#![tactic(auto)]

mod ahead;
mod in_step;
mod reader;
mod reading;
mod sizing;
mod telling;

pub use ahead::{Ahead, Retained, nothing_ahead, words_at};
pub use in_step::{Readers, read_in_step};
pub use reader::Reader;
pub use reading::Read;
pub use sizing::{Extent, Measured, SizeFound, measure, validate_size};
pub use telling::{Hitch, put, tell};
