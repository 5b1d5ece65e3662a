//! A line of slaves to practise on: what controllers and chips do that the definition of a slave doesn't have, as plain values; their words
//! in memory or in files; and a wire in memory, on which frames have mishaps.
#![tactic(auto)]

mod chip;
mod clock;
mod codes;
mod eeprom;
mod files;
mod line;
mod power;
mod quirks;
mod slave;
mod wire;

pub use clock::PracticeClock;
pub use files::PracticeFiles;
pub use line::PracticeLine;
pub use quirks::{Cable, NO_QUIRKS, PowerLoss, Quirks};
pub use slave::PracticeSlave;
pub use wire::{Fate, Mishap, PracticeWire};
