//! The world of the main law as a program: a station, its disk and its line in memory, and what happens to them, one event at a time.
#![tactic(auto)]

mod disk;
mod half;
mod happenings;
pub mod laws;
mod leaving;
mod line;
mod making;
mod station;
mod stepping;

pub use half::WordEnd;
pub use happenings::{DiskEnd, Event, Left};
pub use leaving::{LeftByte, LeftWord};
pub use making::World;
pub use stepping::step;
