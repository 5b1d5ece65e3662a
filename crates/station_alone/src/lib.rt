//! A station on one thread, over any site: commands, steps, recovery after a power cut, and migration of an old journal.
#![tactic(auto)]

mod alone;
mod choice;
mod disk;
mod fault;
pub mod laws;
mod migration;
mod opening;
mod recovery;
mod rom;
mod rounds;
mod step;
mod submit;

pub use alone::Alone;
pub use choice::{Answer, Choice};
pub use fault::OpenFault;
pub use opening::Found;
pub use recovery::{Recovered, recover};
pub use site_journal::format;
