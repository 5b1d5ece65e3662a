//! The cyclic process data of a line of slaves (ETG.1000.4): configuring their FMMUs and sync managers for a process image, and
//! exchanging outputs and inputs with all slaves by one frame.
//!
//! No call here takes memory.
#![tactic(auto)]

mod comparison;
mod configuration;
mod exchange;
mod fault;
pub mod laws;
mod process_data;
mod registers;

pub use configuration::{configure, reconfigure};
pub use fault::CycleFault;
pub use process_data::turn;
