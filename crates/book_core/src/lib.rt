//! The book as running code: it accepts commands, and decides what is appended to the journal, written to the slaves and retired.
//! It calls no device: its caller carries out each action that it hands out, and reports the outcome.
#![tactic(auto)]

mod book;
mod disk;
mod done;
mod open;
mod plan;
mod reading;
mod rom;
mod step;
mod submit;
mod taking;

pub use book::Core;
