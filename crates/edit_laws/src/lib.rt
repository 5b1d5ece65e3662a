//! The laws of commands: what an edit changes, and what commands keep. A law is a function with an empty body: its contract is the theorem.
#![tactic(auto)]

pub mod changes;
pub mod fitting;
