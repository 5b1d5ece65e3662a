//! The main law: what a station keeps as its callers, its disk and its slaves act concurrently, with power cuts anywhere.
//!
//! Each function's contract is a law, and its body does nothing.
#![tactic(auto)]

mod laws;

pub use laws::{a_formatted_line_starts, law};
