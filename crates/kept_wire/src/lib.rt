//! Laws of a station whose line is on a wire, on one thread and at a desk: what a power cut leaves of the journal's file and of real slaves together.
//!
//! Each function's contract is a law.
#![tactic(auto)]

mod laws;

pub use laws::{a_cut_leaves_kept_on_a_wire, a_part_is_on_a_wire, a_station_keeps_a_wire};
