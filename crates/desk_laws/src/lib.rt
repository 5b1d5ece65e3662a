//! The laws of a desk: its calls are events of the main law, and what a power cut leaves of its disk and slaves together. A law is a
//! function with an empty body: its contract is the theorem.
#![tactic(auto)]

mod laws;
mod together;

pub use laws::{
    a_lost_disk_changes_nothing, answered_calls_can_happen, desk_calls_are_events,
    resting_appends_next, served_slaves_read_as_the_contents, turns_have_their_images,
    turns_never_fall,
};
pub use together::what_a_desk_leaves_is_kept;
