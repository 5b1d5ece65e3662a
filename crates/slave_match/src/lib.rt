//! Whether a slave is the one that its image file was written of: which words differ, outside of those that a recovery writes, and what that
//! usually is.
#![tactic(auto)]

mod comparing;
mod reason;
mod redoing;

pub use comparing::{Difference, difference_between};
pub use reason::{Reason, is_same_type, reason_of};
pub use redoing::redo_batches;
