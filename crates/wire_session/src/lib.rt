//! The work on a line on a wire: a journal is made for it, a script is run or planned on it, and it is recovered.
#![tactic(auto)]

mod as_found;
mod expecting;
mod followed;
mod init;
mod logs;
mod mending;
mod planning;
mod recovery;
mod reporting;
mod running;

pub use init::{begin_journal, init_on_wire};
pub use logs::Worked;
pub use mending::mend_line;
pub use planning::plan_on_wire;
pub use recovery::recover_line;
pub use running::{RunOrder, run_script};
