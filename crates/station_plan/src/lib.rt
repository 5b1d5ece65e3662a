//! The subcommands `plan` and `journal`: what a run or a recovery would do to a line. They work on a copy of the line in memory, and no file
//! is written.
#![tactic(auto)]

mod contents;
mod journal;
mod journal_rows;
mod plan;
mod plan_rows;
mod tally;

pub use journal::show_journal;
pub use plan::{PlanAnswers, plan_line, plan_script};
