//! Serves the commands of a script by threads: takes a line apart, has a desk serve the parts while the commands are submitted there, and
//! puts the line together again.
#![tactic(auto)]

mod after;
mod asked;
mod closing;
mod events;
mod issues;
mod logs;
mod recovering;
mod running;
mod saving;
mod separate;
mod soundness;
mod submitter;
mod submitting;
mod threads;
mod together;
mod work;

pub use closing::Ending;
pub use logs::{DeskLog, LineLog, PartLog, RunLog, UnservedLog};
pub use recovering::recover_by_threads;
pub use running::{LineRun, Start, run_line};
pub use threads::{Left, NotServed, serve_task};
pub use work::{Task, Work};
