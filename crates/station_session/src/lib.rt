//! The subcommands `run` and `recover` on files: a script is run on a line, by threads on its open files, or with a planned power cut in memory;
//! and the line is recovered.
#![tactic(auto)]

mod fused;
mod logs;
mod recovery;
mod run;

pub use fused::Fuse;
pub use logs::FilesLog;
pub use recovery::recover_line;
pub use run::{Ran, RunNames, run_script};
