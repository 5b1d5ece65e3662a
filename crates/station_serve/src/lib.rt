//! The program as a library: its command line, and its subcommands over any files and streams; and both on a wire (`wire`).
#![tactic(auto)]

mod arguments;
mod ending;
mod images;
mod line_work;
mod pages;
mod request;
mod serving;
pub mod wire;

pub use command_line::{refuse_words, report_unread};
pub use serving::{Host, Streams, serve};
pub use station_files::{LockFault, Store};
