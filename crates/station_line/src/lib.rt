//! A line as it is read from its files: made a line in memory, opened as a station, served on one thread, and saved. The subcommand `init`.
#![tactic(auto)]

mod answered;
mod answers;
mod bad_journal;
mod commands;
mod faults;
mod init;
mod loading;
mod opening;
mod rounds;
mod session;
mod site;

pub use answered::Answered;
pub use answers::{
    Answers, fault_of_book, print_accepted, print_refused, refused_as, write_recovered,
};
pub use bad_journal::note_journal;
pub use commands::serve_commands;
pub use faults::{of_journal, of_open};
pub use init::init_line;
pub use loading::{LoadedLine, load};
pub use opening::{migrated, open_files, open_images, open_station};
pub use session::{Session, is_old, load_session};
pub use site::{save_parts, save_site, site_of};
