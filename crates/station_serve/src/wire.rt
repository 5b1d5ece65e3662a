//! The subcommands on a wire: their command line, and a task for each, over any wire, files and streams.

mod arguments;
mod backups;
mod capture;
mod changing;
mod one_slave;
mod rows;
mod serving;

pub use arguments::{Arguments, read_arguments};
pub use backups::back_up_to;
pub(crate) use rows::ANY_DEVICE;
pub use serving::{Connection, OwnWire, refuse_text, serve_on_wire};
