//! Reads the files of a line and of a script into values and writes them back, notes and prints faults, and does the
//! subcommands `alias` and `write`.
#![tactic(auto)]

mod devices;
mod failures;
mod faults;
mod image;
mod line;
mod location;
mod notes;
mod same_files;
mod script;
mod store;
mod streams;

pub use devices::{DeviceDiffers, validate_device, write_slave};
pub use failures::Failures;
pub use faults::{ExitStatus, Failure, Fault, Refused, worse};
pub use image::{read_image, set_alias};
pub use line::{load_line, load_plant, load_slave, load_slaves};
pub use location::{FileId, Location, name_beside};
pub use notes::{Place, Wrong};
pub use same_files::{
    FileNames, STANDARD_INPUT, keep_line_separate, keep_output_separate, keep_separate,
};
pub use script::{Script, load_script};
pub use store::{
    Entry, LockFault, MOST_OF_JOURNAL, MOST_OF_TEXT, Store, prepare_files, read_file,
    read_image_file, write_files,
};
pub use streams::{read_about, read_to_end, report_fault, write_complete};
