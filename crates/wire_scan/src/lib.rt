//! A line on a wire is found, read and validated: its slaves are listed or backed up, or handed to the work on them.
#![tactic(auto)]

mod asked;
mod backup;
mod journals;
mod keeping;
mod naming;
mod opening;
mod pending;
mod plan;
mod scan;
mod validating;

pub use asked::{Mend, Mends, ScanOptions, Tells};
pub use backup::{backup_line, save_backup, validate_measures};
pub use journals::require_empty;
pub use keeping::sizes_of_images;
pub use naming::{CaptureNames, Named, keep_capture_separate, keep_script_separate};
pub use opening::{FoundWire, find_line, open_line};
pub use pending::{PendingOrder, list_pending};
pub use scan::{scan_files, scan_line};
pub use validating::{
    copies_of, validate_commands, validate_image, validate_images, validate_slaves, validate_states,
};
