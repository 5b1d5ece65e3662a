//! What changes: on a line by commands, in a run or a recovery; and from one EEPROM image to another, as `diff` prints it.
#![tactic(auto)]

mod categories;
mod changes;
mod checks;
mod commands;
mod diff;
mod difference;
mod head;
mod layout;
mod report;
mod words;

pub use changes::{ChangedWord, MOST_PRINTED, changed_words, put_changes};
pub use checks::check_of;
pub use commands::{Resize, resizes};
pub use diff::{Compared, diff_images};
pub use layout::{print_image, put_images};
pub use report::{Before, REPORT, Report, changes_since, look_before, print_report, report_after};
