//! Laws of a station whose line stands on files, on one thread and at a desk: what a power cut leaves in them, and what a complete recovery does.
//!
//! Each function's contract is a law, and its body does nothing.
#![tactic(auto)]

mod desk;
mod laws;

pub use desk::{
    a_cut_at_a_desk_is_kept, a_cut_leaves_kept_parts, a_cut_of_the_journal,
    a_cut_of_the_slave_images, a_part_has_its_file,
};
pub use laws::{
    a_cut_leaves_kept_files, a_recovery_leaves_the_contents, a_site_has_files,
    a_site_keeps_its_files, a_station_keeps_its_files,
};
