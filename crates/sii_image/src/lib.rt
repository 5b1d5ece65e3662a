//! The process image of a line of EtherCAT slaves, as the categories of their EEPROMs describe it (ETG.1000.6, ETG.2010).
#![tactic(auto)]

mod fault;
mod layout;
mod limits;
mod new_layouts;
mod placement;
mod plan;
mod process_data;
mod process_image;
mod rows;
mod slave_layout;

pub use fault::ImageFault;
pub use layout::{Layout, image_of};
pub use new_layouts::{NewLayout, NewLayouts};
pub use placement::IMAGE_BYTES;
pub use plan::Plan;
pub use process_image::{ProcessImage, Segment};
pub use slave_layout::SlaveLayout;
