//! The plan of a cyclic exchange.

use crate::process_image::ProcessImage;

/// A plan of the cyclic exchange: the process image of the contents after a prefix of commands.
#[derive(Drop)]
pub struct Plan {
    /// The number of commands in the prefix.
    pub prefix: u64,
    /// The process image of the contents after it.
    pub image: ProcessImage,
}
