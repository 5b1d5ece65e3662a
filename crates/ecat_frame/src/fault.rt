//! Why a frame could not be made or read.

use thiserror::Error;

/// Why a datagram was not appended, or bytes were not read as a frame (ETG.1000.4).
#[derive(Clone, Copy, Debug, PartialEq, Eq, Error)]
pub enum FrameFault {
    /// The frame would be longer than 1,500 bytes.
    #[error("the frame has no room for the datagram")]
    FrameFull,
    /// The bytes are no frame. `at` is the place of the first fault, in bytes from the frame's start.
    #[error("the bytes are no EtherCAT frame from byte {at} on")]
    BadFrame { at: usize },
}
