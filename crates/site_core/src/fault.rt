use thiserror::Error;

/// Why a device call failed.
#[derive(Clone, Copy, Debug, PartialEq, Eq, Error)]
pub enum DeviceFault {
    /// The disk failed. Only disk calls return it.
    #[error("the disk failed")]
    Disk,
    /// The frame was lost. A slave may have taken it or not. Only `exchange` and `cycle` return it.
    #[error("the frame was lost")]
    Lost,
    /// The site has stopped, as at a power cut. Every later device call returns this too.
    #[error("the site has stopped")]
    Stopped,
}
