//! Why a line was not configured, or process data was not exchanged.

use thiserror::Error;

/// Why a line was not configured, or process data was not exchanged.
#[derive(Clone, Copy, Debug, PartialEq, Eq, Error)]
pub enum CycleFault {
    /// The working counter came back as `seen` in place of `expected`, that of all slaves: not all of them took part, or more did.
    #[error("the working counter is {seen} in place of {expected}")]
    WrongCounter { seen: u16, expected: u16 },
    /// The frame was lost. A slave may have taken it or not.
    #[error("the frame was lost")]
    Lost,
    /// The site has stopped, as at a power cut. Every later call that sends a frame returns this too.
    #[error("the site has stopped")]
    Stopped,
}
