//! Why a site on a wire has stopped.

use esc_model::WordWrite;
use thiserror::Error;
use wire_frames::Sighting;

/// In what a slave's answer is another than that of the shadow.
#[derive(Clone, Copy, Debug, PartialEq, Eq, Error)]
pub enum Difference {
    /// It isn't the datagram that was sent, or a write that comes back with other content.
    #[error("another datagram came back")]
    Datagram,
    /// The working counter.
    #[error("the working counter differs")]
    Counter,
    /// Who has access to the EEPROM: bits 0 and 1 of 0x0500.
    #[error("the access to the EEPROM differs")]
    Access,
    /// Whether the slave is busy: bit 15 of control and status.
    #[error("the busy bit differs")]
    Busy,
    /// Bits 13 and 14 of control and status.
    #[error("the error bits differ")]
    Errors,
}

/// A word that a slave was told to write, and that wasn't seen as written.
#[derive(Clone, Copy, PartialEq, Eq)]
pub struct OpenWord {
    /// The word, and the value that it was to get.
    pub write: WordWrite,
    /// How it was left.
    pub left: LeftAs,
}

/// How a word was left that wasn't seen as written.
#[derive(Clone, Copy, PartialEq, Eq)]
pub enum LeftAs {
    /// The site stopped while it was in flight.
    InFlight,
    /// It was read back with its old value, this one, each time, though the slave was idle and had acknowledged the command.
    Kept(u16),
}

/// What was seen of the slaves of a line on which work ended early.
#[derive(Clone, Copy)]
pub struct LineSeen {
    /// Of the slave for which the site has stopped, if it has stopped for one.
    pub stopped: Option<Sighting>,
    /// By slave, the last word that wasn't seen as written, if there was one.
    pub words: [Option<OpenWord>; 64],
}

/// Why a site on a wire has stopped.
#[derive(Clone, Copy, Debug, PartialEq, Eq, Error)]
pub enum StopReason {
    /// A frame was sent three times, and didn't come back.
    #[error("no frame comes back")]
    Silent,
    /// A slave answered what the shadow could not have answered.
    #[error("slave {slave}: {what}")]
    Differs { slave: usize, what: Difference },
    /// A slave ended the write of a word in error, so that the word may hold anything.
    #[error("slave {slave} failed to write a word")]
    WordFailed { slave: usize },
    /// A frame for one slave hasn't just one datagram, or that isn't for registers of the EEPROM. It wasn't sent.
    #[error("a frame for slave {slave} hasn't just one short datagram")]
    NotOneDatagram { slave: usize },
    /// The journal's file can't be read, written or synced, or has other bytes.
    #[error("the journal can't be used")]
    Journal,
}

impl StopReason {
    /// The slave that it is about, if it is about one.
    pub fn slave(self) -> Option<usize> {
        match self {
            StopReason::Differs { slave, .. }
            | StopReason::WordFailed { slave }
            | StopReason::NotOneDatagram { slave } => Some(slave),
            StopReason::Silent | StopReason::Journal => None,
        }
    }
}
