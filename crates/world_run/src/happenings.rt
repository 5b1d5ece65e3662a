use crate::half::WordEnd;
use crate::leaving::{LeftByte, LeftWord};
use book_model::RomOutcome;
use sii_edit::Command;
use site_core::DeviceFault;

/// How an action of the disk ends.
#[derive(Drop)]
pub enum DiskEnd {
    /// It succeeds.
    Done,
    /// It fails, and the range that it writes stays unsynced.
    Failed {
        /// The fault of the disk or of the whole site. With `Lost`, which no disk answers, nothing happens.
        fault: DeviceFault,
        /// What the bytes of the range hold then. The last one that names a byte counts; other bytes keep what they held.
        bytes: Vec<LeftByte>,
    },
}

/// What a power cut leaves in unsynced bytes and in words in flight.
#[derive(Drop)]
pub struct Left {
    /// The unsynced bytes. The last one that names a byte counts; synced bytes are ignored, and bytes that aren't named stay.
    pub bytes: Vec<LeftByte>,
    /// The words in flight. The first one that names a slave counts; slaves without a word in flight are ignored, and a word that isn't
    /// named stays in flight.
    pub words: Vec<LeftWord>,
}

/// An event of a world, with every choice that the definitions leave open.
#[derive(Drop)]
pub enum Event {
    /// A caller submits a command.
    Submit(Command),
    /// A caller asks for a plan.
    Plan,
    /// A caller asks for a migration.
    Migrate,
    /// A caller finishes the book.
    Finish,
    /// The book's next action for the disk begins.
    DiskBegin,
    /// The action of the disk ends.
    DiskDone(DiskEnd),
    /// The book's next action for the slave, numbered from 0, begins. With an issue, `takes` says whether an idle slave takes the
    /// datagram.
    RomIssue { slave: u16, takes: bool },
    /// The action for the slave ends with this outcome.
    RomDone { slave: u16, outcome: RomOutcome },
    /// The slave comes to rest, if it is busy: its word in flight ends.
    RomResolve { slave: u16, end: WordEnd },
    /// The power is cut.
    Stop(Left),
    /// The station is opened.
    Open,
}
