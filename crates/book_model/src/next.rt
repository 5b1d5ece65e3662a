use sii_words::ItemList;
use site_core::{Issued, Settled};

/// The next action for the disk. Offsets are in bytes from the start of the journal file.
#[derive(Drop)]
pub enum DiskNext {
    /// Write `bytes` at file offset `at`.
    Write { at: usize, bytes: ItemList<u8> },
    /// Write the gate (commit byte) at file offset `at`: 0x00 if `closed`, else 0xA5.
    Gate { at: usize, closed: bool },
    /// Sync all that was written.
    Sync,
    /// Nothing to do now.
    Idle,
    /// The book has a fault; or it is finished, and the disk has nothing to do now.
    Stop,
}

/// The next action for a slave.
#[derive(Clone, Copy, PartialEq, Eq)]
pub enum RomNext {
    /// Send the command that writes `value` to the EEPROM word at address `word`.
    Issue { word: u16, value: u16 },
    /// Poll the slave until it is idle. `taken` says whether it is known to have taken the datagram of the last issue.
    Settle { taken: bool },
    /// Nothing to do now.
    Idle,
    /// Nothing to do until the next open.
    Stop,
}

/// The outcome of an action for a slave.
#[derive(Clone, Copy, PartialEq, Eq)]
pub enum RomOutcome {
    /// The outcome of `RomNext::Issue`.
    Issued(Issued),
    /// The outcome of `RomNext::Settle`.
    Settled(Settled),
    /// The site stopped, as by a power cut.
    Stopped,
}
