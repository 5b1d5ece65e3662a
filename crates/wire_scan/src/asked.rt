//! What a user asks for that isn't done where nothing is said.

use sii_words::MAX_SLAVES;
use station_rows::Form;

/// What a call on a line is to do that it doesn't do, or refuses, where nothing is said.
#[derive(Clone, Copy)]
pub struct ScanOptions {
    /// An image file decides on the size of its slave, even where the EEPROM is sure to be smaller.
    pub trusts_images: bool,
    /// Slaves in Safe-Operational and Operational are worked on, and EEPROMs that their PDI has.
    pub is_forced: bool,
    /// Commands may make word 0x3E tell another size than the EEPROM has.
    pub resizes: bool,
    /// An image may be that of another device than its slave, or have fewer words.
    pub any_device: bool,
    /// For each slave, what is right where its words differ from those of its image file.
    pub mends: Mends,
    /// What is to be reported.
    pub tells: Tells,
}

/// What is right where the words of a slave differ from those of its image file, outside of those that a recovery writes.
#[derive(Clone, Copy, PartialEq, Eq)]
pub enum Mend {
    /// Nothing is said: the line is refused.
    Unsaid,
    /// The slave is: its words go to the image file.
    Slave,
    /// The image file is: its words are written to the slave, by a command.
    File,
    /// The slave was exchanged for one of the same vendor and product: it gets the words of the image file, by a command, and keeps its serial number.
    Exchanged,
}

/// What is right for each slave of a line.
pub type Mends = [Mend; MAX_SLAVES];

/// What is reported of the work on a line, beside its answers.
#[derive(Clone, Copy)]
pub struct Tells {
    /// What has changed, at the end.
    pub report: bool,
    /// How many commands are durable and settled, as it happens, and at the end whether the process image is another one.
    pub events: bool,
    /// Whether what has changed is told as text, or as rows of JSON.
    pub form: Form,
}
