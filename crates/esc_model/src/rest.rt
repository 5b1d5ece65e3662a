/// A word of the EEPROM that is being written (ETG.1000.4, slave information interface).
#[derive(Clone, Copy, PartialEq, Eq)]
pub struct WordWrite {
    /// The word's number.
    pub word: u16,
    /// The value that is being written.
    pub value: u16,
}

/// How the write of a word ends (ETG.1000.4, slave information interface).
#[derive(Clone, Copy)]
pub enum Rest {
    /// The word holds its new value, and bits 13 and 14 of control and status are clear.
    Well,
    /// Bit 13 of control and status is set, and the word holds this value.
    Failed(u16),
    /// A power cut has torn the word, which holds this value.
    Torn(u16),
}
