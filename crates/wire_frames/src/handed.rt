//! What becomes of the access to a slave's EEPROM.

/// What became of the access to the EEPROM of a slave as it was handed back: of bits 0 and 1 of 0x0500 (ETG.1000.4).
#[derive(Clone, Copy, PartialEq, Eq)]
pub enum Handed {
    /// Nothing was to be put back: the bits were clear as the slave was found, or they aren't known.
    Nothing,
    /// They are as they were found. The slave, alone, counted the write.
    Back,
    /// Each time the write came back, and the slave hadn't counted it, or others had too.
    Uncounted,
    /// No frame came back, of this slave's or of one's before it.
    Silent,
}
