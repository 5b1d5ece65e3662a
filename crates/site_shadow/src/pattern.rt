/// What unsynced bytes of a disk, and a torn word of an EEPROM, hold after a power cut.
#[derive(Clone, Copy)]
pub enum Pattern {
    /// The bytes at the last sync, and the word's old value.
    Old,
    /// The bytes that were written, and the word's new value.
    New,
    /// The low byte of this number in each byte, and this number in the word.
    Fill(u16),
}
