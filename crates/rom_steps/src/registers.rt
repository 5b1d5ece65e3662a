//! The addresses of a slave's EEPROM registers, and what is written to them (ETG.1000.4, slave information interface).

ghost use Rattle.std.specs.Prelude.{◌≡◌, [], ◌∷◌, ◌++◌};
ghost use Rattle.std.specs.Int.{w16, w32, to_le_bytes};

/// EEPROM access: bit 0 offers the EEPROM to the PDI, bit 1 forces ECAT access.
pub const ACCESS: u16 = 0x0500;

/// Control and status: bit 0 is write enable, bits 8 to 10 are the command, bits 13 and 14 its errors, bit 15 is busy.
pub const CONTROL: u16 = 0x0502;

/// EEPROM data: the words that a read has fetched, or the word that is to be written.
pub const CONTENT: u16 = 0x0508;

/// Control and status: the command read.
const READ: u16 = 0x0100;

/// Control and status: write enable, and the command write.
const WRITE: u16 = 0x0201;

/// The content of the datagram that asks for a word and the next one: the command, and the word's number in 32 bits; and two bytes 0.
pub(crate) fn read_content(word: u16) -> [u8; 8]
    ensures { result ≡ to_le_bytes w16 0x0100 ++ to_le_bytes w32 word ++ (0 ∷ 0 ∷ []) }
{
    let [enable, command] = READ.to_le_bytes();
    let [a, b, c, d] = u32::from(word).to_le_bytes();
    [enable, command, a, b, c, d, 0, 0]
}

/// The content of the datagram that writes a word, for the control register: write enable and the command, the word's number in 32 bits, and its
/// value (ETG.1000.4, slave information interface).
pub fn write_content(word: u16, value: u16) -> [u8; 8]
    ensures { result ≡ to_le_bytes w16 0x0201 ++ to_le_bytes w32 word ++ to_le_bytes w16 value }
{
    let [enable, command] = WRITE.to_le_bytes();
    let [a, b, c, d] = u32::from(word).to_le_bytes();
    let [low, high] = value.to_le_bytes();
    [enable, command, a, b, c, d, low, high]
}
