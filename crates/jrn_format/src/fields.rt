//! Fields of a journal's header and of a batch. All numbers are little-endian.

ghost use Rattle.std.specs.Prelude.{◌≡◌, ◌≤◌, length, slice_index};
ghost use Rattle.std.specs.Int.{w16, w32};
ghost use Rattle.jrn_format.specs.Header.{field_at, header_bytes};

/// The value of an open gate. Any other value is a closed gate.
pub const OPEN: u8 = 0xA5;

/// File offset of the area, in bytes: the length of the header.
pub const AREA_START: usize = 8;

/// The header of a journal of version 2, for a line of `slaves` slaves and an area of `capacity` bytes.
pub fn header(slaves: u16, capacity: u32) -> [u8; 8]
    ensures { result ≡ header_bytes 2 slaves capacity }
{
    let [s0, s1] = slaves.to_le_bytes();
    let [c0, c1, c2, c3] = capacity.to_le_bytes();
    [OPEN, 2, s0, s1, c0, c1, c2, c3]
}

/// The gate of a file or of a batch: byte 0. It requires at least 1 byte.
pub fn gate(bytes: &[u8]) -> u8
    requires { 1 ≤ length bytes.now }
    ensures { result ≡ slice_index bytes.now 0 }
{
    bytes[0]
}

/// The version byte of a file: byte 1. It requires at least 2 bytes.
pub fn version(file: &[u8]) -> u8
    requires { 2 ≤ length file.now }
    ensures { result ≡ slice_index file.now 1 }
{
    file[1]
}

/// The number of slaves in the header of a file: bytes 2 and 3. It requires at least 4 bytes.
pub fn slave_count(file: &[u8]) -> u16
    requires { 4 ≤ length file.now }
    ensures { result ≡ field_at w16 2 file.now }
{
    u16::from_le_bytes([file[2], file[3]])
}

/// The length of the area in the header of a file, in bytes: bytes 4 to 7. It requires at least 8 bytes.
pub fn capacity(file: &[u8]) -> u32
    requires { 8 ≤ length file.now }
    ensures { result ≡ field_at w32 4 file.now }
{
    u32::from_le_bytes([file[4], file[5], file[6], file[7]])
}

/// The generation of a batch of version 2: byte 1, counted from its gate. It requires at least 2 bytes.
pub fn generation(batch: &[u8]) -> u8
    requires { 2 ≤ length batch.now }
    ensures { result ≡ slice_index batch.now 1 }
{
    batch[1]
}

/// The payload length of a batch of version 2, in bytes: bytes 2 to 5, counted from its gate. It requires at least 6 bytes.
pub fn payload_length(batch: &[u8]) -> u32
    requires { 6 ≤ length batch.now }
    ensures { result ≡ field_at w32 2 batch.now }
{
    u32::from_le_bytes([batch[2], batch[3], batch[4], batch[5]])
}
