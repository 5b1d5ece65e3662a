//! The addresses and the bytes of a slave's registers for process data (ETG.1000.4).

ghost use Rattle.std.specs.Prelude.{◌≡◌};
ghost use Rattle.cyclic.specs.Registers.{manager_bytes, fmmu_bytes};

use sii_image::Segment;

/// The address of the first FMMU (ETG.1000.4). Each has 16 bytes.
pub(crate) const FMMUS: u16 = 0x0600;

/// The address of the first sync manager (ETG.1000.4). Each has 8 bytes.
pub(crate) const SYNC_MANAGERS: u16 = 0x0800;

/// The number of FMMUs of a slave.
pub(crate) const FMMU_COUNT: u16 = 8;

/// The type of an FMMU for inputs of the master.
const READS: u8 = 1;

/// The type of an FMMU for outputs of the master.
const WRITES: u8 = 2;

/// The sync manager of a segment: its start address, size and control byte, and enabled.
pub(crate) fn manager_bytes(segment: &Segment) -> [u8; 8]
    ensures { result ≡ manager_bytes segment.now }
{
    let [start_low, start_high] = segment.start.to_le_bytes();
    let [size_low, size_high, _, _] = segment.size.to_le_bytes();
    [
        start_low,
        start_high,
        size_low,
        size_high,
        segment.control,
        0,
        1,
        0,
    ]
}

/// The FMMU of a segment: it maps the segment's bytes, at its offset in the process image, to the start of its sync manager.
pub(crate) fn fmmu_bytes(segment: &Segment) -> [u8; 16]
    ensures { result ≡ fmmu_bytes segment.now }
{
    let [a, b, c, d] = segment.offset.to_le_bytes();
    let [size_low, size_high, _, _] = segment.size.to_le_bytes();
    let [start_low, start_high] = segment.start.to_le_bytes();
    let kind = if segment.output { WRITES } else { READS };
    [
        a, b, c, d, size_low, size_high, 0, 7, start_low, start_high, 0, kind, 1, 0, 0, 0,
    ]
}
