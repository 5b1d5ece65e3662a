ghost use Rattle.std.specs.Prelude.{◌≡◌, ◌+◌, ◌≤◌, length};
ghost use Rattle.std.specs.List.{list_any};
ghost use Rattle.esc_model.specs.Fmmu.{fmmu_at, fmmus, acts, reads, writes, counter_of, all_read, all_written};

use crate::bytes::copy_part;
use ecat_frame::MAX_LEN;

/// A fieldbus memory management unit (ETG.1000.4), which maps bytes of a slave's memory into the logical address space.
#[derive(Clone, Copy)]
pub struct Fmmu {
    /// The logical start address.
    pub logical: u32,
    /// The length of both ranges, in bytes.
    pub count: u16,
    /// The physical start address, in the slave's memory.
    pub physical: u16,
    /// The type: bit 0 for reads (inputs of the master), bit 1 for writes (its outputs).
    pub kind: u8,
    /// Bit 0 is set if the FMMU is active.
    pub activate: u8,
}

impl Fmmu {
    /// The FMMU at this address of a slave's memory.
    fn at(bytes: &[u8], at: usize) -> Fmmu
        requires { at + 16 ≤ length bytes.now }
        ensures { result ≡ fmmu_at bytes.now at }
    {
        Fmmu {
            logical: u32::from_le_bytes([bytes[at], bytes[at + 1], bytes[at + 2], bytes[at + 3]]),
            count: u16::from_le_bytes([bytes[at + 4], bytes[at + 5]]),
            physical: u16::from_le_bytes([bytes[at + 8], bytes[at + 9]]),
            kind: bytes[at + 11],
            activate: bytes[at + 12],
        }
    }

    /// The eight FMMUs of a slave.
    #[tactic(auto, unfolding(crate::specs::Fmmu::fmmus))]
    fn all(bytes: &[u8]) -> [Fmmu; 8]
        requires { length bytes.now ≡ 65536 }
        ensures { result ≡ fmmus bytes.now }
    {
        [
            Fmmu::at(bytes, 0x0600),
            Fmmu::at(bytes, 0x0610),
            Fmmu::at(bytes, 0x0620),
            Fmmu::at(bytes, 0x0630),
            Fmmu::at(bytes, 0x0640),
            Fmmu::at(bytes, 0x0650),
            Fmmu::at(bytes, 0x0660),
            Fmmu::at(bytes, 0x0670),
        ]
    }

    /// Whether it acts on a logical datagram of `count` bytes from `start` on.
    fn acts(&self, start: u32, count: usize) -> bool
        ensures { result ≡ acts start count self.now }
    {
        let physical = usize::from(self.physical);
        let own = usize::from(self.count);
        self.activate % 2 == 1
            && own > 0
            && physical >= 0x1000
            && physical + own <= 0x10000
            && self.logical >= start
            && (self.logical - start) as usize + own <= count
    }

    fn reads(&self, start: u32, count: usize) -> bool
        ensures { result ≡ reads start count self.now }
    {
        self.acts(start, count) && self.kind % 2 == 1
    }

    fn writes(&self, start: u32, count: usize) -> bool
        ensures { result ≡ writes start count self.now }
    {
        self.acts(start, count) && self.kind / 2 % 2 == 1
    }
}

/// Exchanges the content of a logical datagram with a slave's memory through its FMMUs. All reads come before all writes. Returns what
/// that adds to the working counter: 1 if an FMMU reads, plus 2 if one writes.
pub(crate) fn exchange(memory: &mut [u8], start: u32, content: &mut [u8]) -> u16
    requires memory { length memory.old ≡ 65536 }
    ensures memory { memory.new ≡ all_written content.old (fmmus memory.old) start memory.old }
    ensures content { content.new ≡ all_read memory.old (fmmus memory.old) start content.old }
    ensures counter { result ≡ counter_of (fmmus memory.old) start (length content.old) }
{
    let units = Fmmu::all(memory);
    let counter = counter_of(&units, start, content.len());
    if content.len() <= MAX_LEN {
        exchange_short(&units, memory, start, content);
    } else {
        exchange_long(&units, memory, start, content);
    }
    counter
}

/// Exchanges a content that fits into a frame. The writes use a copy of the content as it came in.
#[inline(never)]
fn exchange_short(units: &[Fmmu], memory: &mut [u8], start: u32, content: &mut [u8])
    requires memory { length memory.old ≡ 65536 }
    requires short { length content.old ≤ 1500 }
    ensures memory { memory.new ≡ all_written content.old units.now start memory.old }
    ensures content { content.new ≡ all_read memory.old units.now start content.old }
{
    let mut room = [0u8; MAX_LEN];
    let came = &mut room[..content.len()];
    came.copy_from_slice(content);
    read_mapped(memory, units, start, content);
    write_mapped(came, units, start, memory);
}

/// Exchanges any content. The reads use a copy of the memory before the writes.
// Not inlined: a function clears its arrays as it is entered, and no frame has such a content.
#[inline(never)]
fn exchange_long(units: &[Fmmu], memory: &mut [u8], start: u32, content: &mut [u8])
    requires memory { length memory.old ≡ 65536 }
    ensures memory { memory.new ≡ all_written content.old units.now start memory.old }
    ensures content { content.new ≡ all_read memory.old units.now start content.old }
{
    let mut before = [0u8; 0x10000];
    before.copy_from_slice(memory);
    write_mapped(content, units, start, memory);
    read_mapped(&before, units, start, content);
}

/// What these FMMUs add to the working counter of a logical datagram of `count` bytes from `start` on.
fn counter_of(units: &[Fmmu], start: u32, count: usize) -> u16
    ensures { result ≡ counter_of units.now start count }
{
    u16::from(any_reads(units, start, count)) + 2 * u16::from(any_writes(units, start, count))
}

fn any_reads(units: &[Fmmu], start: u32, count: usize) -> bool
    ensures { result ≡ list_any (reads start count) units.now }
{
    units.iter().any(|unit| unit.reads(start, count))
}

fn any_writes(units: &[Fmmu], start: u32, count: usize) -> bool
    ensures { result ≡ list_any (writes start count) units.now }
{
    units.iter().any(|unit| unit.writes(start, count))
}

/// Copies from the memory to the content of a logical datagram what these FMMUs read.
fn read_mapped(memory: &[u8], units: &[Fmmu], start: u32, content: &mut [u8])
    requires { length memory.now ≡ 65536 }
    ensures { content.new ≡ all_read memory.now units.now start content.old }
{
    for unit in units {
        if unit.reads(start, content.len()) {
            let place = (unit.logical - start) as usize;
            copy_part(
                memory,
                usize::from(unit.physical),
                usize::from(unit.count),
                content,
                place,
            );
        }
    }
}

/// Copies from the content of a logical datagram to the memory what these FMMUs write.
fn write_mapped(content: &[u8], units: &[Fmmu], start: u32, memory: &mut [u8])
    requires { length memory.old ≡ 65536 }
    ensures { memory.new ≡ all_written content.now units.now start memory.old }
{
    for unit in units {
        if unit.writes(start, content.len()) {
            let at = (unit.logical - start) as usize;
            copy_part(
                content,
                at,
                usize::from(unit.count),
                memory,
                usize::from(unit.physical),
            );
        }
    }
}
