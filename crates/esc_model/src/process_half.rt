ghost use Rattle.std.specs.Prelude.{◌≡◌, ◌≤◌, ◌<◌, ◌^◌, ◌∷◌, [], length, slice_index, slice_set, IfOk};
ghost use Rattle.sii_words.specs.Words.{bytes_of, alias_of};
ghost use Rattle.esc_model.specs.Bytes.{lies_in};
ghost use Rattle.esc_model.specs.Fmmu.{fmmus, counter_of, all_read, all_written};
ghost use Rattle.esc_model.specs.ProcessHalf.{zeros, powered_up, is_writable, is_readable, read_for, written_for, processed};

use crate::bytes::{read_part, write_part};
use crate::fmmu::exchange;
use ecat_frame::Command;
use sii_words::Words;
use std::alloc::{AllocError, Global};
use std::marker::Model;

/// The process half of a slave (ETG.1000.4): 0x10000 bytes, registers below 0x1000 and process data memory from there on. A master
/// reads and writes them by address, or through the eight FMMUs at 0x0600.
#[derive(Drop)]
pub struct ProcessHalf {
    station: u16,
    memory: Vec<u8>,
}

impl Model for ProcessHalf {
    ghost use Rattle.std.specs.Prelude.{◌≡◌, length};
    ghost use Rattle.esc_model.specs.Fmmu.{fmmus, counter_of, all_read, all_written};
    ghost use Rattle.esc_model.specs.ProcessHalf.{ProcessMemory};

    ghost Value = { ProcessMemory };

    ghost view = { λ half. record { station = half.station; bytes = half.memory.items } };

    ghost invariant = { λ half. length half.memory.items ≡ 65536 };
}

impl ProcessHalf {
    /// Makes the process half of a slave at power-up: the station address and the alias of the words stand at 0x0010, and all other
    /// bytes are 0.
    ///
    /// # Errors
    ///
    /// `AllocError` if memory is refused.
    pub fn power_up(alloc: Global, words: &Words, station: u16) -> Result<ProcessHalf, AllocError>
        ensures { IfOk result (λ half. half ≡ powered_up words.now station) }
    {
        let mut memory = zero_bytes(alloc, 0x10000)?;
        write_part(&mut memory, 0x0010, &identification(words, station));
        Ok(ProcessHalf { station, memory })
    }

    /// Makes a copy with the same station address and memory.
    ///
    /// # Errors
    ///
    /// `AllocError` if memory is refused.
    pub fn try_copy(&self) -> Result<ProcessHalf, AllocError>
        ensures { IfOk result (λ copy. copy ≡ self.now) }
    {
        Ok(ProcessHalf {
            station: self.station,
            memory: self.memory.clone()?,
        })
    }

    /// Returns the byte at this address, which must be 0x1000 or above.
    pub fn peek(&self, address: u16) -> u8
        requires { 0x1000 ≤ address }
        ensures { result ≡ slice_index self.now.bytes address }
    {
        let at = usize::from(address);
        self.memory[at]
    }

    /// Sets the byte at this address, which must be 0x1000 or above.
    pub fn poke(&mut self, address: u16, value: u8)
        requires { 0x1000 ≤ address }
        ensures { self.new ≡ record self.old { bytes = slice_set self.old.bytes address value } }
    {
        self.memory[usize::from(address)] = value;
    }

    /// Takes a datagram, and returns what the half adds to its working counter: 1 for an FPRD or FPWR that is for this station and for
    /// bytes that may be read or written; for an LRW 1 if an FMMU reads, plus 2 if one writes; otherwise 0.
    ///
    /// The address of an FP command is the station address in the low 16 bits and the register in the high ones; that of an LRW is the
    /// logical start address. A read fills `content`.
    #[tactic(auto, unfolding(crate::specs::ProcessHalf::processed))]
    pub fn take(&mut self, command: Command, address: u32, content: &mut [u8]) -> u16
        ensures { processed self.old command address content.old ≡ record { memory = self.new; content = content.new; added = result } }
    {
        match command {
            Command::Fprd => self.read(address, content),
            Command::Fpwr => self.write(address, content),
            Command::Lrw => self.exchange(address, content),
            Command::Other(_) => 0,
        }
    }

    /// Serves an FPRD.
    fn read(&self, address: u32, content: &mut [u8]) -> u16
        ensures { read_for self.now address content.old ≡ record { memory = self.now; content = content.new; added = result } }
    {
        let register = (address / 65536) as usize;
        if address % 65536 != u32::from(self.station) || !is_readable(register, content.len()) {
            return 0;
        }
        read_part(&self.memory, register, content);
        1
    }

    /// Serves an FPWR.
    fn write(&mut self, address: u32, content: &[u8]) -> u16
        ensures { written_for self.old address content.now ≡ record { memory = self.new; content = content.now; added = result } }
    {
        let register = (address / 65536) as usize;
        if address % 65536 != u32::from(self.station) || !is_writable(register, content.len()) {
            return 0;
        }
        write_part(&mut self.memory, register, content);
        1
    }

    /// Serves an LRW through the FMMUs.
    fn exchange(&mut self, start: u32, content: &mut [u8]) -> u16
        ensures memory { self.new ≡ record self.old { bytes = all_written content.old (fmmus self.old.bytes) start self.old.bytes } }
        ensures content { content.new ≡ all_read self.old.bytes (fmmus self.old.bytes) start content.old }
        ensures counter { result ≡ counter_of (fmmus self.old.bytes) start (length content.old) }
    {
        exchange(&mut self.memory, start, content)
    }
}

/// Whether `count` bytes from `start` on, at least one, lie in `from..to`.
fn lies_in(from: usize, to: usize, start: usize, count: usize) -> bool
    requires bounds { from ≤ to }
    requires to { to < 2 ^ 32 }
    ensures { result ≡ lies_in from to start count }
{
    count > 0 && from <= start && start <= to && count <= to - start
}

/// Whether these bytes may be written: they lie in the FMMUs, the sync managers or the memory.
fn is_writable(start: usize, count: usize) -> bool
    ensures { result ≡ is_writable start count }
{
    lies_in(0x0600, 0x0680, start, count)
        || lies_in(0x0800, 0x0880, start, count)
        || lies_in(0x1000, 0x10000, start, count)
}

/// Whether these bytes may be read: those that may be written, and the station address with the alias.
fn is_readable(start: usize, count: usize) -> bool
    ensures { result ≡ is_readable start count }
{
    lies_in(0x0010, 0x0014, start, count) || is_writable(start, count)
}

#[tactic(auto, unfolding(crate::specs::ProcessHalf::zeros))]
fn zero_bytes(alloc: Global, count: usize) -> Result<Vec<u8>, AllocError>
    ensures { IfOk result (λ bytes. (bytes.items ≡ zeros count) × (length bytes.items ≡ count)) }
{
    vec![in alloc; 0; count]
}

/// The bytes at 0x0010: the station address and the alias.
fn identification(words: &Words, station: u16) -> [u8; 4]
    ensures { result ≡ bytes_of (station ∷ alias_of words.now ∷ []) }
{
    let [station_low, station_high] = station.to_le_bytes();
    let [alias_low, alias_high] = words.alias().to_le_bytes();
    [station_low, station_high, alias_low, alias_high]
}
