//! How a controller serves its EEPROM by the registers 0x0500 to 0x050F (ETG.1000.4, slave information interface).
ghost use Rattle.std.specs.Prelude.{◌+◌, ◌≤◌, length};

use crate::chip::Chip;
use crate::quirks::Quirks;
use esc_model::WordWrite;
use site_shadow::Pattern;

/// Bit 13 of control and status, in its high byte: a missing acknowledge, or a wrong command.
const MISSED: u8 = 0x20;

/// Bit 14: a write that wasn't enabled.
const DISABLED: u8 = 0x40;

/// Bit 15: busy.
const BUSY: u8 = 0x80;

/// Bits 11 and 12: the contents were wrong when the power came.
const WRONG: u8 = 0x18;

/// Bit 6 of control and status, in its low byte: a read loads eight bytes, and not four.
const READS_EIGHT: u8 = 0x40;

const READ: u8 = 1;

const WRITE: u8 = 2;

/// How a command ends.
#[derive(Clone, Copy)]
enum End {
    Read,
    Write(WordWrite),
    /// Nothing is done, and bit 13 is set.
    Missed,
}

/// A command that the controller is busy with.
#[derive(Clone, Copy)]
struct BusyCommand {
    /// How many datagrams came since it was given.
    since: u32,
    /// How many datagrams find it busy yet.
    left: u32,
    /// The moment until which it is busy in any case.
    until: u64,
    end: End,
}

/// A word that the chip programs.
#[derive(Clone, Copy)]
struct Programming {
    write: WordWrite,
    until: u64,
}

/// The registers of a slave's EEPROM, and its chip. Moments are in microseconds.
#[derive(Drop)]
pub(crate) struct Eeprom {
    /// The chip. A word in flight still has its old value there.
    pub(crate) chip: Chip,
    quirks: Quirks,
    /// The sixteen registers, without what is kept below.
    registers: [u8; 16],
    /// Bits 13 and 14 of control and status.
    errors: u8,
    is_loaded_wrong: bool,
    job: Option<BusyCommand>,
    programming: Option<Programming>,
    /// How many reads and writes were begun.
    commands: u32,
}

/// The registers as the power comes.
fn registers_at_first(quirks: &Quirks) -> [u8; 16] {
    let held = u8::from(quirks.is_held);
    [held, held, 0, 0, 0, 0, 0, 0, 0, 0, 0, 0, 0, 0, 0, 0]
}

impl Eeprom {
    /// The EEPROM of a slave that is just switched on.
    pub(crate) fn power_up(chip: Chip, quirks: Quirks) -> Eeprom {
        let is_loaded_wrong = !chip.is_checked();
        Eeprom {
            chip,
            quirks,
            registers: registers_at_first(&quirks),
            errors: 0,
            is_loaded_wrong,
            job: None,
            programming: None,
            commands: 0,
        }
    }

    /// The power is cut, and comes back. A word in flight is left by the pattern; what fills it fills its page.
    pub(crate) fn cut_power(&mut self, pattern: Pattern) {
        match (self.in_flight(), pattern) {
            (Some(write), Pattern::New) => self.chip.set(u32::from(write.word), write.value),
            (Some(write), Pattern::Fill(word)) => {
                let (first, after) = self.page_of(write.word);
                for address in first..after {
                    self.chip.set(address, word);
                }
            }
            _ => {}
        }
        self.job = None;
        self.programming = None;
        self.commands = 0;
        self.errors = 0;
        self.registers = registers_at_first(&self.quirks);
        self.is_loaded_wrong = !self.chip.is_checked();
    }

    /// The word in flight: the controller is busy with it, or the chip programs it. A write protected chip has none.
    pub(crate) fn in_flight(&self) -> Option<WordWrite> {
        if self.quirks.is_protected {
            return None;
        }
        if let Some(programming) = self.programming {
            return Some(programming.write);
        }
        match self.job {
            Some(
                BusyCommand {
                    end: End::Write(write),
                    ..
                },
            ) => Some(write),
            _ => None,
        }
    }

    /// The first word that the chip writes anew with this one, and the word after the last one.
    pub(crate) fn page_of(&self, word: u16) -> (u32, u32) {
        let page = u32::from(self.quirks.page.max(1));
        let first = u32::from(word) - u32::from(word) % page;
        (first, first.saturating_add(page))
    }

    /// Whether the controller is busy.
    pub(crate) fn is_busy(&self) -> bool {
        self.job.is_some()
    }

    /// Whether it shows that.
    fn is_shown_busy(&self) -> bool {
        match self.job {
            Some(job) => job.since > self.quirks.shown_late,
            None => false,
        }
    }

    /// Time passes. A word that the chip has programmed is there.
    pub(crate) fn pass_time(&mut self, now: u64) {
        if let Some(Programming { write, until }) = self.programming {
            if now >= until {
                self.chip.set(u32::from(write.word), write.value);
                self.programming = None;
            }
        }
    }

    /// A datagram for the slave comes. Where the controller has been busy for long enough, its command is at an end.
    pub(crate) fn pass(&mut self, now: u64) {
        let Some(job) = self.job else {
            return;
        };
        if job.left == 0 && now >= job.until {
            self.job = None;
            self.finish(job.end, now);
        } else {
            self.job = Some(BusyCommand {
                since: job.since.saturating_add(1),
                left: job.left.saturating_sub(1),
                ..job
            });
        }
    }

    /// The command is at an end.
    fn finish(&mut self, end: End, now: u64) {
        match end {
            End::Read => self.fetch(),
            End::Missed => self.errors |= MISSED,
            End::Write(_) if self.quirks.is_protected => {}
            End::Write(write) => {
                let until = now.saturating_add(self.quirks.programs_on);
                self.programming = Some(Programming { write, until });
                self.pass_time(now);
            }
        }
    }

    /// The registers as a read shows them.
    pub(crate) fn shown(&self) -> [u8; 16] {
        let mut shown = self.registers;
        let wrong = if self.is_loaded_wrong { WRONG } else { 0 };
        let busy = if self.is_shown_busy() { BUSY } else { 0 };
        let size = if self.quirks.is_wide { READS_EIGHT } else { 0 };
        shown[2] = shown[2] & !READS_EIGHT | size;
        shown[3] |= wrong | self.errors | busy;
        shown
    }

    /// Takes a write to the registers from `at` on, unless the controller is busy. Answers what that adds to the working counter.
    pub(crate) fn write(&mut self, at: usize, content: &[u8], now: u64) -> u16
        requires { at + length content.now ≤ 16 }
    {
        let end = at + content.len();
        if self.is_busy() && end > 2 {
            return 0;
        }
        for (offset, byte) in content.iter().enumerate() {
            self.set_register(at.saturating_add(offset), *byte);
        }
        if at <= 2 && end >= 4 {
            self.act(now);
        }
        1
    }

    /// Writes to one register.
    fn set_register(&mut self, place: usize, byte: u8) {
        match place {
            0 => self.set_access(byte % 4),
            1 => {}
            3 => self.registers[3] = byte % 8,
            _ => {
                if let Some(register) = self.registers.get_mut(place) {
                    *register = byte;
                }
            }
        }
    }

    /// Bit 0 offers the EEPROM to the PDI, and bit 1 takes it from there by force.
    fn set_access(&mut self, bits: u8) {
        self.registers[0] = bits;
        let is_offered = bits % 2 == 1;
        if is_offered && self.quirks.is_held {
            self.registers[1] = 1;
        } else if bits >= 2 {
            self.registers[1] = 0;
        }
    }

    /// The word address of a command.
    fn address(&self) -> u32 {
        let registers = self.registers;
        u32::from_le_bytes([registers[4], registers[5], registers[6], registers[7]])
    }

    /// Whether the command names a word that isn't there. Where addresses roll over each one is.
    fn is_outside(&self, command: u8) -> bool {
        let address = self.address() as usize;
        let count = self.chip.words.len();
        if self.quirks.chip.is_some() {
            return false;
        }
        match command {
            READ => address.saturating_add(self.words_read() - 1) >= count,
            WRITE => address >= count,
            _ => false,
        }
    }

    /// Which error bits the command sets at once.
    fn errors_of(&self, command: u8) -> u8 {
        let is_held = self.registers[0] % 2 == 1 || self.registers[1] % 2 == 1;
        let is_wrong = is_held || command > WRITE || self.is_outside(command);
        let is_disabled = command == WRITE && self.registers[2] % 2 == 0;
        let wrong = if is_wrong { MISSED } else { 0 };
        let disabled = if is_disabled { DISABLED } else { 0 };
        wrong | disabled
    }

    /// Takes the command that was written.
    fn act(&mut self, now: u64) {
        let command = self.registers[3];
        if command != 0 && self.errors != 0 && self.quirks.is_blocked_by_errors {
            return;
        }
        self.errors = self.errors_of(command);
        if self.errors == 0 && command != 0 {
            self.begin(command, now);
        }
    }

    /// Begins a read or a write.
    fn begin(&mut self, command: u8, now: u64) {
        self.commands = self.commands.saturating_add(1);
        let (end, time) = if command == READ {
            (End::Read, self.quirks.read_time)
        } else {
            (End::Write(self.word_named()), self.quirks.write_time)
        };
        let is_missed = self.is_missed();
        self.job = Some(BusyCommand {
            since: 0,
            left: self.quirks.delay,
            until: now.saturating_add(time),
            end: if is_missed { End::Missed } else { end },
        });
    }

    /// Whether the command that is begun will miss its acknowledge.
    fn is_missed(&self) -> bool {
        let each = self.quirks.each_missed;
        self.programming.is_some()
            || self.commands <= self.quirks.first_missed
            || (each > 0 && self.commands % each == 0)
    }

    /// The word that a write names, by its place on the chip.
    fn word_named(&self) -> WordWrite {
        let place = self.chip.place(self.address());
        let value = u16::from_le_bytes([self.registers[8], self.registers[9]]);
        WordWrite {
            word: (place % 65536) as u16,
            value,
        }
    }

    /// How many words a read loads.
    fn words_read(&self) -> usize
        ensures some { 1 ≤ result }
        ensures most { result ≤ 4 }
    {
        if self.quirks.is_wide { 4 } else { 2 }
    }

    /// The words that a read names come into the registers.
    fn fetch(&mut self) {
        let address = self.address();
        for offset in 0..self.words_read() {
            let [low, high] = self
                .chip
                .get(address.wrapping_add(offset as u32))
                .to_le_bytes();
            self.registers[8 + 2 * offset] = low;
            self.registers[9 + 2 * offset] = high;
        }
    }
}
