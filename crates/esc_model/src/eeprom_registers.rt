ghost use Rattle.std.specs.Prelude.{◌≡◌, ◌%◌, ◌==◌, true, if◌then◌else◌};
ghost use Rattle.esc_model.specs.Registers.{register_bytes, access_byte, status_byte, stored, cleared};

use std::marker::Model;

/// The registers 0x0500 to 0x050F of a slave controller (ETG.1000.4, slave information interface).
#[derive(Drop)]
pub(crate) struct EepromRegisters {
    offered: bool,
    forced: bool,
    control: u8,
    command: u8,
    loading_error: bool,
    command_error: bool,
    enable_error: bool,
    address: u32,
    first: u16,
    second: u16,
    third: u16,
    fourth: u16,
}

impl Model for EepromRegisters {
    ghost use Rattle.std.specs.Prelude.{◌<◌};
    ghost use Rattle.esc_model.specs.Registers.{Registers};

    ghost Value = { Registers };

    ghost view = { λ r. record {
      offered = r.offered;
      forced = r.forced;
      control = r.control;
      command = r.command;
      loading_error = r.loading_error;
      command_error = r.command_error;
      enable_error = r.enable_error;
      address = r.address;
      first = r.first;
      second = r.second;
      third = r.third;
      fourth = r.fourth;
    } };

    ghost invariant = { λ r. r.command < 8 };
}

impl EepromRegisters {
    pub(crate) fn cleared(loading_error: bool) -> Self
        ensures { result ≡ cleared loading_error }
    {
        EepromRegisters {
            offered: false,
            forced: false,
            control: 0,
            command: 0,
            loading_error,
            command_error: false,
            enable_error: false,
            address: 0,
            first: 0,
            second: 0,
            third: 0,
            fourth: 0,
        }
    }

    pub(crate) fn copy(&self) -> Self
        ensures { result ≡ self.now }
    {
        EepromRegisters { ..*self }
    }

    /// The sixteen bytes as a read shows them.
    pub(crate) fn bytes(&self, busy: bool) -> [u8; 16]
        ensures { result ≡ register_bytes self.now busy }
    {
        let address = self.address.to_le_bytes();
        let first = self.first.to_le_bytes();
        let second = self.second.to_le_bytes();
        let third = self.third.to_le_bytes();
        let fourth = self.fourth.to_le_bytes();
        [
            self.access_byte(),
            0,
            self.control,
            self.status_byte(busy),
            address[0],
            address[1],
            address[2],
            address[3],
            first[0],
            first[1],
            second[0],
            second[1],
            third[0],
            third[1],
            fourth[0],
            fourth[1],
        ]
    }

    /// The byte at 0x0500: who has access to the EEPROM.
    fn access_byte(&self) -> u8
        ensures { result ≡ access_byte self.now }
    {
        weight(self.offered, 1) + weight(self.forced, 2)
    }

    /// The byte at 0x0503: the high byte of control and status.
    fn status_byte(&self, busy: bool) -> u8
        ensures { result ≡ status_byte self.now busy }
    {
        self.command
            + weight(self.loading_error, 0x18)
            + weight(self.command_error, 0x20)
            + weight(self.enable_error, 0x40)
            + weight(busy, 0x80)
    }

    /// Writes the sixteen bytes to the registers. Bits that can't be written keep their values.
    pub(crate) fn store(&mut self, bytes: &[u8; 16])
        ensures { self.new ≡ stored self.old bytes.now }
    {
        self.offered = bytes[0] % 2 == 1;
        self.forced = bytes[0] / 2 % 2 == 1;
        self.control = bytes[2];
        self.command = bytes[3] % 8;
        self.address = u32::from_le_bytes([bytes[4], bytes[5], bytes[6], bytes[7]]);
        self.first = u16::from_le_bytes([bytes[8], bytes[9]]);
        self.second = u16::from_le_bytes([bytes[10], bytes[11]]);
        self.third = u16::from_le_bytes([bytes[12], bytes[13]]);
        self.fourth = u16::from_le_bytes([bytes[14], bytes[15]]);
    }

    /// The command: bits 8 to 10 of control and status.
    pub(crate) fn command(&self) -> u8
        ensures { result ≡ self.now.command }
    {
        self.command
    }

    /// Whether bit 0 of control and status is set, which enables writing.
    pub(crate) fn write_enabled(&self) -> bool
        ensures { result ≡ (self.now.control % 2 == 1) }
    {
        self.control % 2 == 1
    }

    /// Whether the EEPROM is offered to the PDI.
    pub(crate) fn is_offered(&self) -> bool
        ensures { result ≡ self.now.offered }
    {
        self.offered
    }

    /// The word address, on which a command acts.
    pub(crate) fn address(&self) -> u32
        ensures { result ≡ self.now.address }
    {
        self.address
    }

    /// The first word of data, which a write command writes.
    pub(crate) fn first(&self) -> u16
        ensures { result ≡ self.now.first }
    {
        self.first
    }

    pub(crate) fn fetch(&mut self, first: u16, second: u16)
        ensures { self.new ≡ record self.old { first = first; second = second } }
    {
        self.first = first;
        self.second = second;
    }

    /// Sets or clears bits 13 and 14 of control and status.
    pub(crate) fn set_errors(&mut self, command_error: bool, enable_error: bool)
        ensures { self.new ≡ record self.old { command_error = command_error; enable_error = enable_error } }
    {
        self.command_error = command_error;
        self.enable_error = enable_error;
    }

    /// Sets bit 13 of control and status.
    pub(crate) fn set_command_error(&mut self)
        ensures { self.new ≡ record self.old { command_error = true } }
    {
        self.command_error = true;
    }
}

/// What a bit adds to its byte.
fn weight(set: bool, worth: u8) -> u8
    ensures { result ≡ (if set then worth else 0) }
{
    if set { worth } else { 0 }
}
