//! What is told to a slave that has no shadow yet, until it takes it.
ghost use Rattle.std.specs.Prelude.{◌≡◌, ◌⊎◌, ◌<◌, length, slice_index, IfOk, OnOk};
ghost use Rattle.ecat_frame.specs.Command.{code_of};
ghost use Rattle.ecat_frame.specs.Frame.{sent};
ghost use Rattle.ecat_frame.specs.declared.command.Command.TheVariants.{Fprd, Fpwr};
ghost use Rattle.esc_model.specs.Orders.{address_of};
ghost use Rattle.wire_frames.specs.Came.{Unheard, Reported, Answered};
ghost use Rattle.wire_frames.specs.Sending.{InEeprom};
ghost use Rattle.wire_words.specs.declared.telling.Hitch.TheVariants as hitch;

use ecat_frame::{Command, fp};
use esc_model::station_address;
use rom_steps::TRIES;
use std::alloc::{AllocError, AllocFailed};
use wire_frames::{Last, NumberedWire, Reply, Wire, ask};

/// Why a slave can't be asked further.
#[derive(Clone, Copy)]
pub enum Hitch {
    Memory,
    /// A frame doesn't come back.
    Silent,
    /// The slave doesn't do what it is asked to.
    Stuck(Last),
    /// Its PDI has the EEPROM, and doesn't lose it unless by force.
    Held,
}

impl From<AllocError> for Hitch {
    ghost from_gives = { λ _ fault. fault ≡ hitch.Memory };

    fn from(_: AllocError) -> Self {
        Hitch::Memory
    }
}

impl<T: Drop> From<AllocFailed<T>> for Hitch {
    ghost from_gives = { λ _ fault. fault ≡ hitch.Memory };

    fn from(_: AllocFailed<T>) -> Self {
        Hitch::Memory
    }
}

/// Whether a slave is idle, and shows that it has not carried out the last command: bit 13 or 14 of control and status.
pub(crate) fn is_refusal(last: Last) -> bool {
    match last.status {
        Some(status) => last.counter == Some(1) && status < 0x80 && status >= 0x20,
        None => false,
    }
}

/// Reads or writes registers of a slave's EEPROM.
pub fn tell<W: Wire>(
    wire: &mut NumberedWire<W>,
    slave: u16,
    command: Command,
    register: u16,
    content: &[u8],
) -> Result<Reply, Hitch>
    requires slave { slave < 64 }
    requires command { (command ≡ Fprd) ⊎ (command ≡ Fpwr) }
    requires eeprom { InEeprom register (length content.now) }
    ensures lent { wire.new.is_lent ≡ wire.old.is_lent }
    ensures same { wire.new.stations ≡ wire.old.stations }
    ensures reported { IfOk result (Reported W.gives (slice_index wire.old.stations.by_slave slave) (code_of command) register content.now) }
    ensures unheard { IfOk result (Unheard W.gives wire.old.stations.by_slave (sent command 0 (address_of slave register) content.now)) }
{
    let address = fp(station_address(slave), register);
    ask(wire, command, address, content).ok_or(Hitch::Silent)
}

/// Writes to registers of a slave's EEPROM until the slave takes it, three times at most.
pub fn put<W: Wire>(
    wire: &mut NumberedWire<W>,
    slave: u16,
    register: u16,
    content: &[u8],
) -> Result<(), Hitch>
    requires slave { slave < 64 }
    requires eeprom { InEeprom register (length content.now) }
    ensures same { wire.new.stations ≡ wire.old.stations }
    ensures taken { OnOk result (Answered W.gives (slice_index wire.old.stations.by_slave slave) 5 register content.now) }
{
    let mut counter = None;
    for _try in 0..TRIES {
        let reply = tell(wire, slave, Command::Fpwr, register, content)?;
        if reply.counter == 1 {
            return Ok(());
        }
        counter = Some(reply.counter);
    }
    Err(Hitch::Stuck(Last {
        command: Command::Fpwr,
        register,
        counter,
        status: None,
    }))
}
