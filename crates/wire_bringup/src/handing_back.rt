//! Handing EEPROMs back as they were found.
ghost use Rattle.std.specs.Prelude.{◌≡◌, ◌<◌};
ghost use Rattle.wire_bringup.specs.Handing.{IsHanded, IsWritten, AllHanded};

use crate::found::SlaveState;
use ecat_frame::Command;
use rom_steps::{ACCESS, TRIES};
use wire_frames::{Handed, NumberedWire, Wire};
use wire_words::tell;

/// Writes these bits of 0x0500 of a slave once.
fn write_access<W: Wire>(wire: &mut NumberedWire<W>, slave: u16, access: u8) -> Handed
    requires { slave < 64 }
    ensures same { wire.new.stations ≡ wire.old.stations }
    ensures written { IsWritten W.gives wire.old.stations.by_slave slave access result }
{
    match tell(wire, slave, Command::Fpwr, ACCESS, &[access]) {
        Ok(reply) if reply.counter == 1 => Handed::Back,
        Ok(_) => Handed::Uncounted,
        Err(_) => Handed::Silent,
    }
}

/// Writes these bits of 0x0500 of a slave until it takes them, three times at most.
fn put_back<W: Wire>(wire: &mut NumberedWire<W>, slave: u16, access: u8) -> Handed
    requires { slave < 64 }
    ensures same { wire.new.stations ≡ wire.old.stations }
    ensures written { IsWritten W.gives wire.old.stations.by_slave slave access result }
{
    let mut handed = Handed::Silent;
    for _try in 0..TRIES {
        handed = write_access(wire, slave, access);
        if handed != Handed::Uncounted {
            return handed;
        }
    }
    handed
}

/// Hands the EEPROM of a slave back that was found in this state. Where the line is silent nothing is sent.
fn hand_one_back<W: Wire>(
    wire: &mut NumberedWire<W>,
    slave: u16,
    state: SlaveState,
    is_silent: bool,
) -> Handed
    requires { slave < 64 }
    ensures same { wire.new.stations ≡ wire.old.stations }
    ensures handed { IsHanded W.gives wire.old.stations.by_slave slave state result }
{
    match state.access_to_restore() {
        None => Handed::Nothing,
        Some(_) if is_silent => Handed::Silent,
        Some(access) => put_back(wire, slave, access),
    }
}

/// Hands the EEPROMs of a line back as they were found: bits 0 and 1 of 0x0500 of each slave are written as they were, where they were read
/// and one of them was set. A slave that doesn't take it is tried three times, and then passed over; once no frame comes back, none is sent.
/// What became of each is kept with the wire (`NumberedWire::handed`).
pub fn hand_back<W: Wire>(wire: &mut NumberedWire<W>, states: &[SlaveState; 64])
    ensures same { wire.new.stations ≡ wire.old.stations }
    ensures handed { AllHanded W.gives wire.old.stations.by_slave 64 states.now wire.new.handed }
{
    let mut handed = [Handed::Nothing; 64];
    let mut is_silent = false;
    for slave in 0..64u16 {
        let state = states[usize::from(slave)];
        let one = hand_one_back(wire, slave, state, is_silent);
        is_silent = is_silent || one == Handed::Silent;
        handed[usize::from(slave)] = one;
    }
    wire.keep_handed(handed);
}
