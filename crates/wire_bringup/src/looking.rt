//! What the slaves of a line are in, before their EEPROMs are taken.
ghost use Rattle.std.specs.Prelude.{◌≡◌, ◌<◌, ◌≤◌, IfOk};
ghost use Rattle.wire_bringup.specs.States.{Looked, StatusLooked, StateLooked, AllLooked};

use crate::addresses::{count_slaves, settle_addresses};
use crate::found::SlaveState;
use ecat_frame::{Command, fp};
use esc_model::station_address;
use rom_steps::ACCESS;
use wire_frames::{AL_STATUS, LineFault, NumberedWire, Wire, ask};
use wire_words::{Hitch, tell};

/// Reads AL status of a slave. None where it doesn't answer, or the wire is lent and so it isn't asked.
fn read_al_status<W: Wire>(wire: &mut NumberedWire<W>, slave: u16) -> Result<Option<u16>, Hitch>
    requires { slave < 64 }
    ensures same { wire.new.stations ≡ wire.old.stations }
    ensures lent { wire.new.is_lent ≡ wire.old.is_lent }
    ensures read { IfOk result (StatusLooked W.gives wire.old.stations.by_slave wire.old.is_lent slave) }
{
    if wire.is_lent() {
        return Ok(None);
    }
    let address = fp(station_address(slave), AL_STATUS);
    match ask(wire, Command::Fprd, address, &[0, 0]) {
        Some(reply) => Ok(reply.word()),
        None => Err(Hitch::Silent),
    }
}

/// Reads who has the EEPROM of a slave: 0x0500 and 0x0501. None where it isn't the only one that counts the datagram.
pub(crate) fn read_access<W: Wire>(
    wire: &mut NumberedWire<W>,
    slave: u16,
) -> Result<Option<u16>, Hitch>
    requires { slave < 64 }
    ensures lent { wire.new.is_lent ≡ wire.old.is_lent }
    ensures same { wire.new.stations ≡ wire.old.stations }
    ensures read { IfOk result (Looked W.gives wire.old.stations.by_slave slave 0x0500) }
{
    let reply = tell(wire, slave, Command::Fprd, ACCESS, &[0, 0])?;
    Ok(reply.word())
}

/// What a slave is in, before its EEPROM is taken.
fn look_at<W: Wire>(wire: &mut NumberedWire<W>, slave: u16) -> Result<SlaveState, Hitch>
    requires { slave < 64 }
    ensures same { wire.new.stations ≡ wire.old.stations }
    ensures lent { wire.new.is_lent ≡ wire.old.is_lent }
    ensures looked { IfOk result (StateLooked W.gives wire.old.stations.by_slave wire.old.is_lent slave) }
{
    let al_status = read_al_status(wire, slave)?;
    let access = read_access(wire, slave)?;
    Ok(SlaveState { al_status, access })
}

/// What so many slaves are in.
fn look_at_all<W: Wire>(
    wire: &mut NumberedWire<W>,
    slaves: u16,
) -> Result<[SlaveState; 64], LineFault>
    requires { slaves ≤ 64 }
    ensures same { wire.new.stations ≡ wire.old.stations }
    ensures lent { wire.new.is_lent ≡ wire.old.is_lent }
    ensures looked { IfOk result (AllLooked W.gives wire.old.stations.by_slave wire.old.is_lent slaves) }
{
    let mut states = [SlaveState::unknown(); 64];
    for slave in 0..slaves {
        let Ok(state) = look_at(wire, slave) else {
            return Err(LineFault::Silent);
        };
        states[usize::from(slave)] = state;
    }
    Ok(states)
}

/// What the slaves of a line are in, before their EEPROMs are taken.
#[derive(Clone, Copy)]
pub struct LineStates {
    /// How many slaves there are, 1 to 64.
    pub slaves: u16,
    /// What each is in, in the order of the line. Nothing is known after the last one.
    pub states: [SlaveState; 64],
}

/// Looks what the slaves of a line are in: counts them, and settles their station addresses, as `bring_up` does. No EEPROM is taken.
///
/// # Errors
///
/// As for `bring_up`, but for those of a slave that can't be worked on.
pub fn look_along<W: Wire>(wire: &mut NumberedWire<W>) -> Result<LineStates, LineFault>
    ensures some { IfOk result (λ line. 1 ≤ line.slaves) }
    ensures most { IfOk result (λ line. line.slaves ≤ 64) }
    ensures looked { IfOk result (λ line. AllLooked W.gives wire.new.stations.by_slave wire.new.is_lent line.slaves line.states) }
{
    let slaves = count_slaves(wire)?;
    settle_addresses(wire, slaves)?;
    let states = look_at_all(wire, slaves)?;
    Ok(LineStates { slaves, states })
}
