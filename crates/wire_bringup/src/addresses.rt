//! Counting the slaves of a line, and settling their station addresses.
ghost use Rattle.std.specs.Prelude.{◌≡◌, ◌<◌, ◌≤◌, false, IfOk};

use ecat_frame::fp;
use esc_model::station_address;
use rom_steps::TRIES;
use wire_frames::{
    APRD, APWR, BWR, DL_ALIAS, Last, LineFault, NumberedWire, STATION, SlaveFault, Stations, Wire,
    ask, count_answers, read_station, sight,
};

/// How many slaves take a broadcast: 1 to 64.
pub(crate) fn count_slaves<W: Wire>(wire: &mut NumberedWire<W>) -> Result<u16, LineFault>
    ensures count { IfOk result (λ slaves. (1 ≤ slaves) × (slaves ≤ 64)) }
    ensures lent { wire.new.is_lent ≡ wire.old.is_lent }
{
    match count_answers(wire) {
        None => Err(LineFault::Silent),
        Some(reply) => match reply.counter {
            0 => Err(LineFault::NoSlaves),
            slaves if slaves > 64 => Err(LineFault::TooManySlaves { slaves }),
            slaves => Ok(slaves),
        },
    }
}

/// All slaves answer to their station addresses alone, and not to their aliases.
fn leave_aliases<W: Wire>(wire: &mut NumberedWire<W>) -> Result<(), LineFault>
    requires own { wire.old.is_lent ≡ false }
    ensures own { wire.new.is_lent ≡ false }
{
    match ask(wire, BWR, fp(0, DL_ALIAS), &[0]) {
        Some(_) => Ok(()),
        None => Err(LineFault::Silent),
    }
}

/// Gives the slave at this place of the line its station address. One that doesn't take it is found later.
fn give_address<W: Wire>(wire: &mut NumberedWire<W>, slave: u16) -> Result<(), LineFault>
    requires slave { slave < 64 }
    requires own { wire.old.is_lent ≡ false }
    ensures own { wire.new.is_lent ≡ false }
{
    let place = 0u16.wrapping_sub(slave);
    let station = station_address(slave).to_le_bytes();
    for _try in 0..TRIES {
        match ask(wire, APWR, fp(place, STATION), &station) {
            Some(reply) if reply.counter == 1 => return Ok(()),
            Some(_) => {}
            None => return Err(LineFault::Silent),
        }
    }
    Ok(())
}

/// Gives each of so many slaves its station address.
fn give_addresses<W: Wire>(wire: &mut NumberedWire<W>, slaves: u16) -> Result<(), LineFault>
    requires slaves { slaves ≤ 64 }
    requires own { wire.old.is_lent ≡ false }
    ensures own { wire.new.is_lent ≡ false }
{
    leave_aliases(wire)?;
    for slave in 0..slaves {
        give_address(wire, slave)?;
    }
    Ok(())
}

/// Reads the station address that the master gave the slave at this place of the line.
fn found_address<W: Wire>(wire: &mut NumberedWire<W>, slave: u16) -> Result<u16, LineFault> {
    let mut counter = 0;
    for _try in 0..TRIES {
        let Some(reply) = read_station(wire, slave) else {
            return Err(LineFault::Silent);
        };
        if let Some(station) = reply.word() {
            return Ok(station);
        }
        counter = reply.counter;
    }
    let last = Last {
        command: APRD,
        register: STATION,
        counter: Some(counter),
        status: None,
    };
    let why = SlaveFault::Dead(sight(wire, slave, last));
    Err(LineFault::Slave { slave, why })
}

/// Reads the station addresses of so many slaves, which have to be there and apart, and reaches the slaves by them from then on.
fn find_addresses<W: Wire>(wire: &mut NumberedWire<W>, slaves: u16) -> Result<(), LineFault>
    requires { slaves ≤ 64 }
{
    let mut stations = Stations::unknown();
    for slave in 0..slaves {
        stations.set(slave, found_address(wire, slave)?);
    }
    stations.validate(slaves)?;
    wire.address_by(stations);
    Ok(())
}

/// The slaves get station addresses, or keep those that they have on a wire that is lent.
pub(crate) fn settle_addresses<W: Wire>(
    wire: &mut NumberedWire<W>,
    slaves: u16,
) -> Result<(), LineFault>
    requires { slaves ≤ 64 }
{
    if wire.is_lent() {
        find_addresses(wire, slaves)
    } else {
        give_addresses(wire, slaves)
    }
}
