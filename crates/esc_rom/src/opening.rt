//! Opening a slave's EEPROM.

ghost use Rattle.std.specs.Prelude.{◌≡◌};
ghost use Rattle.site_core.specs.Line.{Owns};
ghost use Rattle.esc_rom.specs.Access.{OpensSlave};
ghost use Rattle.esc_rom.specs.Courses.{Takes};
ghost use Rattle.esc_rom.specs.Sent.{OpensSlaveBy};
ghost use Rattle.esc_rom.specs.Driving.{is_open};

use crate::driving::drive;
use crate::fault::RomFault;
use rom_steps::{End, begin_opening};
use site_core::Site;

/// Whether an opening ended with the slave open.
fn is_open(end: End) -> bool
    ensures { result ≡ is_open end }
{
    match end {
        End::Opened => true,
        _ => false,
    }
}

/// Opens the EEPROM of a slave for word access (ETG.1000.4, slave information interface): takes it from the PDI, waits until the slave
/// is idle, and clears its errors. Afterwards it is idle without an error. Each datagram goes in a frame of its own, with index 0. The site
/// must own the EEPROM half of the slave.
///
/// # Errors
///
/// `Stopped` if the site has stopped, or stops in this call. `SlaveDead` if a datagram was sent three times and not counted, or the slave
/// isn't seen idle in 10,000 polls. In both cases a power cut leaves nothing that it couldn't have left before the call.
pub fn open_slave<S: Site>(site: &mut S, slave: u16) -> Result<(), RomFault>
    requires { Owns (S.line site.old) slave }
    ensures opens { OpensSlave (S.seen site.old) slave result (S.seen site.new) }
    ensures frames { Takes (OpensSlaveBy slave) (S.seen site.old) result (S.seen site.new) }
    ensures line { S.line site.new ≡ S.line site.old }
{
    let end = drive(site, slave, begin_opening())?;
    if is_open(end) {
        return Ok(());
    }
    Err(RomFault::SlaveDead { slave })
}
