//! One datagram in one frame, through the process halves of all slaves.

ghost use Rattle.std.specs.Prelude.{◌≡◌, length, IsTrue};
ghost use Rattle.cyclic.specs.Exchange.{Exchanges};

use crate::fault::CycleFault;
use ecat_frame::Frame;
use site_core::{DeviceFault, Site};

/// Sends a frame of one datagram, and compares the working counter that comes back with the expected one.
pub(crate) fn exchange<S: Site>(
    site: &mut S,
    frame: &mut Frame,
    expected: u16,
) -> Result<(), CycleFault>
    requires process { IsTrue (S.line site.old).has_process }
    requires one { length frame.old ≡ 1 }
    ensures exchanges { Exchanges expected frame.old (S.seen site.old) result frame.new (S.seen site.new) }
    ensures line { S.line site.new ≡ S.line site.old }
{
    match site.cycle(frame) {
        Ok(()) => {}
        Err(DeviceFault::Lost) => return Err(CycleFault::Lost),
        Err(DeviceFault::Stopped) => return Err(CycleFault::Stopped),
        Err(DeviceFault::Disk) => unreachable!(),
    }
    let seen = frame.datagram(0).counter;
    if seen != expected {
        return Err(CycleFault::WrongCounter { seen, expected });
    }
    Ok(())
}
