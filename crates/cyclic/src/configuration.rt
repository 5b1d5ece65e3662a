//! Configuring the FMMUs and sync managers of a line for a process image.

ghost use Rattle.std.specs.Prelude.{◌≡◌, ◌∷◌, ◌+◌, ◌<◌, ◌≤◌, [], length, IsTrue};
ghost use Rattle.cyclic.specs.Configuration.{write_to, no_fmmus, segment_orders, slave_orders, configuring, reconfiguring};
ghost use Rattle.cyclic.specs.Sending.{SendsInOrder};

use crate::comparison::has_same_segments;
use crate::exchange::exchange;
use crate::fault::CycleFault;
use crate::registers::{FMMU_COUNT, FMMUS, SYNC_MANAGERS, fmmu_bytes, manager_bytes};
use ecat_frame::{Command, Frame, fp};
use esc_model::station_address;
use sii_image::{Plan, Segment};
use site_core::Site;

/// Writes bytes to the registers of a slave from `register` on, by one FPWR.
fn write<S: Site>(site: &mut S, slave: u16, register: u16, bytes: &[u8]) -> Result<(), CycleFault>
    requires process { IsTrue (S.line site.old).has_process }
    requires slave { slave < 64 }
    requires short { length bytes.now ≤ 128 }
    ensures sends { SendsInOrder (write_to slave register bytes.now ∷ []) (S.seen site.old) result (S.seen site.new) }
    ensures line { S.line site.new ≡ S.line site.old }
{
    let mut frame = Frame::new();
    match frame.push(
        Command::Fpwr,
        0,
        fp(station_address(slave), register),
        bytes,
    ) {
        Ok(()) => {}
        Err(_) => unreachable!(),
    }
    exchange(site, &mut frame, 1)
}

/// Clears all FMMUs of a slave.
#[tactic(auto, unfolding(crate::specs::Configuration::no_fmmus))]
fn clear_fmmus<S: Site>(site: &mut S, slave: u16) -> Result<(), CycleFault>
    requires process { IsTrue (S.line site.old).has_process }
    requires slave { slave < 64 }
    ensures sends { SendsInOrder (write_to slave 0x0600 no_fmmus ∷ []) (S.seen site.old) result (S.seen site.new) }
    ensures line { S.line site.new ≡ S.line site.old }
{
    write(site, slave, FMMUS, &[0u8; 128])
}

/// Sets the sync manager of a segment, and the FMMU `unit` for it.
fn configure_segment<S: Site>(
    site: &mut S,
    slave: u16,
    unit: u16,
    segment: &Segment,
) -> Result<(), CycleFault>
    requires process { IsTrue (S.line site.old).has_process }
    requires slave { slave < 64 }
    requires unit { unit < 8 }
    ensures sends { SendsInOrder (segment_orders slave (unit, segment.now)) (S.seen site.old) result (S.seen site.new) }
    ensures line { S.line site.new ≡ S.line site.old }
{
    let manager = SYNC_MANAGERS + 8 * u16::from(segment.manager);
    write(site, slave, manager, &manager_bytes(segment))?;
    write(site, slave, FMMUS + 16 * unit, &fmmu_bytes(segment))
}

/// Clears the FMMUs of a slave, and sets its sync managers and FMMUs for its segments.
fn configure_slave<S: Site>(
    site: &mut S,
    slave: u16,
    segments: &[Segment],
) -> Result<(), CycleFault>
    requires process { IsTrue (S.line site.old).has_process }
    requires slave { slave < 64 }
    ensures sends { SendsInOrder (slave_orders segments.now slave) (S.seen site.old) result (S.seen site.new) }
    ensures line { S.line site.new ≡ S.line site.old }
{
    clear_fmmus(site, slave)?;
    let mut unit = 0;
    for segment in segments {
        if segment.slave == slave && unit < FMMU_COUNT {
            configure_segment(site, slave, unit, segment)?;
            unit += 1;
        }
    }
    Ok(())
}

/// Configures the FMMUs and sync managers (ETG.1000.4) of all slaves for the process image of a plan: for each slave it clears all FMMUs
/// (128 zero bytes), and then sets a sync manager and an FMMU for each of its first eight segments. Each datagram goes in a frame of its
/// own.
///
/// The site must own the process halves.
///
/// # Errors
///
/// The first fault ends the call, and nothing more is sent: `Stopped` if the site has stopped, or stops in this call; `Lost` if a frame
/// is lost; `WrongCounter` if a datagram doesn't come back with a working counter of 1.
pub fn configure<S: Site>(site: &mut S, plan: &Plan) -> Result<(), CycleFault>
    requires { IsTrue (S.line site.old).has_process }
    ensures sends { SendsInOrder (configuring (length (S.line site.old).sizes) plan.now.image.segments) (S.seen site.old) result (S.seen site.new) }
    ensures line { S.line site.new ≡ S.line site.old }
{
    for slave in 0..site.slaves() {
        configure_slave(site, slave, plan.image.segments())?;
    }
    Ok(())
}

/// Changes a line that is configured for the old plan to the new one (ETG.1000.4: FMMUs, sync managers): does what `configure` does for
/// the slaves whose segments differ, and sends nothing to the others. If a slave has no segment any more, its FMMUs are cleared.
///
/// The site must own the process halves.
///
/// # Errors
///
/// As for `configure`.
pub fn reconfigure<S: Site>(site: &mut S, old: &Plan, new: &Plan) -> Result<(), CycleFault>
    requires { IsTrue (S.line site.old).has_process }
    ensures sends { SendsInOrder (reconfiguring (length (S.line site.old).sizes) old.now.image.segments new.now.image.segments)
        (S.seen site.old) result (S.seen site.new) }
    ensures line { S.line site.new ≡ S.line site.old }
{
    for slave in 0..site.slaves() {
        if !has_same_segments(slave, old.image.segments(), new.image.segments()) {
            configure_slave(site, slave, new.image.segments())?;
        }
    }
    Ok(())
}
