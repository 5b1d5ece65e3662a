//! Waiting for a word that was issued to a slave.

ghost use Rattle.std.specs.Prelude.{◌≡◌};
ghost use Rattle.site_core.specs.Line.{Owns};
ghost use Rattle.site_core.specs.declared.answers.Settled.{Settled};
ghost use Rattle.rom_steps.specs.declared.step.End.TheVariants as ends;
ghost use Rattle.esc_rom.specs.Access.{SettlesSlave};
ghost use Rattle.rom_steps.specs.Accesses.{SettlesBy};
ghost use Rattle.esc_rom.specs.Courses.{AsCourse, Takes};

use crate::driving::drive;
use rom_steps::{End, begin_settling};
use site_core::{DeviceFault, Settled, Site};

/// The outcome at the end of a settling.
fn settled_at(end: End) -> Settled
    requires { (settled : Settled) × (end ≡ ends.Settled settled) }
    ensures { end ≡ ends.Settled result }
{
    match end {
        End::Settled(settled) => settled,
        _ => unreachable!(),
    }
}

/// Waits until a slave to which a word was issued is idle, and returns whether the word is written (ETG.1000.4, slave information
/// interface). `taken` says that `issue` returned `Taken`; otherwise the answer is never `Written`.
///
/// It polls the slave up to the first poll that sees it idle. `Written`: the word is written; nothing more is sent. `Again`: it isn't known
/// to be written; the command that clears errors is sent, once. `Dead`: none of 10,000 polls saw the slave idle; nothing more is sent.
///
/// The site must own the EEPROM half of the slave.
///
/// # Errors
///
/// Only `Stopped`, if the site has stopped, or stops in this call. A power cut leaves nothing then that it couldn't have left before the
/// call.
pub fn settle<S: Site>(site: &mut S, slave: u16, taken: bool) -> Result<Settled, DeviceFault>
    requires { Owns (S.line site.old) slave }
    ensures settles { SettlesSlave (S.seen site.old) slave taken result (S.seen site.new) }
    ensures frames { Takes (AsCourse (SettlesBy slave taken)) (S.seen site.old) result (S.seen site.new) }
    ensures line { S.line site.new ≡ S.line site.old }
{
    let end = drive(site, slave, begin_settling(taken))?;
    Ok(settled_at(end))
}
