//! Issuing a word: sending the command that writes it.

ghost use Rattle.std.specs.Prelude.{◌≡◌};
ghost use Rattle.site_core.specs.Line.{Owns};
ghost use Rattle.site_core.specs.declared.answers.Issued.{Issued};
ghost use Rattle.rom_steps.specs.declared.step.End.TheVariants as ends;
ghost use Rattle.esc_rom.specs.Access.{IssuesWord};
ghost use Rattle.rom_steps.specs.Accesses.{IssuesBy};
ghost use Rattle.esc_rom.specs.Courses.{AsCourse, Takes};

use crate::driving::drive;
use rom_steps::{End, begin_issue};
use site_core::{DeviceFault, Issued, Site};

/// The outcome at the end of an issue.
fn issued_at(end: End) -> Issued
    requires { (issued : Issued) × (end ≡ ends.Issued issued) }
    ensures { end ≡ ends.Issued result }
{
    match end {
        End::Issued(issued) => issued,
        _ => unreachable!(),
    }
}

/// Sends a slave the command to write one word of its EEPROM (ETG.1000.4, slave information interface), once: one frame with one
/// datagram, of index 0.
///
/// `settle` waits until the word is written. The site must own the EEPROM half of the slave.
///
/// # Errors
///
/// Only `Stopped`, if the site has stopped, or stops in this call. That word may hold anything then. Of all other words a power cut
/// leaves what it could have left before the call: a word that was in flight may still hold anything. A lost frame is no error here, but
/// the answer `Lost`.
pub fn issue<S: Site>(
    site: &mut S,
    slave: u16,
    word: u16,
    value: u16,
) -> Result<Issued, DeviceFault>
    requires { Owns (S.line site.old) slave }
    ensures issues { IssuesWord (S.seen site.old) slave word value result (S.seen site.new) }
    ensures frames { Takes (AsCourse (IssuesBy slave word value)) (S.seen site.old) result (S.seen site.new) }
    ensures line { S.line site.new ≡ S.line site.old }
{
    let end = drive(site, slave, begin_issue(word, value))?;
    Ok(issued_at(end))
}
