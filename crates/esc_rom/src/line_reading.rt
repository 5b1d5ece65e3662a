//! Opening and reading all slaves.

ghost use Rattle.std.specs.Prelude.{◌≡◌, ◌<◌, length, slice_index, IfErr};
ghost use Rattle.esc_rom.specs.Owned.{OwnsAll};
ghost use Rattle.esc_rom.specs.Reading.{ReadsSlave, ReadsInParts, ReadsLine, KeepsFirst};
ghost use Rattle.esc_rom.specs.Courses.{Takes};
ghost use Rattle.esc_rom.specs.Sent.{ReadsSlaveBy, ReadsLineBy};

use crate::{RomFault, open_slave, read_all};
use sii_words::Words;
use site_core::Site;
use std::alloc::Global;

/// Opens a slave, and reads its words.
fn read_slave<S: Site>(alloc: Global, site: &mut S, slave: u16) -> Result<Words, RomFault>
    requires slaves { OwnsAll (S.line site.old) }
    requires inside { slave < length (S.line site.old).sizes }
    ensures reads { ReadsSlave slave (slice_index (S.line site.old).sizes slave) (S.seen site.old) result (S.seen site.new) }
    ensures parts { ReadsInParts slave (slice_index (S.line site.old).sizes slave) (S.seen site.old) result (S.seen site.new) }
    ensures frames { Takes (ReadsSlaveBy slave (slice_index (S.line site.old).sizes slave)) (S.seen site.old) result (S.seen site.new) }
    ensures line { S.line site.new ≡ S.line site.old }
{
    open_slave(site, slave)?;
    read_all(alloc, site, slave)
}

/// Opens and reads every slave of the line, one after another (ETG.1000.4, slave information interface). Returns their words in the
/// order of the line.
///
/// Afterwards no slave is busy, and a power cut leaves just these words. The site must own every slave.
///
/// # Errors
///
/// The first fault that occurs: `SlaveDead` for the first slave that can't be opened or read, as for `open_slave` and `read_all`, once
/// those before it were opened and read; `Stopped` once the site has stopped; `Memory`, after some slaves that were read, and perhaps one
/// that was opened. A power cut leaves nothing that it couldn't leave before.
pub fn read_slaves<S: Site>(alloc: Global, site: &mut S) -> Result<Vec<Words>, RomFault>
    requires { OwnsAll (S.line site.old) }
    ensures reads { ReadsLine (λ plant. plant.items) (S.line site.old).sizes (S.seen site.old) result (S.seen site.new) }
    ensures kept { IfErr result (λ fault. KeepsFirst (S.line site.old).sizes (S.seen site.old) fault (S.seen site.new)) }
    ensures frames { Takes (ReadsLineBy (S.line site.old).sizes) (S.seen site.old) result (S.seen site.new) }
    ensures line { S.line site.new ≡ S.line site.old }
{
    let mut plant = Vec::new(alloc);
    for slave in 0..site.slaves() {
        plant.push(read_slave(alloc, site, slave)?)?;
    }
    Ok(plant)
}
