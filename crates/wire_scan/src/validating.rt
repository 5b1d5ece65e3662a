//! What is looked at once a line is found, before a word is written.
ghost use Rattle.std.specs.Prelude.{◌≡◌, ◌≤◌, length, IfErr, IfOk, OnOk};
ghost use Rattle.station_files.specs.Devices.{IsForSlave};
ghost use Rattle.wire_scan.specs.Opening.{IsOfSlaves, IsOfWire};

use line_changes::resizes;
use sii_edit::{Command, Edit};
use sii_words::{ImageFile, Plant, Words};
use station_files::{Script, validate_device};
use station_text::{ScriptCommand, ScriptEdit};
use std::alloc::{AllocError, Global};
use wire_bringup::{FoundLine, SlaveState};
use wire_faults::WireFault;

/// The words of the slaves of a line that was found, of which the line file names so many.
///
/// # Errors
///
/// `Line` for the first slave that can't be worked on; then `OtherCount` where the line has another number of slaves.
pub fn validate_slaves(
    alloc: Global,
    found: FoundLine,
    wanted: usize,
) -> Result<Vec<Words>, WireFault>
    ensures count { IfOk result (λ slaves. length slaves.items ≡ wanted) }
    ensures found { IfOk result (λ slaves. length slaves.items ≡ length found.slaves.items) }
    ensures failed { IfErr result (IsOfSlaves wanted) }
{
    let slaves = found.into_words(alloc)?;
    let count = slaves.len();
    if count == wanted {
        Ok(slaves)
    } else {
        Err(WireFault::OtherCount { slaves: count })
    }
}

/// Looks whether a run may begin on slaves in these states.
///
/// # Errors
///
/// For the first slave of so many: `Running` where it is in Safe-Operational or Operational, and `Held` where its PDI has the EEPROM or is
/// offered it.
pub fn validate_states(states: &[SlaveState], slaves: usize) -> Result<(), WireFault>
    ensures { IfErr result IsOfWire }
{
    for (slave, state) in states.iter().take(slaves).enumerate() {
        if state.is_above_preop() {
            return Err(WireFault::Running { slave });
        }
        if state.is_with_pdi() {
            return Err(WireFault::Held { slave });
        }
    }
    Ok(())
}

/// Looks whether an image is that of this slave, which has these words, as `validate_device` does.
///
/// # Errors
///
/// `OtherDevice` where it isn't, with the first of vendor, product and words that differs.
pub fn validate_image(slave: usize, words: &Words, image: &ImageFile) -> Result<(), WireFault>
    ensures { OnOk result (IsForSlave words.now image.now) }
{
    match validate_device(words, image) {
        Ok(()) => Ok(()),
        Err(why) => Err(WireFault::OtherDevice { slave, why }),
    }
}

/// Looks whether each image that a script writes is that of its slave, as `validate_image` does, unless the script says that it may replace the
/// device.
///
/// # Errors
///
/// As for `validate_image`, of the first image that isn't.
pub fn validate_images(slaves: &[Words], script: &Script) -> Result<(), WireFault> {
    for (command, spelt) in script.commands.iter().zip(&script.spelt) {
        match (command, spelt) {
            (Command::One(edit), ScriptCommand::One(spelt)) => validate_edit(slaves, edit, spelt)?,
            (Command::Group(edits), ScriptCommand::Group(spelt)) => {
                for (edit, spelt) in edits.as_slice().iter().zip(spelt) {
                    validate_edit(slaves, edit, &spelt.edit)?;
                }
            }
            (Command::Guarded(edits), ScriptCommand::Group(spelt)) => {
                for (guarded, spelt) in edits.as_slice().iter().zip(spelt) {
                    validate_edit(slaves, &guarded.edit, &spelt.edit)?;
                }
            }
            _ => {}
        }
    }
    Ok(())
}

/// The same of one edit, which is spelt so. One that names no slave of the line is refused later.
fn validate_edit(slaves: &[Words], edit: &Edit, spelt: &ScriptEdit) -> Result<(), WireFault> {
    match (edit, spelt) {
        (_, ScriptEdit::Image { replace: true, .. }) => Ok(()),
        (Edit::Image { slave, image }, _) => match slaves.get(usize::from(*slave)) {
            Some(words) => validate_image(usize::from(*slave), words, image),
            None => Ok(()),
        },
        _ => Ok(()),
    }
}

/// Looks whether the commands leave word 0x3E alone, or make it tell the size that the slave's EEPROM has. A command that is refused changes
/// nothing.
///
/// # Errors
///
/// `OtherSize` for the first command that makes it tell another size; `Memory`.
pub fn validate_commands(
    alloc: Global,
    slaves: &[Words],
    commands: &[Command],
) -> Result<(), WireFault>
    requires some { 1 ≤ length slaves.now }
    requires most { length slaves.now ≤ 64 }
{
    let plant = Plant::of(copies_of(alloc, slaves)?);
    let found = resizes(alloc, &plant, commands)?;
    match found.first() {
        Some(first) => Err(WireFault::OtherSize {
            command: first.command,
            slave: first.slave,
            words: first.says,
        }),
        None => Ok(()),
    }
}

/// A copy of the slaves' words.
///
/// # Errors
///
/// Memory was refused.
pub fn copies_of(alloc: Global, slaves: &[Words]) -> Result<Vec<Words>, AllocError>
    ensures { IfOk result (λ copies. copies.items ≡ slaves.now) }
{
    let mut copies = Vec::new(alloc);
    for words in slaves {
        copies.push(words.try_copy()?)?;
    }
    Ok(copies)
}
