//! The commands that make word 0x3E say another size.
ghost use Rattle.std.specs.Prelude.{◌≡◌, ◌++◌, IfOk, OnOk};
ghost use Rattle.sii_edit.specs.Fold.{after};
ghost use Rattle.line_changes.specs.Size.{is_resized, resize_of, resizes_between, resizes_of, says_other, size_said};

use sii_edit::{Cause, Command, apply};
use sii_words::{MAX_WORDS, Plant, Words};
use std::alloc::{AllocError, Global};

/// A command makes word 0x3E of a slave say another size than the slave's EEPROM has.
#[derive(Clone, Copy)]
pub struct Resize {
    /// The command's place in its list, from 0.
    pub command: usize,
    /// The slave's position on the line, from 0.
    pub slave: usize,
    /// So many words are there by word 0x3E from then on: 64 to 4,194,304.
    pub says: u32,
    /// So many words the EEPROM has: 64 to 4,096.
    pub has: usize,
}

/// Where these commands, carried out in order on these contents, give word 0x3E of a slave another value, so that it says another size
/// than the slave has: by rising place of the command, then by slave. A command that is refused changes nothing. Word 0x3E of an EEPROM
/// with 4,096 words may say any size from there on, since the words may be the first ones of a larger EEPROM.
pub fn resizes(alloc: Global, base: &Plant, commands: &[Command]) -> Result<Vec<Resize>, AllocError>
    ensures { IfOk result (λ found. found.items ≡ resizes_of base.now commands.now) }
{
    let mut found = Vec::new(alloc);
    let mut plant = base.try_copy()?;
    for command in 0..commands.len() {
        let next = after(alloc, &plant, &commands[command])?;
        note_command(&mut found, command, &plant, &next)?;
        plant = next;
    }
    Ok(found)
}

/// The contents after a command; the same contents if it is refused.
fn after(alloc: Global, plant: &Plant, command: &Command) -> Result<Plant, AllocError>
    ensures { IfOk result (λ next. next ≡ after plant.now command.now) }
{
    match apply(alloc, plant, command) {
        Ok((next, _runs)) => Ok(next),
        Err(refusal) if refusal.cause == Cause::Memory => Err(AllocError {}),
        Err(_) => plant.try_copy(),
    }
}

/// Notes the slaves whose size the command at this place changed, which turned the contents `old` into `new`.
fn note_command(
    found: &mut Vec<Resize>,
    command: usize,
    old: &Plant,
    new: &Plant,
) -> Result<(), AllocError>
    ensures { OnOk result (found.new.items ≡ found.old.items ++ resizes_between command old.now new.now) }
{
    for slave in 0..old.len().min(new.len()) {
        note_slave(found, command, slave, old.slave(slave), new.slave(slave))?;
    }
    Ok(())
}

/// Notes a slave if the command at this place changed its size, which turned the words `old` into `new`.
fn note_slave(
    found: &mut Vec<Resize>,
    command: usize,
    slave: usize,
    old: &Words,
    new: &Words,
) -> Result<(), AllocError>
    ensures { OnOk result (found.new.items ≡ found.old.items ++ resize_of command slave old.now new.now) }
{
    if !is_resized(old, new) {
        return Ok(());
    }
    found.push(Resize {
        command,
        slave,
        says: size_said(new),
        has: new.len(),
    })?;
    Ok(())
}

/// The word that states the size of an EEPROM in KiBit, less one (ETG.1000.6, slave information interface).
const SIZE_WORD: usize = 0x3e;

/// So many words are there by word 0x3E: 64 to 4,194,304.
fn size_said(words: &Words) -> u32
    ensures { result ≡ size_said words.now }
{
    let _size = words.len();
    64 * (u32::from(words.get(SIZE_WORD)) + 1)
}

/// Whether word 0x3E says another size than these words have. An EEPROM with more words than are worked on may say any size from there on.
fn says_other(words: &Words) -> bool
    ensures { result ≡ says_other words.now }
{
    (size_said(words) as usize).min(MAX_WORDS) != words.len()
}

/// Whether word 0x3E gets another value, and then says another size than these words have.
fn is_resized(old: &Words, new: &Words) -> bool
    ensures { result ≡ is_resized old.now new.now }
{
    let _size = (old.len(), new.len());
    old.get(SIZE_WORD) != new.get(SIZE_WORD) && says_other(new)
}
