//! Reading all words of a slave.

ghost use Rattle.std.specs.Prelude.{◌≡◌, ◌+◌, ◌*◌, ◌/◌, length, slice_index, IfOk, IfErr};
ghost use Rattle.sii_words.specs.Words.{IsDeviceSize};
ghost use Rattle.site_core.specs.Line.{Owns};
ghost use Rattle.rom_steps.specs.Accesses.{WaitsBy, ReadsPairBy};
ghost use Rattle.esc_rom.specs.Runs.{Performs, Waited};
ghost use Rattle.esc_rom.specs.WordPairs.{ReadsPair, ReadsAll};
ghost use Rattle.esc_rom.specs.Access.{ReadsWords};
ghost use Rattle.esc_rom.specs.Courses.{Takes};
ghost use Rattle.esc_rom.specs.Sent.{FillsBy, ReadsAllBy};
ghost use Rattle.esc_rom.specs.Driving.{rest_at, words_at};

use crate::driving::drive;
use crate::fault::RomFault;
use rom_steps::{End, Rested, Stop, WordPair, begin_reading, begin_waiting};
use sii_words::{Words, WordsFault};
use site_core::Site;
use std::alloc::Global;

/// What a waiting has seen. None if the slave was given up.
fn rest_at(end: End) -> Option<Rested>
    ensures { result ≡ rest_at end }
{
    match end {
        End::Idle(rested) => Some(rested),
        _ => None,
    }
}

/// Polls a slave until it is seen idle. None if it isn't in 10,000 polls.
fn wait_idle<S: Site>(site: &mut S, slave: u16) -> Result<Option<Rested>, Stop>
    requires { Owns (S.line site.old) slave }
    ensures runs { Performs (Waited (S.seen site.old) slave (S.seen site.new)) (S.seen site.old) slave 10000 result (S.seen site.new) }
    ensures frames { Takes (WaitsBy slave) (S.seen site.old) result (S.seen site.new) }
    ensures line { S.line site.new ≡ S.line site.old }
{
    let end = drive(site, slave, begin_waiting())?;
    Ok(rest_at(end))
}

/// The words at the end of a reading. None if the slave was given up.
fn words_at(end: End) -> Option<WordPair>
    ensures { result ≡ words_at end }
{
    match end {
        End::Read { first, second } => Some(WordPair { first, second }),
        _ => None,
    }
}

/// Reads a word and the next one, in at most three tries. None if the slave is given up.
fn read_pair<S: Site>(site: &mut S, slave: u16, word: u16) -> Result<Option<WordPair>, Stop>
    requires { Owns (S.line site.old) slave }
    ensures runs { Performs (ReadsPair (S.seen site.old) slave word (S.seen site.new)) (S.seen site.old) slave 30006 result (S.seen site.new) }
    ensures frames { Takes (ReadsPairBy slave word) (S.seen site.old) result (S.seen site.new) }
    ensures line { S.line site.new ≡ S.line site.old }
{
    let end = drive(site, slave, begin_reading(word))?;
    Ok(words_at(end))
}

/// Waits until a slave is idle, and replaces `words` by the slave's words, read two by two. Returns whether all were read.
fn wait_and_fill<S: Site>(site: &mut S, slave: u16, words: &mut Words) -> Result<bool, Stop>
    requires { Owns (S.line site.old) slave }
    ensures runs { Performs (ReadsAll (S.seen site.old) slave (S.seen site.new) words.new) (S.seen site.old) slave
        (10000 + 30006 * (length words.old / 2)) result (S.seen site.new) }
    ensures length { length words.new ≡ length words.old }
    ensures frames { Takes (FillsBy slave (length words.old)) (S.seen site.old) result (S.seen site.new) }
    ensures line { S.line site.new ≡ S.line site.old }
{
    let Some(_rested) = wait_idle(site, slave)? else {
        return Ok(false);
    };
    for pair in 0..words.len() / 2 {
        let Some(found) = read_pair(site, slave, (2 * pair) as u16)? else {
            return Ok(false);
        };
        words.set(2 * pair, found.first);
        words.set(2 * pair + 1, found.second);
    }
    Ok(true)
}

/// This number of words, all 0.
fn blank(alloc: Global, count: u16) -> Result<Words, RomFault>
    requires { IsDeviceSize count }
    ensures count { IfOk result (λ words. length words ≡ count) }
    ensures memory { IfErr result (λ fault. fault ≡ RomFault.Memory) }
{
    let bytes = vec![in alloc; 0u8; 2 * count as usize]?;
    match Words::from_bytes(alloc, &bytes) {
        Ok(words) => Ok(words),
        Err(WordsFault::Memory) => Err(RomFault::Memory),
        Err(_) => unreachable!(),
    }
}

/// Waits until a slave is idle, and reads all words of its EEPROM, two by two (ETG.1000.4, slave information interface). Each try to read
/// two words sends the command to read them. Each datagram goes in a frame of its own, with index 0. The site must own the EEPROM half of
/// the slave.
///
/// # Errors
///
/// `Memory` if memory is refused; nothing was sent then. `Stopped` if the site has stopped, or stops in this call. `SlaveDead` if the
/// slave isn't seen idle in 10,000 polls in a row, or two words can't be read in three tries. In all cases a power cut leaves nothing
/// that it couldn't have left before the call.
pub fn read_all<S: Site>(alloc: Global, site: &mut S, slave: u16) -> Result<Words, RomFault>
    requires { Owns (S.line site.old) slave }
    ensures reads { ReadsWords (S.seen site.old) slave (slice_index (S.line site.old).sizes slave) result (S.seen site.new) }
    ensures frames { Takes (ReadsAllBy slave (slice_index (S.line site.old).sizes slave)) (S.seen site.old) result (S.seen site.new) }
    ensures line { S.line site.new ≡ S.line site.old }
{
    let mut words = blank(alloc, site.words_of(slave))?;
    if wait_and_fill(site, slave, &mut words)? {
        return Ok(words);
    }
    Err(RomFault::SlaveDead { slave })
}
