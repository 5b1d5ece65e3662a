//! How large the EEPROM of a slave is.
ghost use Rattle.std.specs.Prelude.{◌≡◌, ◌<◌, ◌≤◌, slice_index, IfOk};
ghost use Rattle.wire_words.specs.Words.{BlockCame};
ghost use Rattle.wire_words.specs.Reading.{AllKept};

use crate::ahead::{Ahead, kept_of, words_at};
use crate::reading::read_in_tries;
use crate::telling::{Hitch, is_refusal};
use std::rt::Clock;
use wire_frames::{NumberedWire, SlaveFault, Wire};

/// The most words of an EEPROM that are worked on.
const MOST: u16 = 4096;

/// How often a read of words is tried that the chip may not have. With the pauses between, that takes 0.11 seconds.
const PROBES: u32 = 16;

/// Where a chip may begin to repeat: sizes of chips are powers of two.
const STARTS: [u16; 7] = [64, 128, 256, 512, 1024, 2048, 4096];

/// Words 0 to 63, in pairs.
type Block = [[u8; 4]; 32];

/// How large a chip is, as far as reading its words up to word 4,096 tells.
#[derive(Clone, Copy, PartialEq, Eq)]
pub enum Extent {
    /// Its words repeat from this one on, so it has so many. A larger chip whose contents repeat looks the same.
    Repeats(u16),
    /// Reading this word ends in an error, so it has so many: a slave that emulates its EEPROM.
    EndsAt(u16),
    /// There is no repeat up to word 4,096.
    Open,
    /// All words that were compared are alike, as in a blank chip, so it can't be told.
    Uniform,
}

impl Extent {
    /// The number of words, where it can be told.
    pub fn sure(self) -> Option<u16> {
        match self {
            Extent::Repeats(words) | Extent::EndsAt(words) => Some(words),
            Extent::Open | Extent::Uniform => None,
        }
    }
}

/// The size of a slave's EEPROM.
#[derive(Clone, Copy, PartialEq, Eq)]
pub struct SizeFound {
    /// So many words are worked on: 64 to 4,096, a multiple of 64.
    pub words: u16,
    /// So many are there by word 0x3E: 64 times the word and one.
    pub says: u32,
    /// What was found.
    pub extent: Extent,
    /// The chip has more than 4,096 words, as far as can be told. The first 4,096 are worked on.
    pub is_larger: bool,
}

/// The words of a block of 64 words, beside words 0 to 63.
#[derive(Clone, Copy)]
enum Compared {
    Alike,
    Other,
    /// One of them can't be read.
    Ends,
}

/// What a slave's chip says of its size, and what was found.
#[derive(Clone, Copy)]
pub struct Measured {
    pub says: u32,
    pub extent: Extent,
}

/// Reads words 0 to 63.
fn read_block<W: Wire, C: Clock>(
    wire: &mut NumberedWire<W>,
    clock: &C,
    slave: u16,
    ahead: &Ahead,
) -> Result<Block, Hitch>
    requires { slave < 64 }
    ensures same { wire.new.stations ≡ wire.old.stations }
    ensures read { AllKept W.gives ahead.now
        → IfOk result (λ block. BlockCame W.gives (slice_index wire.old.stations.by_slave slave) block) }
{
    let mut block = [[0u8; 4]; 32];
    let mut next = None;
    for pair in 0..32u16 {
        let read = words_at(wire, clock, slave, 2 * pair, next, ahead)?;
        let words = read.pair;
        block[usize::from(pair)] = words;
        next = read.next;
    }
    Ok(block)
}

/// Whether all words of a block are alike.
fn is_uniform(block: &Block) -> bool {
    let [first, second, _, _] = block[0];
    let alike = [first, second, first, second];
    block.iter().all(|pair| *pair == alike)
}

/// Reads a word and the next one, which the chip may not have, unless they were read ahead. None where the slave refuses that for a tenth of a
/// second.
fn read_beyond<W: Wire, C: Clock>(
    wire: &mut NumberedWire<W>,
    clock: &C,
    slave: u16,
    word: u16,
    ahead: &Ahead,
) -> Result<Option<[u8; 4]>, Hitch>
    requires { slave < 64 }
    ensures { wire.new.stations ≡ wire.old.stations }
{
    let station = wire.stations().of_slave(slave);
    if let Some(pair) = kept_of::<W>(ahead, slave, station, word) {
        return Ok(Some(pair));
    }
    match read_in_tries(wire, clock, slave, word, PROBES) {
        Ok(read) => Ok(Some(read.pair)),
        Err(Hitch::Stuck(last)) if is_refusal(last) => Ok(None),
        Err(hitch) => Err(hitch),
    }
}

/// Compares the 64 words from `start` on with the first ones, up to the first pair that is another.
fn compare_block<W: Wire, C: Clock>(
    wire: &mut NumberedWire<W>,
    clock: &C,
    slave: u16,
    start: u16,
    block: &Block,
    ahead: &Ahead,
) -> Result<Compared, Hitch>
    requires slave { slave < 64 }
    requires start { start ≤ 4096 }
    ensures { wire.new.stations ≡ wire.old.stations }
{
    for pair in 0..32u16 {
        match read_beyond(wire, clock, slave, start + 2 * pair, ahead)? {
            Some(found) if found == block[usize::from(pair)] => {}
            Some(_) => return Ok(Compared::Other),
            None => return Ok(Compared::Ends),
        }
    }
    Ok(Compared::Alike)
}

/// Whether each of so many words is repeated as far behind.
fn is_rolled<W: Wire, C: Clock>(
    wire: &mut NumberedWire<W>,
    clock: &C,
    slave: u16,
    words: u16,
    ahead: &Ahead,
) -> Result<bool, Hitch>
    requires slave { slave < 64 }
    requires words { words ≤ 4096 }
    ensures { wire.new.stations ≡ wire.old.stations }
{
    for pair in 0..words / 2 {
        let here = words_at(wire, clock, slave, 2 * pair, None, ahead)?;
        let there = read_beyond(wire, clock, slave, words + 2 * pair, ahead)?;
        if there != Some(here.pair) {
            return Ok(false);
        }
    }
    Ok(true)
}

/// The first multiple of 64 from `from` on whose word can't be read, below `to`, which can't.
fn end_between<W: Wire, C: Clock>(
    wire: &mut NumberedWire<W>,
    clock: &C,
    slave: u16,
    from: u16,
    to: u16,
    ahead: &Ahead,
) -> Result<u16, Hitch>
    requires slave { slave < 64 }
    requires to { to ≤ 4096 }
    ensures { wire.new.stations ≡ wire.old.stations }
{
    for block in 0..64u16 {
        let start = 64 * block;
        if start > from && start < to {
            if read_beyond(wire, clock, slave, start, ahead)?.is_none() {
                return Ok(start);
            }
        }
    }
    Ok(to)
}

/// Looks where the words of a chip repeat: the last start whose block is another, or where reading ends.
fn look_along<W: Wire, C: Clock>(
    wire: &mut NumberedWire<W>,
    clock: &C,
    slave: u16,
    block: &Block,
    ahead: &Ahead,
) -> Result<Along, Hitch>
    requires { slave < 64 }
    ensures { wire.new.stations ≡ wire.old.stations }
{
    let mut along = Along {
        unlike: 0,
        ends: None,
    };
    for first in &STARTS {
        let start = (*first).min(MOST);
        match compare_block(wire, clock, slave, start, block, ahead)? {
            Compared::Alike => {}
            Compared::Other => along.unlike = start,
            Compared::Ends => {
                let end = end_between(wire, clock, slave, start / 2, start, ahead)?;
                along.ends = Some(end);
                return Ok(along);
            }
        }
    }
    Ok(along)
}

/// Where the words of a chip repeat.
#[derive(Clone, Copy)]
struct Along {
    /// The last start at which there are others than at the beginning. 0: at none.
    unlike: u16,
    /// The first block that can't be read.
    ends: Option<u16>,
}

/// Finds how large a chip is, of which `block` are the first words.
fn find_extent<W: Wire, C: Clock>(
    wire: &mut NumberedWire<W>,
    clock: &C,
    slave: u16,
    block: &Block,
    says: u32,
    ahead: &Ahead,
) -> Result<Extent, Hitch>
    requires { slave < 64 }
    ensures { wire.new.stations ≡ wire.old.stations }
{
    let along = look_along(wire, clock, slave, block, ahead)?;
    if let Some(words) = along.ends {
        return Ok(Extent::EndsAt(words));
    }
    let is_uniform = is_uniform(block);
    if along.unlike == 0 && is_uniform {
        return Ok(Extent::Uniform);
    }
    let plain = if is_uniform { None } else { Some(says) };
    find_repeat(wire, clock, slave, along.unlike, plain, ahead)
}

/// Finds from where on the words of a chip repeat, after the last start whose block is another. At the size `plain`, if there is one, its
/// first block alone tells.
fn find_repeat<W: Wire, C: Clock>(
    wire: &mut NumberedWire<W>,
    clock: &C,
    slave: u16,
    unlike: u16,
    plain: Option<u32>,
    ahead: &Ahead,
) -> Result<Extent, Hitch>
    requires { slave < 64 }
    ensures { wire.new.stations ≡ wire.old.stations }
{
    for first in &STARTS {
        let words = (*first).min(MOST);
        if words > unlike {
            let is_plain = plain == Some(u32::from(words));
            if is_plain || is_rolled(wire, clock, slave, words, ahead)? {
                return Ok(Extent::Repeats(words));
            }
        }
    }
    Ok(Extent::Open)
}

/// So many words an EEPROM has by words 0x3E and 0x3F: word 0x3E is its size in KiBit, less one (ETG.1000.6).
fn said_by(pair: [u8; 4]) -> u32 {
    let [low, high, _, _] = pair;
    64 * (u32::from(u16::from_le_bytes([low, high])) + 1)
}

/// How many words of an EEPROM are read ahead: so many as are given, or else as its words 0x3E and 0x3F say, up to 4,096. One that says more
/// than 65,536 words is taken as blank, and no more than its first 64 are read.
pub(crate) fn words_ahead(pair: [u8; 4], given: Option<u16>) -> u16 {
    let says = said_by(pair);
    match given {
        Some(words) => words,
        None if says > 65_536 => 64,
        None => u16::try_from(says).unwrap_or(MOST).min(MOST),
    }
}

/// The first place from this word on at which a chip may begin to repeat, and `u16::MAX` where there is none.
pub(crate) fn block_after(word: u16) -> u16 {
    for start in &STARTS {
        if *start >= word {
            return *start;
        }
    }
    u16::MAX
}

/// Finds how large the EEPROM of a slave is: what it says, and what its words show.
pub fn measure<W: Wire, C: Clock>(
    wire: &mut NumberedWire<W>,
    clock: &C,
    slave: u16,
    ahead: &Ahead,
) -> Result<Measured, Hitch>
    requires { slave < 64 }
    ensures { wire.new.stations ≡ wire.old.stations }
{
    let block = read_block(wire, clock, slave, ahead)?;
    let says = said_by(block[31]);
    let extent = find_extent(wire, clock, slave, &block, says, ahead)?;
    Ok(Measured { says, extent })
}

/// The size that is worked with: the given one, if there is one, or else what is sure, or else what the EEPROM says.
///
/// # Errors
///
/// `Smaller` where the chip is sure to be smaller than the given size, unless that is trusted.
pub fn validate_size(
    measured: Measured,
    given: Option<u16>,
    is_trusted: bool,
) -> Result<SizeFound, SlaveFault>
    ensures { IfOk result (λ size. size.words ≤ 4096) }
{
    let sure = measured.extent.sure();
    let words = match (given, sure) {
        (Some(given), Some(found)) if found < given && !is_trusted => {
            return Err(SlaveFault::Smaller { given, found });
        }
        (Some(given), _) => given,
        (None, Some(found)) => found,
        (None, None) => said_or_least(measured),
    };
    let words = words.min(MOST);
    Ok(SizeFound {
        words,
        says: measured.says,
        extent: measured.extent,
        is_larger: measured.extent == Extent::Open && words == MOST,
    })
}

/// The size of a chip of which nothing is sure: what it says, up to 4,096 words, and 64 words where its words are all alike.
fn said_or_least(measured: Measured) -> u16 {
    if measured.extent == Extent::Uniform {
        return 64;
    }
    u16::try_from(measured.says).unwrap_or(MOST).min(MOST)
}
