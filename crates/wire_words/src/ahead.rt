//! Words that were read ahead, before a slave's turn comes.
ghost use Rattle.std.specs.Prelude.{◌≡◌, ◌<◌, slice_index, IfSome, IfOk};
ghost use Rattle.wire_words.specs.Words.{PairCame, WordsRead};
ghost use Rattle.wire_words.specs.Reading.{KeptCame, AllKept};

use crate::reading::{Read, read_at};
use crate::telling::Hitch;
use std::alloc::{AllocFailed, Global};
use std::rt::Clock;
use wire_frames::{NumberedWire, Wire};

/// How many pairs of words of a slave are kept at most: up to word 4,159.
const PAIRS: usize = 2080;

/// A word of the slave with this station address, and the next one.
#[derive(Clone, Copy)]
pub struct Retained {
    pub station: u16,
    pub word: u16,
    pub pair: [u8; 4],
}

/// What was read of the slaves of a line: by slave, each pair of words has its place.
#[derive(Drop)]
pub struct Ahead {
    pairs: Vec<Option<Retained>>,
}

/// Where a word of a slave has its place.
fn place_of(slave: u16, word: u16) -> usize {
    usize::from(slave) * PAIRS + usize::from(word / 2)
}

/// Nothing of so many slaves.
pub fn nothing_ahead<W: Wire>(
    alloc: Global,
    slaves: u16,
) -> Result<Ahead, AllocFailed<Option<Retained>>>
    ensures { IfOk result (AllKept W.gives) }
{
    let mut pairs = Vec::new(alloc);
    for _place in 0..usize::from(slaves) * PAIRS {
        pairs.push(None)?;
    }
    Ok(Ahead { pairs })
}

/// Keeps two words of a slave.
pub(crate) fn keep<W: Wire>(ahead: &mut Ahead, slave: u16, kept: Retained)
    requires came { PairCame W.gives kept.station kept.word kept.pair }
    requires kept { AllKept W.gives ahead.old }
    ensures { AllKept W.gives ahead.new }
{
    let place = place_of(slave, kept.word);
    if place < ahead.pairs.len() {
        ahead.pairs[place] = Some(kept);
    }
}

/// Keeps the words of a read of the slave with this station address.
pub(crate) fn keep_read<W: Wire>(ahead: &mut Ahead, slave: u16, station: u16, word: u16, read: Read)
    requires came { WordsRead W.gives station word read }
    requires kept { AllKept W.gives ahead.old }
    ensures { AllKept W.gives ahead.new }
{
    let Read { pair, next } = read;
    let first = Retained {
        station,
        word,
        pair,
    };
    keep::<W>(ahead, slave, first);
    if let (Some(pair), Some(word)) = (next, word.checked_add(2)) {
        let others = Retained {
            station,
            word,
            pair,
        };
        keep::<W>(ahead, slave, others);
    }
}

/// A word of the slave with this station address, and the next one, if they were kept.
pub(crate) fn kept_of<W: Wire>(
    ahead: &Ahead,
    slave: u16,
    station: u16,
    word: u16,
) -> Option<[u8; 4]>
    ensures { AllKept W.gives ahead.now → IfSome result (PairCame W.gives station word) }
{
    let place = place_of(slave, word);
    if place >= ahead.pairs.len() {
        return None;
    }
    match ahead.pairs[place] {
        Some(kept) if kept.station == station && kept.word == word => Some(kept.pair),
        _ => None,
    }
}

/// The words of a slave from this one on: the next ones of the read before, if it gave them, or those that were read ahead, or else it is
/// read now.
pub fn words_at<W: Wire, C: Clock>(
    wire: &mut NumberedWire<W>,
    clock: &C,
    slave: u16,
    word: u16,
    next: Option<[u8; 4]>,
    ahead: &Ahead,
) -> Result<Read, Hitch>
    requires { slave < 64 }
    ensures same { wire.new.stations ≡ wire.old.stations }
    ensures read { AllKept W.gives ahead.now → IfSome next (PairCame W.gives (slice_index wire.old.stations.by_slave slave) word)
        → IfOk result (WordsRead W.gives (slice_index wire.old.stations.by_slave slave) word) }
{
    let station = wire.stations().of_slave(slave);
    match next.or(kept_of::<W>(ahead, slave, station, word)) {
        Some(pair) => Ok(Read { pair, next: None }),
        None => read_at(wire, clock, slave, word),
    }
}
