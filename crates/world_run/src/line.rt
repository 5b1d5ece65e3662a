ghost use Rattle.std.specs.Prelude.{◌≡◌, ◌<◌, ◌≤◌, ◌↔◌, false, length, vec_len, slice_index_or, IfOk, IsTrue};
ghost use Rattle.std.specs.List.{AllByRecursion};
ghost use Rattle.esc_model.specs.WordAccess.{IsIdle};
ghost use Rattle.book_model.specs.Entries.{sizes_of};
ghost use Rattle.book_model.specs.Opening.{words_in};
ghost use Rattle.world_run.specs.Left.{TornBy, word_left};
ghost use Rattle.world_run.specs.Sides.{HandsWord, ComesToRest, IsIdleAt, IsWellAt, IsPoweredUp};

use crate::half::{WordEnd, end_word, is_idle, is_well, issue, tear_word};
use crate::leaving::LeftWord;
use esc_model::{RomHalf, station_address};
use sii_words::Words;
use std::alloc::{AllocError, Global};
use std::marker::Model;

/// The EEPROM halves of a line's slaves, and for each whether it took the datagram of the last issue.
#[derive(Drop)]
pub(crate) struct WorldLine {
    halves: Vec<RomHalf>,
    took: Vec<bool>,
}

impl Model for WorldLine {
    ghost use Rattle.world_run.specs.Sides.{Sides, SidesStand};

    ghost Value = { Sides };

    ghost view = { λ l. record { halves = l.halves.items; took = l.took.items } };

    ghost invariant = { λ l. SidesStand l.halves.items l.took.items };
}

/// The value of the first choice that names this slave.
fn word_left(choice: &[LeftWord], slave: usize) -> Option<u16>
    ensures { result ≡ word_left choice.now slave }
{
    for left in choice {
        if usize::from(left.slave) == slave {
            return Some(left.word);
        }
    }
    None
}

/// The halves of slaves with these words, just powered up.
fn switch_on(alloc: Global, words: Vec<Words>) -> Result<Vec<RomHalf>, AllocError>
    requires { vec_len words ≤ 64 }
    ensures { IfOk result (λ halves. IsPoweredUp words.items halves.items) }
{
    let mut halves = Vec::with_capacity(alloc, words.len())?;
    for contents in words {
        let station = station_address(halves.len() as u16);
        halves.push(RomHalf::power_up(contents, station, 0))?;
    }
    Ok(halves)
}

/// A power cut leaves the chosen values in the words in flight.
fn tear_all(halves: &mut [RomHalf], choice: &[LeftWord])
    ensures { TornBy choice.now halves.old halves.new }
{
    for slave in 0..halves.len() {
        tear_word(&mut halves[slave], word_left(choice, slave));
    }
}

impl WorldLine {
    /// A line of 1 to 64 slaves with these words, just powered up.
    pub(crate) fn of(alloc: Global, words: Vec<Words>) -> Result<WorldLine, AllocError>
        requires some { 1 ≤ vec_len words }
        requires most { vec_len words ≤ 64 }
        ensures words { IfOk result (λ line. words_in line.halves ≡ words.items) }
        ensures idle { IfOk result (λ line. AllByRecursion IsIdle line.halves) }
        ensures took { IfOk result (λ line. length line.took ≡ length line.halves) }
    {
        let took = vec![in alloc; false; words.len()]?;
        let halves = switch_on(alloc, words)?;
        Ok(WorldLine { halves, took })
    }

    /// The number of slaves, 1 to 64.
    pub(crate) fn len(&self) -> usize
        ensures len { result ≡ length self.now.halves }
        ensures some { 1 ≤ result }
        ensures most { result ≤ 64 }
    {
        self.halves.len()
    }

    /// Whether the slave took the datagram of its last issue.
    pub(crate) fn took(&self, slave: u16) -> bool
        requires { slave < length self.now.halves }
        ensures { result ≡ slice_index_or self.now.took slave false }
    {
        self.took[usize::from(slave)]
    }

    /// Whether the slave is idle.
    pub(crate) fn is_idle(&self, slave: u16) -> bool
        requires { slave < length self.now.halves }
        ensures { IsTrue result ↔ IsIdleAt self.now.halves slave }
    {
        is_idle(&self.halves[usize::from(slave)], slave)
    }

    /// Whether the slave is idle with bits 13 and 14 clear.
    pub(crate) fn is_well(&mut self, slave: u16) -> bool
        requires { slave < length self.old.halves }
        ensures well { IsTrue result ↔ IsWellAt self.old.halves slave }
        ensures same { self.new ≡ self.old }
    {
        is_well(&mut self.halves[usize::from(slave)], slave)
    }

    /// Whether no slave is busy.
    pub(crate) fn are_idle(&self) -> bool
        ensures { IsTrue result ↔ AllByRecursion IsIdle self.now.halves }
    {
        for slave in 0..self.halves.len() {
            if !is_idle(&self.halves[slave], slave as u16) {
                return false;
            }
        }
        true
    }

    /// Issues a word to the slave, which takes it if `takes` says so and the slave is idle.
    pub(crate) fn issue(&mut self, slave: u16, takes: bool, word: u16, value: u16)
        requires { slave < length self.old.halves }
        ensures { HandsWord slave takes word value self.old self.new }
    {
        let at = usize::from(slave);
        self.took[at] = issue(&mut self.halves[at], slave, takes, word, value);
    }

    /// The slave comes to rest, if it is busy.
    pub(crate) fn rest(&mut self, slave: u16, end: WordEnd)
        requires { slave < length self.old.halves }
        ensures { ComesToRest slave end self.old self.new }
    {
        end_word(&mut self.halves[usize::from(slave)], end);
    }

    /// A power cut leaves the chosen values in the words in flight.
    pub(crate) fn stop(&mut self, choice: &[LeftWord])
        ensures halves { TornBy choice.now self.old.halves self.new.halves }
        ensures took { self.new.took ≡ self.old.took }
    {
        tear_all(&mut self.halves, choice);
    }

    /// The words of all slaves.
    pub(crate) fn words(&self, alloc: Global) -> Result<Vec<Words>, AllocError>
        ensures { IfOk result (λ words. words.items ≡ words_in self.now.halves) }
    {
        let mut words = Vec::with_capacity(alloc, self.halves.len())?;
        for half in &self.halves {
            words.push(half.words().try_copy()?)?;
        }
        Ok(words)
    }

    /// The number of words of each slave.
    pub(crate) fn sizes(&self, alloc: Global) -> Result<Vec<u16>, AllocError>
        ensures { IfOk result (λ sizes. sizes.items ≡ sizes_of (words_in self.now.halves)) }
    {
        let mut sizes = Vec::with_capacity(alloc, self.halves.len())?;
        for half in &self.halves {
            sizes.push(half.words().len() as u16)?;
        }
        Ok(sizes)
    }
}
