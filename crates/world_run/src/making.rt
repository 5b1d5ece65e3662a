ghost use Rattle.std.specs.Prelude.{◌≡◌, ◌≤◌, ◌++◌, None, length, vec_len, replicate, All, IfOk};
ghost use Rattle.std.specs.List.{AllByRecursion};
ghost use Rattle.std.specs.Option.{option_copied};
ghost use Rattle.esc_model.specs.WordAccess.{IsIdle};
ghost use Rattle.jrn_format.specs.Header.{IsCapacity, header_bytes};
ghost use Rattle.sii_edit.specs.Fitting.{IsWord, PlantFits, WordsFit};
ghost use Rattle.book_model.specs.Opening.{words_in};
ghost use Rattle.world_law.specs.Law.{Starts, blank};
ghost use Rattle.world_run.specs.Torn.{synced_of};

use crate::disk::WorldDisk;
use crate::line::WorldLine;
use crate::station::Station;
use book_core::Core;
use book_model::CoreFault;
use sii_words::Words;
use std::alloc::Global;
use std::marker::Model;

/// The world of the main law in memory: a station that is up or down, its disk and its line.
#[derive(Drop)]
pub struct World {
    pub(crate) alloc: Global,
    pub(crate) station: Option<Station>,
    pub(crate) disk: WorldDisk,
    pub(crate) line: WorldLine,
}

impl Model for World {
    ghost use Rattle.world_law.specs.World as law;
    ghost use Rattle.world_run.specs.Torn.{disk_of};

    ghost Value = { law.World };

    ghost view = { λ w. record { book = w.station; state = record { disk = disk_of w.disk; halves = w.line.halves }; took = w.line.took } };
}

/// The words have 16 bits.
fn each_fits(words: &[u16])
    ensures { All IsWord words.now }
{}

/// The words of a slave have 16 bits, and their number too.
fn words_fit(words: &Words)
    ensures { WordsFit words.now }
{
    each_fits(words.as_slice());
}

/// This holds of each slave.
fn plant_fits(slaves: &[Words])
    ensures { PlantFits slaves.now }
{
    for words in slaves {
        words_fit(words);
    }
}

impl World {
    /// A world of 1 to 64 idle slaves with these words, a disk just formatted for them, and a station that is down.
    ///
    /// The journal's area has `capacity` bytes, which must be 4,096 to 4,194,304.
    ///
    /// # Errors
    ///
    /// `Memory`: memory was refused. The words are dropped.
    pub fn of(alloc: Global, slaves: Vec<Words>, capacity: u32) -> Result<World, CoreFault>
        requires some { 1 ≤ vec_len slaves }
        requires most { vec_len slaves ≤ 64 }
        requires capacity { IsCapacity capacity }
        ensures starts { IfOk result (λ world. Starts world (blank slaves.items)) }
        ensures words { IfOk result (λ world. words_in world.state.halves ≡ slaves.items) }
        ensures disk { IfOk result (λ world. world.state.disk ≡ synced_of (header_bytes 2 (vec_len slaves) capacity ++ replicate capacity 0)) }
    {
        plant_fits(&slaves);
        let disk = WorldDisk::formatted(alloc, slaves.len() as u16, capacity)?;
        let line = WorldLine::of(alloc, slaves)?;
        Ok(World {
            alloc,
            station: None,
            disk,
            line,
        })
    }

    /// A world of 1 to 64 idle slaves with these words, a disk of these bytes, all of them synced, and a station that is down.
    ///
    /// The main law starts here if the bytes hold a journal that is kept: `laws::a_world_on_a_kept_disk_starts`.
    ///
    /// # Errors
    ///
    /// `Memory`: memory was refused. The words and the bytes are dropped.
    pub fn with_disk(alloc: Global, slaves: Vec<Words>, bytes: Vec<u8>) -> Result<World, CoreFault>
        requires some { 1 ≤ vec_len slaves }
        requires most { vec_len slaves ≤ 64 }
        ensures down { IfOk result (λ world. world.book ≡ None) }
        ensures words { IfOk result (λ world. words_in world.state.halves ≡ slaves.items) }
        ensures idle { IfOk result (λ world. AllByRecursion IsIdle world.state.halves) }
        ensures disk { IfOk result (λ world. world.state.disk ≡ synced_of bytes.items) }
        ensures took { IfOk result (λ world. length world.took ≡ length world.state.halves) }
    {
        let disk = WorldDisk::of(alloc, bytes);
        let line = WorldLine::of(alloc, slaves)?;
        Ok(World {
            alloc,
            station: None,
            disk,
            line,
        })
    }

    /// The bytes of the disk, as a read gives them.
    pub fn disk(&self) -> &[u8]
        ensures { result.now ≡ self.now.state.disk.bytes }
    {
        self.disk.bytes()
    }

    /// Copies the words of all slaves. A word in flight has its old value there.
    ///
    /// # Errors
    ///
    /// `Memory`: memory was refused.
    pub fn words(&self) -> Result<Vec<Words>, CoreFault>
        ensures { IfOk result (λ words. words.items ≡ words_in self.now.state.halves) }
    {
        let words = self.line.words(self.alloc)?;
        Ok(words)
    }

    /// The book, while the station is up.
    pub fn core(&self) -> Option<&Core>
        ensures { option_copied result ≡ self.now.book }
    {
        match &self.station {
            Some(station) => return Some(station.core()),
            None => return None,
        }
    }
}
